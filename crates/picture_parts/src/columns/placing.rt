//! The places of a picture's columns.
ghost use Rattle.std.specs.Prelude.{◌≡◌, ◌≤◌, ◌==◌, length, IfOk, nat_eq, true, []};
ghost use Rattle.texts.specs.Instances.{name_at};
ghost use Rattle.picture_parts.specs.Columns.Placing.{wider, widest_with, between, wider_cut, widest_cut, head_half};
ghost use Rattle.picture_parts.specs.Columns.Placing.{label_distance, near_distance, distance, room_beside, least};
ghost use Rattle.picture_parts.specs.Columns.Placing.{next_column, columns_from, columns_of, edge, width_of};
ghost use Rattle.picture_parts.specs.Columns.TextWidths.{name_width};
ghost use Rattle.std.specs.List.{list_any};

use crate::columns::columns::{Column, Room};
use crate::columns::plan::Plan;
use crate::columns::rooms::{has_races_on, is_mirrored, plus, room_of};
use crate::columns::text_widths::{cut_width, name_width, number_width};
use chart::{Event, InstanceNo, Names};
use std::alloc::{AllocError, Global};
use texts::named;

/// The greater of `widest` and the width of an event's label, if its message is with the partner. Otherwise `widest`.
fn wider(near: bool, partner: InstanceNo, widest: u32, event: &Event) -> u32
    ensures { result ≡ wider near partner widest event.now }
{
    if event.partner() != partner {
        return widest;
    }
    let name = event.name();
    widest.max(name_width(name.as_bytes(), near))
}

/// The greatest width of a label of a line's messages with the partner, but at least `widest`.
fn widest_with(near: bool, partner: InstanceNo, widest: u32, events: &[Event]) -> u32
    ensures { result ≡ widest_with near partner widest events.now }
{
    events.iter().fold(widest, |widest, event| wider(near, partner, widest, event))
}

/// The greatest width of a label between two instances.
fn between(plan: &Plan<'_>, near: bool, left: InstanceNo, right: InstanceNo) -> u32
    ensures { result ≡ between plan.now near left right }
{
    let widest = widest_with(near, right, 0, plan.events_of(left));
    widest_with(near, left, widest, plan.events_of(right))
}

/// Whether the instance has a column.
fn is_listed(instances: &[InstanceNo], instance: InstanceNo) -> bool
    ensures { result ≡ list_any (nat_eq instance) instances.now }
{
    instances.iter().any(|column| instance == *column)
}

/// The greater of `widest` and the width of an event's label, if its message is cut. Otherwise `widest`.
fn wider_cut(plan: &Plan<'_>, widest: u32, event: &Event) -> u32
    ensures { result ≡ wider_cut plan.now widest event.now }
{
    let partner = event.partner();
    if is_listed(plan.instances, partner) {
        return widest;
    }
    let name = event.name();
    if partner.place() < plan.names.len() {
        let other = named(plan.names, partner);
        widest.max(cut_width(name.as_bytes(), other.as_bytes()))
    } else {
        widest.max(cut_width(name.as_bytes(), b""))
    }
}

/// The greatest width of the label of a cut message beside an instance's line.
fn widest_cut(plan: &Plan<'_>, instance: InstanceNo) -> u32
    ensures { result ≡ widest_cut plan.now instance }
{
    plan.events_of(instance)
        .iter()
        .fold(0, |widest, event| wider_cut(plan, widest, event))
}

/// The width of the name of an instance, if it has one.
fn width_of_name(names: &Names, instance: InstanceNo) -> u32
    ensures value { result ≡ name_width true (name_at names.now instance) }
    ensures limit { result ≤ 534 }
{
    if instance.place() < names.len() {
        let name = named(names, instance);
        name_width(name.as_bytes(), true)
    } else {
        name_width(b"", true)
    }
}

/// Half of the width of an instance's head.
fn head_half(plan: &Plan<'_>, instance: InstanceNo) -> u32
    ensures value { result ≡ head_half plan.now instance }
    ensures limit { result ≤ 273 }
{
    width_of_name(plan.names, instance) / 2 + 6
}

/// The distance that labels need between the line of a column and that of an instance with this room.
fn label_distance(
    plan: &Plan<'_>,
    near: bool,
    column: &Column,
    instance: InstanceNo,
    room: &Room,
) -> u32
    ensures { result ≡ label_distance plan.now near column.now instance room.now }
{
    let label = between(plan, near, column.instance, instance);
    plus(plus(column.room.right, room.left), label)
}

/// The distance that heads and the labels of cut messages need between neighbours.
fn near_distance(plan: &Plan<'_>, column: &Column, instance: InstanceNo, room: &Room) -> u32
    ensures { result ≡ near_distance plan.now column.now instance room.now }
{
    let heads = head_half(plan, column.instance) + head_half(plan, instance) + 8;
    let label = widest_cut(plan, column.instance);
    heads.max(plus(plus(column.room.right, room.left), label))
}

/// The least distance of the line of an instance from that of a column on its left.
fn distance(plan: &Plan<'_>, near: bool, column: &Column, instance: InstanceNo, room: &Room) -> u32
    ensures { result ≡ distance plan.now near column.now instance room.now }
{
    let labels = label_distance(plan, near, column, instance, room);
    if near {
        labels.max(near_distance(plan, column, instance, room))
    } else {
        labels
    }
}

/// The room of an instance's line, on the right of these columns.
fn room_beside(plan: &Plan<'_>, columns: &[Column], instance: InstanceNo) -> Room
    ensures room { result ≡ room_beside plan.now columns.now instance }
{
    let events = plan.events_of(instance);
    let races = has_races_on(plan.reports, instance);
    let mirrored = is_mirrored(columns, events);
    room_of(races, plan.numbers, mirrored, number_width(events.len()))
}

/// The leftmost place of an instance's line on the right of these columns.
fn least(plan: &Plan<'_>, columns: &[Column], instance: InstanceNo, room: &Room) -> u32
    ensures { result ≡ least plan.now columns.now instance room.now }
{
    let start = plus(head_half(plan, instance).max(room.left), 16);
    let count = columns.len();
    columns.iter().fold(start, |x, column| {
        let near = column.number == count;
        x.max(plus(column.x, distance(plan, near, column, instance, room)))
    })
}

/// The column of an instance, on the right of these.
fn next_column(plan: &Plan<'_>, columns: &[Column], instance: InstanceNo) -> Column
    ensures { result ≡ next_column plan.now columns.now instance }
{
    let room = room_beside(plan, columns, instance);
    Column {
        instance,
        number: columns.len() + 1,
        x: least(plan, columns, instance, &room),
        room,
    }
}

/// The columns of these instances, from the left.
fn columns_for(
    alloc: Global,
    plan: &Plan<'_>,
    instances: &[InstanceNo],
) -> Result<Vec<Column>, AllocError>
    ensures { IfOk result (λ columns. columns.items ≡ columns_from plan.now [] instances.now) }
{
    let mut columns = Vec::with_capacity(alloc, instances.len())?;
    for instance in instances {
        let column = next_column(plan, columns.as_slice(), *instance);
        columns.push(column)?;
    }
    Ok(columns)
}

/// The columns of the drawn instances, from the left. F6: it fails only if there is no memory.
pub fn columns_of(alloc: Global, plan: &Plan<'_>) -> Result<Vec<Column>, AllocError>
    ensures { IfOk result (λ columns. columns.items ≡ columns_of plan.now) }
{
    columns_for(alloc, plan, plan.instances)
}

/// The right end of a column.
fn edge(plan: &Plan<'_>, column: &Column) -> u32
    ensures { result ≡ edge plan.now column.now }
{
    let label = plus(column.room.right, widest_cut(plan, column.instance));
    plus(column.x, head_half(plan, column.instance).max(label))
}

/// The width of a picture with these columns and a title of this number of bytes.
pub fn width_of(plan: &Plan<'_>, columns: &[Column], title: usize) -> u32
    ensures { result ≡ width_of plan.now columns.now title }
{
    let wide = columns
        .iter()
        .fold(400, |wide: u32, column| wide.max(edge(plan, column)));
    plus(wide.max(7 * title.min(4096) as u32), 16)
}
