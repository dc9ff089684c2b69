//! The columns of a picture: heads and lifelines.
ghost use Rattle.std.specs.Prelude.{◌≡◌, ◌≤◌, length};
ghost use Rattle.std.specs.List.{flat_map};
ghost use Rattle.chart.specs.Charts.{chart_lines};
ghost use Rattle.chart.specs.Events.{region_of};
ghost use Rattle.chart.specs.declared.line.TheConstants.{MAX_EVENTS};
ghost use Rattle.texts.specs.Instances.{name_at};
ghost use Rattle.texts.specs.Writing.{Adds};
ghost use Rattle.pictures.specs.ColumnText.{cut, part, next_life, life_end, life_text, name_height, head_of, head};
ghost use Rattle.pictures.specs.ColumnText.{rows_above, lifeline, column_text};

use crate::picture::Picture;
use crate::spots::height;
use chart::{Event, EventNo, InstanceNo};
use picture_parts::columns::{Column, line_break, name_width};
use picture_parts::elements::{Spot, add_foot, add_head_box, add_name_lines, add_segment};
use texts::{Out, TextBuffer, WriteError, named};

/// The state of a lifeline that is drawn from the top down.
#[derive(Clone, Copy)]
pub(crate) struct Life {
    /// The coregion of the last event, or 0.
    pub(crate) region: u32,
    /// The y coordinate at which the next part begins.
    pub(crate) start: u64,
    /// The number of rows that are drawn above the last event.
    pub(crate) place: u32,
}

/// The y coordinate at which a part of a lifeline ends, before an event that isn't in its coregion.
fn cut(life: Life, place: u32) -> u64
    ensures { result ≡ cut life place }
{
    if life.region == 0 {
        u64::from(place) * 24 + 72
    } else {
        u64::from(life.place) * 24 + 96
    }
}

/// Adds the part of a lifeline that ends before an event of this coregion, if one does.
fn add_part<W: Out>(
    text: &mut TextBuffer<'_, W>,
    x: u64,
    life: Life,
    place: Option<u32>,
    region: u32,
) -> Result<(), WriteError>
    ensures { Adds W.sink text.old text.new result (part x life place region) }
{
    let Some(place) = place else {
        return text.add(b"");
    };
    if region == life.region {
        return text.add(b"");
    }
    add_segment(text, life.region, x, life.start, cut(life, place))
}

/// The state of the lifeline below the event.
fn next_life(life: Life, place: Option<u32>, region: u32) -> Life
    ensures { result ≡ next_life life place region }
{
    let Some(place) = place else {
        return life;
    };
    let start = if region == life.region {
        life.start
    } else {
        cut(life, place)
    };
    Life {
        region,
        start,
        place,
    }
}

/// Adds the last part of a lifeline, down to `bottom`.
#[tactic(auto, using(texts::proofs::Writes::joining), unfolding(crate::specs::ColumnText::life_end))]
fn add_life_end<W: Out>(
    text: &mut TextBuffer<'_, W>,
    x: u64,
    life: Life,
    bottom: u64,
) -> Result<(), WriteError>
    ensures { Adds W.sink text.old text.new result (life_end x life bottom) }
{
    if life.region == 0 {
        return add_segment(text, 0, x, life.start, bottom);
    }
    let end = u64::from(life.place) * 24 + 96;
    add_segment(text, life.region, x, life.start, end)?;
    add_segment(text, 0, x, end, bottom)
}

/// The number of rows that are drawn above an event, if the event is drawn.
pub(crate) fn rows_above(picture: &Picture<'_>, event: &EventNo) -> Option<u32>
    ensures { result ≡ rows_above picture.now event.now }
{
    match picture.cell_of(event) {
        Some(cell) => Some(cell.place),
        None => None,
    }
}

/// Adds the lifeline at x of an instance with these events.
fn add_lifeline<W: Out>(
    text: &mut TextBuffer<'_, W>,
    picture: &Picture<'_>,
    instance: InstanceNo,
    x: u64,
    events: &[Event],
) -> Result<(), WriteError>
    requires { length events.now ≤ MAX_EVENTS }
    ensures { Adds W.sink text.old text.new result (lifeline picture.now instance x events.now) }
{
    let mut life = Life {
        region: 0,
        start: 52,
        place: 0,
    };
    let mut index = 1;
    for event in events {
        let place = rows_above(picture, &EventNo { instance, index });
        add_part(text, x, life, place, event.region())?;
        life = next_life(life, place, event.region());
        index += 1;
    }
    add_life_end(text, x, life, height(picture.count()))
}

/// The y coordinate of the lower line of an instance's name. `upper` is the number of bytes on its upper line.
fn name_height(upper: usize) -> u64
    ensures { result ≡ name_height upper }
{
    if upper == 0 { 42 } else { 47 }
}

/// Adds the head of a line at x, with this name.
#[tactic(auto, using(texts::proofs::Writes::joining), unfolding(crate::specs::ColumnText::head_of))]
fn add_head_of<W: Out>(text: &mut TextBuffer<'_, W>, name: &[u8], x: u64) -> Result<(), WriteError>
    ensures { Adds W.sink text.old text.new result (head_of name.now x) }
{
    let half = u64::from(name_width(name, true) / 2 + 6);
    let upper = line_break(name, true);
    add_head_box(text, x.saturating_sub(half), 2 * half)?;
    let at = Spot {
        x,
        y: name_height(upper),
    };
    add_name_lines(text, upper, name, at)
}

/// Adds the head of an instance's line at x.
fn add_head<W: Out>(
    text: &mut TextBuffer<'_, W>,
    picture: &Picture<'_>,
    instance: InstanceNo,
    x: u64,
) -> Result<(), WriteError>
    ensures { Adds W.sink text.old text.new result (head picture.now instance x) }
{
    let names = picture.names();
    if instance.place() < names.len() {
        let name = named(names, instance);
        add_head_of(text, name.as_bytes(), x)
    } else {
        add_head_of(text, b"", x)
    }
}

/// Adds a column: its head, its lifeline and its foot.
#[tactic(auto, using(texts::proofs::Writes::joining), unfolding(crate::specs::ColumnText::column_text))]
fn add_column<W: Out>(
    text: &mut TextBuffer<'_, W>,
    picture: &Picture<'_>,
    column: &Column,
) -> Result<(), WriteError>
    ensures { Adds W.sink text.old text.new result (column_text picture.now column.now) }
{
    let x = u64::from(column.x);
    add_head(text, picture, column.instance, x)?;
    let events = picture.events_of(column.instance);
    add_lifeline(text, picture, column.instance, x, events)?;
    let foot = Spot {
        x: x.saturating_sub(12),
        y: height(picture.count()),
    };
    add_foot(text, foot)
}

/// Adds columns.
pub(crate) fn add_columns<W: Out>(
    text: &mut TextBuffer<'_, W>,
    picture: &Picture<'_>,
    columns: &[Column],
) -> Result<(), WriteError>
    ensures { Adds W.sink text.old text.new result (flat_map (column_text picture.now) columns.now) }
{
    for column in columns {
        add_column(text, picture, column)?;
    }
    Ok(())
}
