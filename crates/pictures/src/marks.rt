//! The marks of races: a dot at each receive, and a bracket for each range of earlier events that the receive may come
//! before.
ghost use Rattle.std.specs.Prelude.{◌≡◌, ◌≤◌, All};
ghost use Rattle.std.specs.List.{flat_map};
ghost use Rattle.chart.specs.Ranges.{IsRange, ranges_of};
ghost use Rattle.texts.specs.Writing.{Adds};
ghost use Rattle.pictures.specs.MarkText.{from_left, dot_spot, dot, race_number, offset, bracket_x, inner_x, upper_y};
ghost use Rattle.pictures.specs.MarkText.{bracket_between, first_in_picture, last_in_picture, bracket_places, bracket_rows};
ghost use Rattle.pictures.specs.MarkText.{bracket_text, marked, marks};
ghost use Rattle.pictures.specs.Pictures.{cell_of};

use crate::picture::Picture;
use crate::spots::{Cell, height, number_of, number_spot};
use chart::{EventNo, EventRange, EventRanges, Report};
use picture_parts::columns::Column;
use picture_parts::elements::{
    Spot, add_bracket_end, add_bracket_name, add_bracket_outline, add_dot_end, add_dot_start,
    add_group_end, add_number,
};
use texts::pieces::{add_amount, add_range, add_ranges};
use texts::{Out, TextBuffer, WriteError};

/// Whether the message of a receive on this column's line comes from the left.
fn from_left(picture: &Picture<'_>, receive: &EventNo, column: &Column) -> bool
    ensures { result ≡ from_left picture.now receive.now column.now }
{
    match picture.end_of(receive) {
        Some(send) => match picture.column_of(send.instance) {
            Some(other) => other.x < column.x,
            None => false,
        },
        None => false,
    }
}

/// The spot of a receive's dot: on the side of the lifeline that is opposite to the arrow's head.
fn dot_spot(left: bool, cell: &Cell) -> Spot
    ensures { result ≡ dot_spot left cell.now }
{
    let line = u64::from(cell.column.x);
    let x = if left {
        line + 5
    } else {
        line.saturating_sub(5)
    };
    Spot {
        x,
        y: height(cell.place),
    }
}

/// Adds the dot of a receive, with its earlier events as a title.
#[tactic(auto, using(texts::proofs::Writes::joining), unfolding(crate::specs::MarkText::dot))]
fn add_dot<W: Out>(
    text: &mut TextBuffer<'_, W>,
    receive: &EventNo,
    at: Spot,
    events: usize,
    ranges: &[EventRange],
) -> Result<(), WriteError>
    requires { All IsRange ranges.now }
    ensures { Adds W.sink text.old text.new result (dot receive.now at events ranges.now) }
{
    let number = u64::from(receive.index);
    add_dot_start(text, number_of(receive.instance), number, at)?;
    add_amount(text, events)?;
    add_ranges(text, ranges)?;
    add_dot_end(text)
}

/// Adds the number beside a dot, unless all events have their numbers.
fn add_race_number<W: Out>(
    text: &mut TextBuffer<'_, W>,
    picture: &Picture<'_>,
    receive: &EventNo,
    cell: &Cell,
) -> Result<(), WriteError>
    ensures { Adds W.sink text.old text.new result (race_number picture.now receive.now cell.now) }
{
    if picture.has_numbers() {
        return text.add(b"");
    }
    let number = u64::from(receive.index);
    if cell.column.room.mirrored {
        add_number(text, b"e k", number_spot(cell), number)
    } else {
        add_number(text, b"n k", number_spot(cell), number)
    }
}

/// The distance of a receive's brackets from their lifeline.
fn offset(column: &Column, receive: u32) -> u64
    ensures value { result ≡ offset column.now receive }
    ensures far { 13 ≤ result }
    ensures limit { result ≤ 17179869193 }
{
    let step = u64::from(column.room.step);
    let slot = receive % 5;
    if slot == 0 {
        13
    } else if slot == 1 {
        step + 13
    } else if slot == 2 {
        2 * step + 13
    } else if slot == 3 {
        3 * step + 13
    } else {
        4 * step + 13
    }
}

/// The x coordinate of a receive's brackets.
fn bracket_x(column: &Column, receive: u32) -> u64
    ensures { result ≡ bracket_x column.now receive }
{
    let line = u64::from(column.x);
    if column.room.mirrored {
        line + offset(column, receive)
    } else {
        line.saturating_sub(offset(column, receive))
    }
}

/// The x coordinate of the brackets' ends.
fn inner_x(column: &Column, receive: u32) -> u64
    ensures { result ≡ inner_x column.now receive }
{
    let line = u64::from(column.x);
    if column.room.mirrored {
        line + offset(column, receive) - 3
    } else {
        line.saturating_sub(offset(column, receive) - 3)
    }
}

/// The y coordinate of the brackets' upper corner, with `place` rows above it.
fn upper_y(receive: u32, place: u32) -> u64
    ensures { result ≡ upper_y receive place }
{
    height(place).saturating_sub(7 * u64::from(receive % 5 % 2) + 8)
}

/// Adds the bracket of a range between two rows, with the number of its receive at its top. `upper` and `lower` are how
/// many rows are drawn above each.
#[tactic(auto, using(texts::proofs::Writes::joining), unfolding(crate::specs::MarkText::bracket_between))]
fn add_bracket_between<W: Out>(
    text: &mut TextBuffer<'_, W>,
    receive: &EventNo,
    range: &EventRange,
    column: &Column,
    upper: u32,
    lower: u32,
) -> Result<(), WriteError>
    requires { IsRange range.now }
    ensures { Adds W.sink text.old text.new result
        (bracket_between receive.now range.now column.now upper lower) }
{
    let number = u64::from(receive.index);
    let x = bracket_x(column, receive.index);
    let y = upper_y(receive.index, upper);
    let first = u64::from(range.first.index);
    add_bracket_name(text, number_of(receive.instance), number, first)?;
    let inner = inner_x(column, receive.index);
    add_bracket_outline(text, Spot { x, y }, height(lower) + 7, inner, number)?;
    add_amount(text, range.count)?;
    add_range(text, range)?;
    add_bracket_end(text)?;
    let above = Spot {
        x,
        y: y.saturating_sub(3),
    };
    add_number(text, b"k", above, number)
}

/// The first event of a range, or the first chosen event if that is later.
fn first_in_picture(picture: &Picture<'_>, range: &EventRange) -> EventNo
    ensures { result ≡ first_in_picture picture.now range.now }
{
    EventNo {
        instance: range.first.instance,
        index: range.first.index.max(picture.first()),
    }
}

/// The last event of a range, or the last chosen event if that is earlier.
fn last_in_picture(picture: &Picture<'_>, range: &EventRange) -> EventNo
    requires { IsRange range.now }
    ensures { result ≡ last_in_picture picture.now range.now }
{
    let last = range.event(range.count - 1);
    EventNo {
        instance: range.first.instance,
        index: last.index.min(picture.last()),
    }
}

/// Adds the bracket of a range between two rows, if the numbers of rows above both are known.
fn add_bracket_places<W: Out>(
    text: &mut TextBuffer<'_, W>,
    receive: &EventNo,
    range: &EventRange,
    column: &Column,
    upper: Option<u32>,
    lower: Option<u32>,
) -> Result<(), WriteError>
    requires { IsRange range.now }
    ensures { Adds W.sink text.old text.new result
        (bracket_places receive.now range.now column.now upper lower) }
{
    match (upper, lower) {
        (Some(upper), Some(lower)) => {
            add_bracket_between(text, receive, range, column, upper, lower)
        }
        _ => text.add(b""),
    }
}

/// Adds the bracket of a range between two rows of the layout.
fn add_bracket_rows<W: Out>(
    text: &mut TextBuffer<'_, W>,
    picture: &Picture<'_>,
    receive: &EventNo,
    range: &EventRange,
    column: &Column,
    upper: usize,
    lower: usize,
) -> Result<(), WriteError>
    requires { IsRange range.now }
    ensures { Adds W.sink text.old text.new result
        (bracket_rows picture.now receive.now range.now column.now upper lower) }
{
    if upper <= lower {
        let upper = picture.place_at(upper);
        let lower = picture.place_at(lower);
        add_bracket_places(text, receive, range, column, upper, lower)
    } else {
        text.add(b"")
    }
}

/// Adds the bracket of the chosen part of a range of earlier events.
fn add_bracket<W: Out>(
    text: &mut TextBuffer<'_, W>,
    picture: &Picture<'_>,
    receive: &EventNo,
    range: &EventRange,
) -> Result<(), WriteError>
    requires { IsRange range.now }
    ensures { Adds W.sink text.old text.new result (bracket_text picture.now receive.now range.now) }
{
    let Some(column) = picture.column_of(range.first.instance) else {
        return text.add(b"");
    };
    let Some(upper) = picture.row_at(&first_in_picture(picture, range)) else {
        return text.add(b"");
    };
    let Some(lower) = picture.row_at(&last_in_picture(picture, range)) else {
        return text.add(b"");
    };
    let upper = upper.max(picture.top());
    let lower = lower.min(picture.bottom());
    add_bracket_rows(text, picture, receive, range, &column, upper, lower)
}

fn add_brackets<W: Out>(
    text: &mut TextBuffer<'_, W>,
    picture: &Picture<'_>,
    receive: &EventNo,
    ranges: &[EventRange],
) -> Result<(), WriteError>
    requires { All IsRange ranges.now }
    ensures { Adds W.sink text.old text.new result
        (flat_map (bracket_text picture.now receive.now) ranges.now) }
{
    for range in ranges {
        add_bracket(text, picture, receive, range)?;
    }
    Ok(())
}

/// Adds the marks of a receive that has races and is drawn.
#[tactic(auto, using(texts::proofs::Writes::joining), unfolding(crate::specs::MarkText::marked))]
fn add_marked<W: Out>(
    text: &mut TextBuffer<'_, W>,
    picture: &Picture<'_>,
    receive: &EventNo,
    cell: &Cell,
    earlier: &EventRanges,
) -> Result<(), WriteError>
    ensures { Adds W.sink text.old text.new result (marked picture.now receive.now cell.now earlier.now) }
{
    let ranges = earlier.as_slice();
    let at = dot_spot(from_left(picture, receive, &cell.column), cell);
    add_dot(text, receive, at, earlier.len(), ranges)?;
    add_race_number(text, picture, receive, cell)?;
    add_brackets(text, picture, receive, ranges)?;
    add_group_end(text)
}

/// Adds the marks of a receive.
fn add_report<W: Out>(
    text: &mut TextBuffer<'_, W>,
    picture: &Picture<'_>,
    report: &Report,
) -> Result<(), WriteError>
    ensures { Adds W.sink text.old text.new result (marks picture.now report.now) }
{
    let receive = report.receive();
    if report.earlier().is_empty() {
        return text.add(b"");
    }
    match picture.cell_of(&receive) {
        Some(cell) => add_marked(text, picture, &receive, &cell, report.earlier()),
        None => text.add(b""),
    }
}

/// Adds the marks of receives.
pub(crate) fn add_marks<W: Out>(
    text: &mut TextBuffer<'_, W>,
    picture: &Picture<'_>,
    reports: &[Report],
) -> Result<(), WriteError>
    ensures { Adds W.sink text.old text.new result (flat_map (marks picture.now) reports.now) }
{
    for report in reports {
        add_report(text, picture, report)?;
    }
    Ok(())
}
