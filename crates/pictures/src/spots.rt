//! The positions on a picture, in pixels from its upper left corner.
ghost use Rattle.std.specs.Prelude.{◌≡◌, ◌+◌, ◌*◌};
ghost use Rattle.pictures.specs.Spots.{height, on_line, are_near, amid, between, beside, label_x, number_spot, aside};
ghost use Rattle.pictures.specs.Spots.{cut_spot};

use chart::InstanceNo;
use picture_parts::columns::Column;
use picture_parts::elements::Spot;

/// The position of an event.
#[derive(Clone, Copy)]
pub(crate) struct Cell {
    pub(crate) column: Column,
    /// The number of rows that are drawn above it.
    pub(crate) place: u32,
}

/// The number of an instance.
pub(crate) fn number_of(instance: InstanceNo) -> u64
    ensures { result ≡ instance }
{
    instance.number() as u64
}

/// The y coordinate of the arrows of a row, with `place` rows above it.
pub(crate) fn height(place: u32) -> u64
    ensures { result ≡ height place }
{
    u64::from(place) * 24 + 84
}

/// The spot at which the cell's event meets its lifeline.
pub(crate) fn on_line(cell: &Cell) -> Spot
    ensures { result ≡ on_line cell.now }
{
    Spot {
        x: u64::from(cell.column.x),
        y: height(cell.place),
    }
}

/// Whether the columns are neighbours.
pub(crate) fn are_near(first: &Column, second: &Column) -> bool
    ensures { result ≡ are_near first.now second.now }
{
    first.number.saturating_sub(second.number) == 1
        || second.number.saturating_sub(first.number) == 1
}

/// The middle between the rooms of two lifelines.
fn amid(left: &Column, right: &Column) -> u64
    ensures { result ≡ amid left.now right.now }
{
    let end = u64::from(right.x.saturating_sub(right.room.left));
    (u64::from(left.x) + u64::from(left.room.right) + end) / 2
}

fn between(first: &Column, second: &Column) -> u64
    ensures { result ≡ between first.now second.now }
{
    if first.x < second.x {
        amid(first, second)
    } else {
        amid(second, first)
    }
}

/// The middle of a label of this width beside the room of a lifeline, on the side of another one.
fn beside(line: &Column, other: &Column, width: u32) -> u64
    ensures { result ≡ beside line.now other.now width }
{
    let half = u64::from(width / 2);
    let x = u64::from(line.x);
    if line.x < other.x {
        x + u64::from(line.room.right) + half
    } else {
        x.saturating_sub(u64::from(line.room.left) + half)
    }
}

/// The middle of a label of this width.
pub(crate) fn label_x(level: bool, from: &Column, to: &Column, width: u32) -> u64
    ensures { result ≡ label_x level from.now to.now width }
{
    if level {
        between(from, to)
    } else {
        beside(from, to, width)
    }
}

/// The spot of the number of the cell's event.
pub(crate) fn number_spot(cell: &Cell) -> Spot
    ensures { result ≡ number_spot cell.now }
{
    let line = u64::from(cell.column.x);
    let x = if cell.column.room.mirrored {
        line.saturating_sub(7)
    } else {
        line + 7
    };
    Spot {
        x,
        y: height(cell.place) + 11,
    }
}

/// The spot of the outer end of a cut message's arrow.
pub(crate) fn aside(cell: &Cell) -> Spot
    ensures { result ≡ aside cell.now }
{
    Spot {
        x: u64::from(cell.column.x) + u64::from(cell.column.room.right) + 17,
        y: height(cell.place),
    }
}

/// The y coordinate of the lower line of a label, in a row with `place` rows above it.
fn label_height(place: u32) -> u64
    ensures { result ≡ place * 24 + 80 }
{
    u64::from(place) * 24 + 80
}

/// The spot at which the label of a cut message begins.
pub(crate) fn cut_spot(cell: &Cell) -> Spot
    ensures { result ≡ cut_spot cell.now }
{
    Spot {
        x: u64::from(cell.column.x) + u64::from(cell.column.room.right) + 21,
        y: label_height(cell.place),
    }
}
