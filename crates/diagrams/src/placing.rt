//! Misplaced items: no chart is possible with them.
ghost use Rattle.std.specs.Prelude.{◌≡◌, map};
ghost use Rattle.diagrams.specs.Diagrams.{arrow_view, item_view};
ghost use Rattle.diagrams.specs.Placing.{row_of, place_of, is_arrow, is_placed, may_stand, first_misplaced};

use crate::diagram::{Arrow, Item};

/// The row in which an item begins.
#[tactic(auto, unfolding(crate::specs::Placing::row_of))]
fn row_of(item: &Item) -> u64
    ensures { result ≡ row_of (item_view item.now) }
{
    match item {
        Item::Arrow(arrow) => arrow.begins,
        Item::Note(note) => note.row,
    }
}

/// The line of an item in the text.
#[tactic(auto, unfolding(crate::specs::Placing::place_of))]
fn line_of(item: &Item) -> u64
    ensures { result ≡ place_of (item_view item.now) }
{
    match item {
        Item::Arrow(arrow) => arrow.place.line,
        Item::Note(note) => note.place.line,
    }
}

/// Whether an arrow goes from one of `count` participants to another one, and not upwards.
fn is_arrow(count: usize, arrow: &Arrow) -> bool
    ensures { result ≡ is_arrow count (arrow_view arrow.now) }
{
    arrow.sender < count
        && (arrow.receiver < count
            && (!(arrow.sender == arrow.receiver) && !(arrow.ends < arrow.begins)))
}

/// Whether an item may be in a diagram of `count` participants.
#[tactic(auto, unfolding(crate::specs::Placing::is_placed))]
fn is_placed(count: usize, item: &Item) -> bool
    ensures { result ≡ is_placed count (item_view item.now) }
{
    match item {
        Item::Arrow(arrow) => is_arrow(count, arrow),
        Item::Note(note) => note.participant < count,
    }
}

/// Whether an item may come after an item of this row.
#[tactic(auto, unfolding(crate::specs::Placing::may_stand))]
fn may_stand(count: usize, row: u64, item: &Item) -> bool
    ensures { result ≡ may_stand count row (item_view item.now) }
{
    !(row_of(item) < row) && is_placed(count, item)
}

/// The line of the first misplaced item, in a diagram of `count` participants.
pub(crate) fn first_misplaced(count: usize, items: &[Item]) -> Option<u64>
    ensures { result ≡ first_misplaced count 0 (map item_view items.now) }
{
    let mut row = 0;
    for item in items {
        if !may_stand(count, row, item) {
            return Some(line_of(item));
        }
        row = row_of(item);
    }
    None
}
