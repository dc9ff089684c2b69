//! The earlier events that a receive may come before, in words: `3 earlier events: 2, 4 to 5`.
ghost use Rattle.std.specs.Prelude.{◌≡◌, All};
ghost use Rattle.std.specs.List.{flat_map};
ghost use Rattle.chart.specs.Ranges.{IsRange};
ghost use Rattle.texts.specs.Writing.{Adds};
ghost use Rattle.texts.specs.Pieces.RaceWords.{kind, amount, up_to, range_text, comma, next_range, ranges_text};

use crate::pieces::pieces::{Piece, add_pieces};
use crate::{Out, TextBuffer, WriteError};
use chart::EventRange;

/// The words after the number of events.
#[tactic(auto, unfolding(crate::specs::Pieces::RaceWords::kind))]
fn kind(events: usize) -> &'static [u8]
    ensures { result.now ≡ kind events }
{
    if events == 1 {
        b" earlier event: "
    } else {
        b" earlier events: "
    }
}

/// Adds the number of earlier events, in words. F24: a put failed.
#[tactic(auto, using(crate::proofs::Writes::joining), unfolding(crate::specs::Pieces::RaceWords::amount))]
pub fn add_amount<W: Out>(text: &mut TextBuffer<'_, W>, events: usize) -> Result<(), WriteError>
    ensures { Adds W.sink text.old text.new result (amount events) }
{
    text.add_number(events as u64)?;
    text.add(kind(events))
}

/// Adds the numbers of the first and the last event of a range.
#[tactic(auto, unfolding(crate::specs::Pieces::RaceWords::up_to))]
fn add_up_to<W: Out>(text: &mut TextBuffer<'_, W>, first: u64, last: u64) -> Result<(), WriteError>
    ensures { Adds W.sink text.old text.new result (up_to first last) }
{
    add_pieces(
        text,
        &[
            Piece::Number(first),
            Piece::Bytes(b" to "),
            Piece::Number(last),
        ],
    )
}

/// Adds the numbers of the events of a range. F24: a put failed.
#[tactic(auto, unfolding(crate::specs::Pieces::RaceWords::range_text))]
pub fn add_range<W: Out>(text: &mut TextBuffer<'_, W>, range: &EventRange) -> Result<(), WriteError>
    requires { IsRange range.now }
    ensures { Adds W.sink text.old text.new result (range_text range.now) }
{
    let last = range.event(range.count - 1);
    if range.count == 1 {
        text.add_number(u64::from(range.first.index))
    } else {
        add_up_to(text, u64::from(range.first.index), u64::from(last.index))
    }
}

#[tactic(auto, unfolding(crate::specs::Pieces::RaceWords::comma))]
fn add_comma<W: Out>(text: &mut TextBuffer<'_, W>) -> Result<(), WriteError>
    ensures { Adds W.sink text.old text.new result comma }
{
    text.add(b", ")
}

/// The same, after the numbers of another range.
#[tactic(auto, using(crate::proofs::Writes::joining), unfolding(crate::specs::Pieces::RaceWords::next_range))]
fn add_next_range<W: Out>(
    text: &mut TextBuffer<'_, W>,
    range: &EventRange,
) -> Result<(), WriteError>
    requires { IsRange range.now }
    ensures { Adds W.sink text.old text.new result (next_range range.now) }
{
    add_comma(text)?;
    add_range(text, range)
}

fn add_next_ranges<W: Out>(
    text: &mut TextBuffer<'_, W>,
    ranges: &[EventRange],
) -> Result<(), WriteError>
    requires { All IsRange ranges.now }
    ensures { Adds W.sink text.old text.new result (flat_map next_range ranges.now) }
{
    for range in ranges {
        add_next_range(text, range)?;
    }
    Ok(())
}

/// Adds the numbers of the events of ranges, joined by commas. F24: a put failed.
#[tactic(auto, using(crate::proofs::Writes::joining))]
pub fn add_ranges<W: Out>(
    text: &mut TextBuffer<'_, W>,
    ranges: &[EventRange],
) -> Result<(), WriteError>
    requires { All IsRange ranges.now }
    ensures { Adds W.sink text.old text.new result (ranges_text ranges.now) }
{
    match ranges {
        [] => text.add(b""),
        [first, others @ ..] => {
            add_range(text, first)?;
            add_next_ranges(text, others)
        }
    }
}
