//! The places of remarks among the messages of a picture.
ghost use Rattle.std.specs.Prelude.{◌≡◌, suc, map, fold, IfOk, OnOk};
ghost use Rattle.chart_layout.specs.Margin.Notes.{note_view};
ghost use Rattle.diagram_import.specs.Margin.Order.{thing_view};
ghost use Rattle.diagram_import.specs.Margin.Placing.{flushed, with_words, placed_view, with_message, with_thing, nothing, ended, placed};
ghost use Rattle.diagram_import.specs.Margin.Remarks.{remark_view};

use crate::margin::order::{Thing, things_of};
use crate::margin::remark::Remark;
use chart_layout::margin::MarginNote;
use diagrams::Message;
use std::alloc::{AllocError, Global};

/// The margin beside the rows so far.
#[derive(Drop)]
pub(crate) struct Margin {
    pub notes: Vec<MarginNote>,
    /// The number of messages above.
    pub above: usize,
    /// The words above the next message.
    pub words: Vec<u8>,
    /// Whether these words divide the rows.
    pub divides: bool,
}

/// Adds words after those of the same place.
fn add_words(words: &mut Vec<u8>, more: &[u8]) -> Result<(), AllocError>
    ensures { OnOk result (words.new.items ≡ with_words words.old.items more.now) }
{
    if !words.is_empty() {
        words.extend_from_slice(b" / ")?;
    }
    words.extend_from_slice(more)?;
    Ok(())
}

/// The number of messages with one more. F6 if it doesn't fit.
fn next(above: usize) -> Result<usize, AllocError>
    ensures { IfOk result (λ next. next ≡ suc above) }
{
    match above.checked_add(1) {
        Some(next) => Ok(next),
        None => Err(AllocError),
    }
}

/// Adds the words above the next message as a note, if there are any.
fn flush(alloc: Global, placed: &mut Margin) -> Result<(), AllocError>
    ensures { OnOk result (placed_view placed.new ≡ ended (placed_view placed.old)) }
{
    if placed.words.is_empty() {
        return Ok(());
    }
    let text = Vec::from_slice(alloc, placed.words.as_slice())?;
    placed.notes.push(MarginNote {
        above: placed.above,
        text,
        divides: placed.divides,
    })?;
    Ok(())
}

/// Adds one more message.
fn add_message(alloc: Global, placed: &mut Margin) -> Result<(), AllocError>
    ensures { OnOk result (placed_view placed.new ≡ with_message (placed_view placed.old)) }
{
    flush(alloc, placed)?;
    placed.above = next(placed.above)?;
    placed.words.clear();
    placed.divides = false;
    Ok(())
}

/// Adds a remark or a message.
fn add_thing(alloc: Global, placed: &mut Margin, thing: &Thing<'_>) -> Result<(), AllocError>
    ensures { OnOk result (placed_view placed.new ≡ with_thing (placed_view placed.old) (thing_view thing.now)) }
{
    match thing.words {
        Some(more) => {
            add_words(&mut placed.words, more)?;
            placed.divides = placed.divides || thing.divides;
            Ok(())
        }
        None => add_message(alloc, placed),
    }
}

/// The margin of these remarks and messages.
fn placed_things(alloc: Global, things: &[Thing<'_>]) -> Result<Margin, AllocError>
    ensures { IfOk result (λ p. placed_view p ≡ fold with_thing nothing (map thing_view things.now)) }
{
    let mut placed = Margin {
        notes: Vec::new(alloc),
        above: 0,
        words: Vec::new(alloc),
        divides: false,
    };
    for thing in things {
        add_thing(alloc, &mut placed, thing)?;
    }
    Ok(placed)
}

/// The places of these remarks among the messages. Those between two messages have one place.
#[tactic(auto, unfolding(crate::specs::Margin::Placing::placed))]
pub(crate) fn placed(
    alloc: Global,
    remarks: &[Remark],
    messages: &[Message],
) -> Result<Vec<MarginNote>, AllocError>
    ensures { IfOk result (λ notes. map note_view notes.items ≡ placed (map remark_view remarks.now) messages.now) }
{
    let things = things_of(alloc, remarks, messages)?;
    let mut placed = placed_things(alloc, &things)?;
    flush(alloc, &mut placed)?;
    Ok(placed.notes)
}
