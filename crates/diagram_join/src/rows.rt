//! Rows that are cut, so that the receives in one of them are together.
ghost use Rattle.std.specs.Prelude.{◌≡◌, ◌+◌, ◌*◌, length, List, IfOk};
ghost use Rattle.diagrams.specs.declared.message.Message.{Message};
ghost use Rattle.diagram_join.specs.Coregions.{cut, cut_from};
ghost use Rattle.diagram_join.specs.Tables.{AreCoregions};

use crate::coregions::Coregions;
use diagrams::Message;
use std::alloc::{AllocError, Global};

/// The row at a place of those into which a row is cut. F6 if its number doesn't fit.
fn row_at(row: u64, count: u64, place: u64) -> Result<u64, AllocError>
    ensures { IfOk result (λ r. r ≡ row * count + place) }
{
    let Some(first) = row.checked_mul(count) else {
        return Err(AllocError);
    };
    let Some(at) = first.checked_add(place) else {
        return Err(AllocError);
    };
    Ok(at)
}

/// The message at a place, in the cut rows.
fn cut(
    coregions: &Coregions,
    count: usize,
    place: usize,
    message: &Message,
) -> Result<Message, AllocError>
    ensures { (messages : List Message) → AreCoregions coregions.now.coregions.entries 0 messages → count ≡ length messages
        → IfOk result (λ m. m ≡ cut messages place message.now) }
{
    let place = coregions.place_in(count, place, message);
    let mut cut = *message;
    cut.begins = row_at(message.begins, count as u64, 0)?;
    cut.ends = row_at(message.ends, count as u64, place as u64)?;
    Ok(cut)
}

/// The messages in the cut rows.
pub(crate) fn cut_rows(alloc: Global, messages: &[Message]) -> Result<Vec<Message>, AllocError>
    ensures { IfOk result (λ rows. rows.items ≡ cut_from messages.now 0 messages.now) }
{
    let coregions = Coregions::new_of(alloc, messages)?;
    let mut rows = Vec::new(alloc);
    for (place, message) in messages.iter().enumerate() {
        rows.push(cut(&coregions, messages.len(), place, message)?)?;
    }
    Ok(rows)
}
