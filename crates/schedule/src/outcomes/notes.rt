//! The notes of a replay.
ghost use Rattle.std.specs.Prelude.{OnOk};
ghost use Rattle.schedule.specs.Outcomes.Outcomes.{AreByLine};

use crate::Note;
use std::alloc::AllocError;

/// Sorts the notes by line, and keeps those of one line in the order in which they came. It fails only if there is no
/// memory.
pub fn put_by_line(notes: &mut Vec<Note>) -> Result<(), AllocError>
    ensures { OnOk result (AreByLine notes.old.items notes.new.items) }
{
    notes.sort_by_key(|note| note.line)?;
    Ok(())
}
