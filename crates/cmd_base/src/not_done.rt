//! The line about a schedule's commands that did nothing. The chart lacks them, so races with them are not shown.
ghost use Rattle.std.specs.Prelude.{◌≡◌, ◌<◌};
ghost use Rattle.cmd_base.specs.Answers.{Prints};
ghost use Rattle.cmd_base.specs.NotDone.{first_of, one_text, several_text, not_done_text, not_done_exit, not_done_diagnostic};
ghost use Rattle.cmd_base.specs.Refusals.{Tried};
ghost use Rattle.texts.specs.Writing.{Wrote, Adds};

use crate::answer::Answer;
use schedule::Note;
use texts::pieces::{Piece, add_pieces};
use texts::{Out, TextBuffer, WriteError};

/// The commands of a schedule that did nothing, at least one: how many there are, and the line of the first, from 1.
#[derive(Clone, Copy, Debug, PartialEq, Eq)]
pub struct NotDone {
    pub count: u64,
    pub line: u64,
}

impl NotDone {
    /// The commands to which these notes of a schedule's outcome belong. Without notes there is no value.
    pub fn of(notes: &[Note]) -> Option<NotDone>
        ensures { result ≡ first_of notes.now }
    {
        let first = notes.first()?;
        Some(NotDone {
            count: notes.len() as u64,
            line: first.line,
        })
    }

    /// Adds the line about them. F24: a put failed.
    pub fn add_to<V: Out>(&self, text: &mut TextBuffer<'_, V>) -> Result<(), WriteError>
        ensures { Adds V.sink text.old text.new result (not_done_text self.now) }
    {
        if self.count == 1 {
            add_one(text, self.line)
        } else {
            add_several(text, self.count, self.line)
        }
    }
}

/// Adds that one command did nothing.
#[tactic(auto, unfolding(crate::specs::NotDone::one_text))]
fn add_one<V: Out>(text: &mut TextBuffer<'_, V>, line: u64) -> Result<(), WriteError>
    ensures { Adds V.sink text.old text.new result (one_text line) }
{
    add_pieces(
        text,
        &[
            Piece::Bytes(b"1 command of the schedule did nothing, in line "),
            Piece::Number(line),
            Piece::Bytes(b": the chart lacks it\n"),
        ],
    )
}

/// Adds that several commands did nothing.
#[tactic(auto, unfolding(crate::specs::NotDone::several_text))]
fn add_several<V: Out>(
    text: &mut TextBuffer<'_, V>,
    count: u64,
    line: u64,
) -> Result<(), WriteError>
    ensures { Adds V.sink text.old text.new result (several_text count line) }
{
    add_pieces(
        text,
        &[
            Piece::Number(count),
            Piece::Bytes(b" commands of the schedule did nothing, the first in line "),
            Piece::Number(line),
            Piece::Bytes(b": the chart lacks them\n"),
        ],
    )
}

#[tactic(auto, using(texts::proofs::Writes::joining))]
fn write_not_done<V: Out>(not_done: &NotDone, err: &mut V) -> Result<(), WriteError>
    ensures { Wrote V.sink err.old err.new result (not_done_text not_done.now) }
{
    let mut text = TextBuffer::new(err);
    not_done.add_to(&mut text)?;
    text.finish()
}

/// Writes the line about a schedule's commands that did nothing, or a beginning of it if a write fails. Without such
/// commands it writes nothing.
pub fn print_not_done<V: Out>(not_done: &Option<NotDone>, err: &mut V)
    ensures { Prints V.sink err.old err.new (not_done_diagnostic not_done.now) }
{
    if let Some(not_done) = not_done {
        let _ = write_not_done(not_done, err);
    }
}

/// A chart was written, perhaps that of a schedule. The status is 0, and the text is the line about the commands that
/// did nothing.
impl Answer for Option<NotDone> {
    ghost exit = { not_done_exit };

    fn status(&self) -> u8 {
        0
    }

    fn print_diagnostics<V: Out>(&self, err: &mut V) {
        print_not_done(self, err);
    }
}
