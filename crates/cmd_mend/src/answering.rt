//! The text on standard error, and the exit status.
ghost use Rattle.std.specs.Prelude.{◌≡◌};
ghost use Rattle.texts.specs.Writing.{Wrote, Adds};
ghost use Rattle.cmd_base.specs.Refusals.{Tried};
ghost use Rattle.cmd_mend.specs.Answers.{code_of, full_text, outcome_exit, refusal_text, refusal_exit};

use crate::error::MendRefusal;
use crate::word::{Word, add_word};
use chart::Name;
use cmd_base::{Answer, print_diagnostics};
use texts::{Out, TextBuffer, WriteError};

/// Whether what was asked for could be done.
#[derive(Clone, Copy, Debug, PartialEq, Eq)]
pub(crate) enum Status {
    /// It was, or needn't be.
    Done,
    /// It can't, or not all of it.
    Undone,
}

/// The outcome, and its report.
#[derive(Debug, Drop)]
pub(crate) struct Outcome {
    pub status: Status,
    pub diagnostics: Vec<u8>,
}

impl Status {
    /// The exit status.
    fn code(self) -> u8
        ensures { result ≡ code_of self }
    {
        match self {
            Status::Done => 0,
            Status::Undone => 1,
        }
    }
}

impl Answer for Outcome {
    ghost exit = { outcome_exit };

    fn status(&self) -> u8 {
        self.status.code()
    }

    fn print_diagnostics<V: Out>(&self, err: &mut V) {
        print_diagnostics(self.diagnostics.as_slice(), err)
    }
}

#[tactic(auto, using(texts::proofs::Writes::joining), unfolding(crate::specs::Answers::full_text))]
fn add_full<V: Out>(text: &mut TextBuffer<'_, V>, name: &Name) -> Result<(), WriteError>
    ensures { Adds V.sink text.old text.new result (full_text name.now) }
{
    add_word(text, Word::LineFull)?;
    text.add(name.as_bytes())?;
    add_word(text, Word::End)
}

#[tactic(auto, using(texts::proofs::Writes::joining))]
fn write_full<V: Out>(name: &Name, err: &mut V) -> Result<(), WriteError>
    ensures { Wrote V.sink err.old err.new result (full_text name.now) }
{
    let mut text = TextBuffer::new(err);
    add_full(&mut text, name)?;
    text.finish()
}

/// Writes the line of a refusal, or a beginning of it where that fails.
fn print_refusal<V: Out>(error: &MendRefusal, err: &mut V)
    ensures { Tried V.sink err.old err.new (refusal_text error.now) }
{
    match error {
        MendRefusal::View(cause) => {
            let _ = cmd_base::pairs::refused(cause, err);
        }
        MendRefusal::LineFull(name) => {
            let _ = write_full(name, err);
        }
    }
}

impl Answer for MendRefusal {
    ghost exit = { refusal_exit };

    fn status(&self) -> u8 {
        2
    }

    fn print_diagnostics<V: Out>(&self, err: &mut V) {
        print_refusal(self, err)
    }
}
