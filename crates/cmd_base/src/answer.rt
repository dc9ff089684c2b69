//! The diagnostics of a result: the exit status, and a text on standard error.
ghost use Rattle.std.specs.Prelude.{◌≡◌, None};
ghost use Rattle.cmd_base.specs.Answers.{Exit, program_exit, exit_of, Prints};
ghost use Rattle.cmd_base.specs.Refusals.{Tried};
ghost use Rattle.texts.specs.Writing.{Wrote};

use crate::error::ProgramError;
use crate::refusal::refused;
use texts::{Out, TextBuffer, WriteError};

/// A result, or a refusal, that a program reports by its exit status and on standard error.
pub trait Answer {
    /// The exit status, and the text for standard error.
    ghost exit: { Self → Exit };

    /// The exit status: 0, or 1 if the answer is yes, or 3 if the answer isn't known. It is 2 after a refusal.
    fn status(&self) -> u8
        ensures { result ≡ (exit self.now).status };

    /// Writes the text to standard error, or a beginning of it if a write fails. Without a text it does nothing.
    fn print_diagnostics<V: Out>(&self, err: &mut V)
        ensures { Prints V.sink err.old err.new (exit self.now).diagnostics };
}

#[tactic(auto, using(texts::proofs::Writes::joining))]
fn write_diagnostics<V: Out>(diagnostics: &[u8], err: &mut V) -> Result<(), WriteError>
    ensures { Wrote V.sink err.old err.new result diagnostics.now }
{
    let mut text = TextBuffer::new(err);
    text.add(diagnostics)?;
    text.finish()
}

/// Writes the text, or a beginning of it if a write fails.
pub fn print_diagnostics<V: Out>(diagnostics: &[u8], err: &mut V)
    ensures { Tried V.sink err.old err.new diagnostics.now }
{
    let _ = write_diagnostics(diagnostics, err);
}

/// No text: status 0.
impl Answer for () {
    ghost exit = { λ _. record { status = 0; diagnostics = None } };

    fn status(&self) -> u8 {
        0
    }

    fn print_diagnostics<V: Out>(&self, _err: &mut V) {}
}

/// A refusal's line, with status 2.
impl Answer for ProgramError {
    ghost exit = { program_exit };

    fn status(&self) -> u8 {
        2
    }

    fn print_diagnostics<V: Out>(&self, err: &mut V) {
        let _ = refused(self, err);
    }
}

impl<T: Answer, E: Answer> Answer for Result<T, E> {
    ghost exit = { exit_of T.exit E.exit };

    fn status(&self) -> u8 {
        match self {
            Ok(done) => done.status(),
            Err(error) => error.status(),
        }
    }

    fn print_diagnostics<V: Out>(&self, err: &mut V) {
        match self {
            Ok(done) => done.print_diagnostics(err),
            Err(error) => error.print_diagnostics(err),
        }
    }
}

/// Prints the text of the result, and returns the exit status. A failed write to `err` changes nothing.
pub fn answered<A: Answer, V: Out>(answer: &A, err: &mut V) -> u8
    ensures status { result ≡ (A.exit answer.now).status }
    ensures diagnostics { Prints V.sink err.old err.new (A.exit answer.now).diagnostics }
{
    answer.print_diagnostics(err);
    answer.status()
}
