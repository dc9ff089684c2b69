//! Refusals, as text on standard error.
ghost use Rattle.std.specs.Prelude.{◌≡◌};
ghost use Rattle.cmd_base.specs.Refusals.{Tried};
ghost use Rattle.cmd_base.specs.Columns.Answers.{refusal_text, error_exit};

use crate::columns::error::ColumnError;
use crate::{Answer, refused_by};
use texts::Out;

/// Prints the line of a refusal. Returns the exit status, which is 2 even if the line could not be written.
pub fn refused<V: Out>(error: &ColumnError, err: &mut V) -> u8
    ensures status { result ≡ 2 }
    ensures line { Tried V.sink err.old err.new (refusal_text error.now) }
{
    match error {
        ColumnError::Program(cause) => crate::refused(cause, err),
        ColumnError::NoSuchName => refused_by(b"F34 NoSuchName", None, err),
    }
}

impl Answer for ColumnError {
    ghost exit = { error_exit };

    fn status(&self) -> u8 {
        2
    }

    fn print_diagnostics<V: Out>(&self, err: &mut V) {
        let _ = refused(self, err);
    }
}
