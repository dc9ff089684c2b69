//! Refusals, as text on standard error.
ghost use Rattle.std.specs.Prelude.{◌≡◌};
ghost use Rattle.cmd_base.specs.Refusals.{Tried};
ghost use Rattle.cmd_base.specs.Pairs.Answers.{error_exit, refusal_text};

use crate::named::refused_missing;
use crate::pairs::error::PairError;
use crate::{Answer, refused_by};
use texts::Out;

/// Prints the line of a refusal. Returns the exit status, which is 2 even if the line could not be written.
pub fn refused<V: Out>(error: &PairError, err: &mut V) -> u8
    ensures status { result ≡ 2 }
    ensures line { Tried V.sink err.old err.new (refusal_text error.now) }
{
    match error {
        PairError::Program(cause) => crate::refused(cause, err),
        PairError::NoSuchEvent(missing) => refused_missing(missing, err),
        PairError::NotEarlier => refused_by(b"F32 NotAPair", None, err),
        PairError::NotAReceive(receive) => refused_by(b"F32 NotAPair", Some(*receive), err),
        PairError::ManySlots(slots) => refused_by(b"F33 ManySlots", Some(*slots), err),
    }
}

impl Answer for PairError {
    ghost exit = { error_exit };

    fn status(&self) -> u8 {
        2
    }

    fn print_diagnostics<V: Out>(&self, err: &mut V) {
        let _ = refused(self, err);
    }
}
