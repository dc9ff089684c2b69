//! The refusals, as text on standard error.
ghost use Rattle.std.specs.Prelude.{◌≡◌};
ghost use Rattle.cmd_base.specs.Refusals.{Tried};
ghost use Rattle.cmd_draw.specs.Answers.{picture_refusal_text, draw_error_exit};

use crate::error::DrawError;
use cmd_base::Answer;
use cmd_base::columns::refused;
use cmd_base::named::refused_missing;
use texts::Out;

/// Prints the line of a picture's refusal. It returns the exit status, which is 2 even if the line could not be
/// written.
pub fn refused_picture<V: Out>(error: &DrawError, err: &mut V) -> u8
    ensures status { result ≡ 2 }
    ensures line { Tried V.sink err.old err.new (picture_refusal_text error.now) }
{
    match error {
        DrawError::Columns(cause) => refused(cause, err),
        DrawError::NoSuchEvent(missing) => refused_missing(missing, err),
    }
}

impl Answer for DrawError {
    ghost exit = { draw_error_exit };

    fn status(&self) -> u8 {
        2
    }

    fn print_diagnostics<V: Out>(&self, err: &mut V) {
        let _ = refused_picture(self, err);
    }
}
