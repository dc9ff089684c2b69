//! The diagnostics of a comparison: the exit status, and a refusal's line.
ghost use Rattle.cmd_compare.specs.Answers.{error_exit, found_exit};

use crate::error::CompareError;
use crate::showing::Found;
use cmd_base::named::refused_at;
use cmd_base::{Answer, refused};
use texts::Out;

impl Answer for CompareError {
    ghost exit = { error_exit };

    fn status(&self) -> u8 {
        2
    }

    fn print_diagnostics<V: Out>(&self, err: &mut V) {
        match self {
            CompareError::Program(cause) => {
                let _ = refused(cause, err);
            }
            CompareError::OtherInstances(name) => {
                let _ = refused_at(b"F40 OtherInstances", name, None, err);
            }
        }
    }
}

impl Answer for Found {
    ghost exit = { found_exit };

    fn status(&self) -> u8 {
        match self {
            Found::Same => 0,
            Found::Reordered => 1,
        }
    }

    fn print_diagnostics<V: Out>(&self, _err: &mut V) {}
}
