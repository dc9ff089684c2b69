//! The words of the command line, and the files of the system.
ghost use Rattle.std.specs.Prelude.{◌≡◌, ◌≢◌, ℕ};
ghost use Rattle.std.specs.IoError.{error_kind};
ghost use Rattle.std.specs.declared.io.ErrorKind.TheVariants.{OutOfMemory};
ghost use Rattle.cmd_base.specs.declared.error.ProgramError.TheVariants.{Memory};

use crate::running::Giver;
use cmd_base::ProgramError;
use std::alloc::AllocError;
use std::rt::{Env, Files};
use std::{env, fs, io};

/// The refusal for an error of the system: F6 if memory ran out, and otherwise `other`.
fn cause(error: &io::Error, other: ProgramError) -> ProgramError
    ensures memory { error_kind error.now ≡ OutOfMemory → result ≡ Memory }
    ensures other { error_kind error.now ≢ OutOfMemory → result ≡ other }
{
    match error.kind() {
        io::ErrorKind::OutOfMemory => ProgramError::Memory,
        _ => other,
    }
}

/// The words of the command line. G1: one of them isn't text.
pub fn words_of<R: Env + AllocGlobal>(rt: &R) -> Result<Vec<String>, ProgramError> {
    let words = env::args(rt).map_err(|error| cause(&error, ProgramError::Usage))?;
    words
        .collect(rt.alloc())
        .map_err(|_: AllocError| ProgramError::Memory)
}

/// Provides the bytes of the system's files.
pub struct System<'a, R> {
    pub rt: &'a R,
}

impl<R> Drop for System<'_, R> {
    fn drop(self) {
        let System { rt: _ } = self;
    }
}

/// The bytes of a file. No contract states what they are.
impl<R: Files + AllocGlobal> Giver for System<'_, R> {
    ghost gives = { λ system file answer. Unit {0} };

    fn bytes_of(&self, file: &str) -> Result<Vec<u8>, ProgramError> {
        fs::read(self.rt, file).map_err(|error| cause(&error, ProgramError::File))
    }
}
