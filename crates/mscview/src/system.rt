//! The words of the command line, and the files and the standard input of the system.
ghost use Rattle.std.specs.Prelude.{◌≡◌, ◌≢◌};
ghost use Rattle.std.specs.IoError.{error_kind};
ghost use Rattle.std.specs.declared.io.ErrorKind.TheVariants.{OutOfMemory};
ghost use Rattle.cmd_base.specs.declared.error.ProgramError.TheVariants.{Memory};

use cmd_base::ProgramError;
use mscview_requests::{FileBytes, Giver};
use std::alloc::{AllocError, Global};
use std::io::Read;
use std::rt::{Env, Files};
use std::{env, fs, io};

/// The refusal for an error of the system: F6 if memory ran out, and otherwise `other`.
fn cause(error: &io::Error, other: ProgramError) -> ProgramError
    ensures memory { error_kind error.now ≡ OutOfMemory → result ≡ Memory }
    ensures other { error_kind error.now ≢ OutOfMemory → result ≡ other }
{
    match error.kind() {
        io::ErrorKind::OutOfMemory => ProgramError::Memory,
        _ => other,
    }
}

/// The words of the command line.
pub fn words_of<R: Env + AllocGlobal>(rt: &R) -> Result<Vec<String>, ProgramError> {
    let words = env::args(rt).map_err(|error| cause(&error, ProgramError::Usage))?;
    words
        .collect(rt.alloc())
        .map_err(|_: AllocError| ProgramError::Memory)
}

/// Provides the bytes of the system's files.
pub struct System<'a, R> {
    pub rt: &'a R,
}

impl<R> Drop for System<'_, R> {
    fn drop(self) {
        let System { rt: _ } = self;
    }
}

/// The bytes of a file.
fn bytes_of<R: Files + AllocGlobal>(rt: &R, file: &str) -> Result<Vec<u8>, ProgramError> {
    fs::read(rt, file).map_err(|error| cause(&error, ProgramError::File))
}

/// The bytes of standard input, to its end.
fn bytes_of_input<R: Input + AllocGlobal>(rt: &R) -> Result<Vec<u8>, ProgramError> {
    let mut bytes = Vec::new(rt.alloc());
    match rt.reader().read_to_end(&mut bytes) {
        Ok(_) => Ok(bytes),
        Err(error) => Err(cause(&error, ProgramError::File)),
    }
}

/// The bytes of a file, or of standard input without a file. No contract states what they are.
impl<R: Files + Input + AllocGlobal> Giver for System<'_, R> {
    ghost use Rattle.std.specs.Prelude.{ℕ};

    ghost gives = { λ system place file answer. Unit {0} };

    fn bytes_in(
        &self,
        _alloc: Global,
        _place: usize,
        file: Option<&str>,
    ) -> Result<FileBytes<'_>, ProgramError> {
        let bytes = match file {
            None => bytes_of_input(self.rt)?,
            Some(file) => bytes_of(self.rt, file)?,
        };
        Ok(FileBytes::Read(bytes))
    }
}
