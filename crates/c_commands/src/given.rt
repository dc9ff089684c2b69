//! Texts in memory that stand for files.
ghost use Rattle.std.specs.Prelude.{◌≡◌, slice_get};
ghost use Rattle.c_commands.specs.Texts.{given_at};

use cmd_base::ProgramError;
use mscview_requests::{FileBytes, Giver};
use std::alloc::Global;

/// The bytes of a word or of a file, in the memory of another language: their address and their number.
#[repr(C)]
#[derive(Clone, Copy)]
pub struct Bytes<'a> {
    pub bytes: &'a [u8],
}

/// Texts as the files of a command line: the first file that it reads is the first text, and so on. The names of the
/// files don't matter, nor whether one is standard input. The texts are lent, and not copied.
#[derive(Clone, Copy)]
pub struct Texts<'a> {
    pub texts: &'a [Bytes<'a>],
}

/// If there is no text, the file can't be read (G2).
impl Giver for Texts<'_> {
    ghost use Rattle.std.specs.Prelude.{◌≡◌, slice_get};
    ghost use Rattle.c_commands.specs.Texts.{given_at};

    ghost gives = { λ it place file answer. answer ≡ given_at (slice_get it.texts.now place) };

    fn bytes_in(
        &self,
        _alloc: Global,
        place: usize,
        _file: Option<&str>,
    ) -> Result<FileBytes<'_>, ProgramError> {
        match self.texts.get(place) {
            Some(text) => Ok(FileBytes::Lent(text.bytes)),
            None => Err(ProgramError::File),
        }
    }
}
