//! The providers of the bytes of files.
ghost use Rattle.std.specs.Prelude.{◌≡◌, ℕ, List, Option, Result, option_map};
ghost use Rattle.cmd_base.specs.declared.error.ProgramError.{ProgramError};
ghost use Rattle.mscview_requests.specs.Given.{named_so, file_named, given_in};

use crate::file_bytes::FileBytes;
use cmd_base::ProgramError;
use std::alloc::Global;

/// Provides the bytes of the files that a command line names. It is the system, or a program that has the files in
/// memory.
pub trait Giver {
    /// The results that may be returned for a file. The file has this index among those of the command line, from 0,
    /// and this name. Without a name it is standard input.
    ghost gives: { Self → ℕ → Option (List ℕ) → Result (List ℕ) ProgramError → Type 0 };

    /// The bytes of the file with this index among those of the command line, from 0, and this name. Without a name it
    /// is standard input.
    fn bytes_in(
        &self,
        alloc: Global,
        place: usize,
        file: Option<&str>,
    ) -> Result<FileBytes<'_>, ProgramError>
        ensures { gives self.now place (option_map (λ w. w.now) file.entry) (given_in result) };
}

/// The name of the file that a word names. `-` names standard input, which has no name.
fn named_so(word: &str) -> Option<&str>
    ensures { option_map (λ w. w.now) result ≡ named_so word.now }
{
    if word == "-" { None } else { Some(word) }
}

/// The same for a word that may be missing. Without a word, standard input is read.
fn file_named(word: Option<&str>) -> Option<&str>
    ensures { option_map (λ w. w.now) result ≡ file_named (option_map (λ w. w.now) word.entry) }
{
    match word {
        None => None,
        Some(word) => named_so(word),
    }
}

/// The bytes of the first file of a command line. Without a word, or if it is `-`, these are the bytes of standard
/// input.
pub(crate) fn first_in<'a, G: Giver>(
    alloc: Global,
    giver: &'a G,
    word: Option<&str>,
) -> Result<FileBytes<'a>, ProgramError>
    ensures { G.gives giver.now 0 (file_named (option_map (λ w. w.now) word.entry)) (given_in result) }
{
    giver.bytes_in(alloc, 0, file_named(word))
}
