//! Does what the words of a command line ask for.
ghost use Rattle.std.specs.Prelude.{◌≡◌, ℕ, List, Result, map};
ghost use Rattle.cmd_base.specs.declared.error.ProgramError.{ProgramError};
ghost use Rattle.mscrun.specs.Running.{Does, Performs, Runs, given_in};

use crate::asking::{Asked, asked_in};
use cmd_base::{ProgramError, refused};
use cmd_run::{perform, perform_on_threads};
use std::alloc::Global;
use std::convert::AsStr;
use std::thread::Threads;
use texts::Out;

/// Provides the bytes of files by their names.
pub trait Giver {
    /// The results that may be returned for the file of a name.
    ghost gives: { Self → List ℕ → Result (List ℕ) ProgramError → Type 0 };

    /// The bytes of the file, or F6 or G2.
    fn bytes_of(&self, file: &str) -> Result<Vec<u8>, ProgramError>
        ensures { gives self.now file.now (given_in result) };
}

/// Does what is asked for with the bytes of the file.
fn perform_asked<R: Threads + Sync, W: Out, V: Out>(
    rt: &R,
    alloc: Global,
    asked: &Asked,
    bytes: &[u8],
    out: &mut W,
    err: &mut V,
) -> u8
    ensures { Performs W.sink out.old out.new V.sink err.old err.new result asked.now bytes.now }
{
    match asked {
        Asked::Task(task) => perform(alloc, task, bytes, out, err),
        Asked::Threads { turns } => perform_on_threads(rt, alloc, *turns, bytes, out, err),
    }
}

/// Reads the file, and does what is asked for with its bytes.
fn run_asked<R: Threads + Sync, G: Giver, W: Out, V: Out>(
    rt: &R,
    alloc: Global,
    asked: &Asked,
    file: &str,
    giver: &G,
    out: &mut W,
    err: &mut V,
) -> u8
    ensures { Does W.sink out.old out.new V.sink err.old err.new result (G.gives giver.now) asked.now file.now }
{
    match giver.bytes_of(file) {
        Ok(bytes) => perform_asked(rt, alloc, asked, bytes.as_slice(), out, err),
        Err(error) => refused(&error, err),
    }
}

/// Reads the words and the file that they name, and does what they ask for. The first word is the program's name.
/// Returns the exit status: that of the task, or 2 if the words or the file are refused. Such a refusal writes nothing
/// to `out`, and its line to `err`. A failed write to `err` changes nothing.
///
/// G1: the words ask for nothing.
pub fn run<R: Threads + Sync, S: AsStr, G: Giver, W: Out, V: Out>(
    rt: &R,
    alloc: Global,
    words: &[S],
    giver: &G,
    out: &mut W,
    err: &mut V,
) -> u8
    ensures { Runs W.sink out.old out.new V.sink err.old err.new result (G.gives giver.now)
        (map S.text words.now) }
{
    match asked_in(alloc, words) {
        Ok((asked, file)) => run_asked(rt, alloc, &asked, file, giver, out, err),
        Err(error) => refused(&error, err),
    }
}
