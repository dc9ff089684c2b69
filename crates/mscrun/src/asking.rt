//! What the words of a command line ask for.
ghost use Rattle.std.specs.Prelude.{◌≡◌, map};
ghost use Rattle.cli.specs.Requests.{wish};
ghost use Rattle.mscrun.specs.Asking.{Asks, IsAsked, refusal_of};

use cli::{CommandLineError, Request, requested};
use cmd_base::{ProgramError, number_in};
use cmd_run::{Task, turns_in};
use std::alloc::Global;
use std::convert::AsStr;

/// What a command line asks for.
#[derive(Clone, Copy)]
pub enum Asked {
    /// A task of the library.
    Task(Task),
    /// A run on threads.
    Threads { turns: u32 },
}

/// The refusal of a command line.
fn refusal(error: CommandLineError) -> ProgramError
    ensures { result ≡ refusal_of error }
{
    match error {
        CommandLineError::Usage => ProgramError::Usage,
        CommandLineError::Memory => ProgramError::Memory,
    }
}

/// What a request asks for, and its file. G1: the seed or the number of turns isn't valid.
fn asked_by(request: Request) -> Result<(Asked, &str), ProgramError>
    ensures { Asks (wish request.entry) result }
{
    match request {
        Request::Replay { file } => Ok((Asked::Task(Task::Replay), file)),
        Request::Check { file } => Ok((Asked::Task(Task::Check), file)),
        Request::Random { file, seed } => match number_in(seed) {
            Some(seed) => Ok((Asked::Task(Task::Random { seed }), file)),
            None => Err(ProgramError::Usage),
        },
        Request::Threads { file, turns } => match turns_in(turns) {
            Some(turns) => Ok((Asked::Threads { turns }, file)),
            None => Err(ProgramError::Usage),
        },
    }
}

/// What these words ask for, and the file.
pub fn asked_in<'a, S: AsStr>(
    alloc: Global,
    words: &'a [S],
) -> Result<(Asked, &'a str), ProgramError>
    ensures { IsAsked (map S.text words.entry.now) result }
{
    match requested(alloc, words) {
        Ok(request) => asked_by(request),
        Err(error) => Err(refusal(error)),
    }
}
