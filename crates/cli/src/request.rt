//! The request of a command line.
ghost use Rattle.std.specs.Prelude.{◌≡◌, map, option_and_then, option_map};
ghost use Rattle.clap.specs.Words.{first_of, found_of, rows_of, subcommand_rows_of};
ghost use Rattle.cli.specs.Requests.{IsRequested, wish, wish_by, wish_for};

use crate::error::CommandLineError;
use crate::words::{Row, Word, matches_in};
use clap::ArgMatches;
use std::alloc::Global;
use std::convert::AsStr;

/// The request of a command line.
#[derive(Clone, Copy, Debug, PartialEq, Eq)]
pub enum Request<'a> {
    /// `replay FILE`.
    Replay { file: &'a str },
    /// `random FILE --seed N`. The seed is still a word.
    Random { file: &'a str, seed: &'a str },
    /// `check FILE`.
    Check { file: &'a str },
    /// `threads FILE --turns N`. The number is still a word.
    Threads { file: &'a str, turns: &'a str },
}

/// The file that a command reads.
const FILE: &[Word] = &[Word::Needed("FILE")];

/// The commands and their words.
const COMMANDS: [Row; 4] = [
    ("replay", &[FILE]),
    ("random", &[FILE, &[Word::NeededOption("seed")]]),
    ("check", &[FILE]),
    ("threads", &[FILE, &[Word::NeededOption("turns")]]),
];

/// The first word for this name.
fn word_of<'a>(words: &ArgMatches<'a>, name: &str) -> Option<&'a str>
    ensures { option_map (λ word. word.now) result ≡ first_of name.now (rows_of (found_of words.now)) }
{
    words.get_str(name)
}

/// The request of a command with this file.
fn request_for<'a>(command: &str, words: &ArgMatches<'a>, file: &'a str) -> Option<Request<'a>>
    ensures { option_map wish result ≡ wish_for command.now (rows_of (found_of words.now)) file.entry.now }
{
    match command {
        "replay" => Some(Request::Replay { file }),
        "check" => Some(Request::Check { file }),
        "random" => {
            let seed = word_of(words, "seed")?;
            Some(Request::Random { file, seed })
        }
        "threads" => {
            let turns = word_of(words, "turns")?;
            Some(Request::Threads { file, turns })
        }
        _ => None,
    }
}

/// The request of a command's words.
fn request_of<'a>(command: &str, words: &ArgMatches<'a>) -> Option<Request<'a>>
    ensures { option_map wish result ≡ wish_by (command.now, rows_of (found_of words.now)) }
{
    let file = word_of(words, "FILE")?;
    request_for(command, words, file)
}

/// The request of the command that was found.
fn request_in<'a>(matches: &ArgMatches<'a>) -> Option<Request<'a>>
    ensures { option_map wish result ≡ option_and_then wish_by (subcommand_rows_of matches.now) }
{
    match matches.subcommand() {
        Some((command, words)) => request_of(command, words),
        None => None,
    }
}

/// The request of these words, of which the first is the program's name.
///
/// G1: they aren't a command line that the program understands. F6: a growth was refused.
#[tactic(none)]
pub fn requested<'a, S: AsStr>(
    alloc: Global,
    words: &'a [S],
) -> Result<Request<'a>, CommandLineError>
    ensures { IsRequested (map S.text words.entry.now) result }
{
    match matches_in(alloc, "mscrun", &COMMANDS, words) {
        Ok(matches) => match request_in(&matches) {
            Some(request) => Ok(request),
            None => Err(CommandLineError::Usage),
        },
        Err(error) => Err(error),
    }
}
