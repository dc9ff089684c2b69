//! Commands as tables of their words.
ghost use Rattle.std.specs.Prelude.{◌≡◌, IfOk, false, map, true};
ghost use Rattle.clap.specs.Words.{is_simple_and_free, rule_of};
ghost use Rattle.cli.specs.Reading.{AddsRules, IsProgram, ReadsWords};
ghost use Rattle.cli.specs.Tables.{command, commands_by, leaf, program, rule_by, rules_in};
ghost use Rattle.clap.specs.Simple.{shape_of};

use crate::error::{CommandLineError, fault};
use clap::{Arg, ArgAction, ArgMatches, Command};
use std::alloc::{AllocError, Global};
use std::convert::AsStr;

/// A word of a command, by its name.
#[derive(Clone, Copy)]
pub enum Word {
    /// A required word.
    Needed(&'static str),
    /// An optional word.
    Free(&'static str),
    /// Any number of words, at the end.
    Rest(&'static str),
    /// An option with this number of words after it.
    Option(&'static str, usize),
    /// A required option with a word.
    NeededOption(&'static str),
    /// An option with a word, which may be given several times.
    Repeated(&'static str),
    /// An option without a word.
    Flag(&'static str),
}

/// How `clap` reads the word.
fn arg_of<'a>(alloc: Global, word: Word) -> Arg<'a>
    ensures rule { rule_of result ≡ rule_by word }
    ensures local { result.global ≡ false }
{
    match word {
        Word::Needed(name) => Arg::new(alloc, name).required(true).action(ArgAction::Set),
        Word::Free(name) => Arg::new(alloc, name).action(ArgAction::Set),
        Word::Rest(name) => Arg::new(alloc, name)
            .num_args(0..)
            .action(ArgAction::Append),
        Word::Option(name, words) => Arg::new(alloc, name)
            .long(name)
            .num_args(words)
            .action(ArgAction::Set),
        Word::NeededOption(name) => Arg::new(alloc, name)
            .long(name)
            .required(true)
            .action(ArgAction::Set),
        Word::Repeated(name) => Arg::new(alloc, name).long(name).action(ArgAction::Append),
        Word::Flag(name) => Arg::new(alloc, name).long(name).action(ArgAction::SetTrue),
    }
}

/// The command with these additional words.
fn with_words<'a>(
    alloc: Global,
    mut command: Command<'a>,
    words: &[Word],
) -> Result<Command<'a>, AllocError>
    ensures { IfOk result (AddsRules command.entry (map rule_by words.now)) }
{
    for word in words {
        command = command.arg(arg_of(alloc, *word))?;
    }
    Ok(command)
}

/// A command of this name with all of these words. It has no option for help, which is a mistake like any other.
fn command_of<'a>(
    alloc: Global,
    name: &'static str,
    lists: &[&[Word]],
) -> Result<Command<'a>, AllocError>
    ensures { IfOk result (λ made. IsProgram made (leaf (command name.entry.now (rules_in lists.now)))) }
{
    let mut command = Command::new(alloc, name).disable_help_flag(true);
    for words in lists {
        command = with_words(alloc, command, words)?;
    }
    Ok(command)
}

/// A command of a table: its name, and the lists of its words.
pub type Row = (&'static str, &'static [&'static [Word]]);

/// A program of this name with these commands, one of which is required. Each command has the words of all of its
/// lists.
///
/// F6: a growth was refused.
fn program_of<'a>(
    alloc: Global,
    name: &'static str,
    commands: &[Row],
) -> Result<Command<'a>, AllocError>
    ensures { IfOk result (λ made. IsProgram made (program name.entry.now (commands_by commands.now))) }
{
    let mut program = Command::new(alloc, name)
        .disable_help_flag(true)
        .disable_help_subcommand(true)
        .subcommand_required(true);
    for (name, lists) in commands {
        program = program.subcommand(command_of(alloc, name, lists)?)?;
    }
    Ok(program)
}

/// What the words of a command line name, of which the first is the program's name: a command of this table, and its
/// words.
///
/// G1: they aren't a command line of such a program. F6: a growth was refused.
#[tactic(none)]
pub fn matches_in<'a, S: AsStr>(
    alloc: Global,
    name: &'static str,
    commands: &[Row],
    words: &'a [S],
) -> Result<ArgMatches<'a>, CommandLineError>
    requires { is_simple_and_free (program name.now (commands_by commands.now)) ≡ true }
    ensures { ReadsWords (program name.entry.now (commands_by commands.now)) (map S.text words.entry.now) result }
{
    let program = match program_of(alloc, name, commands) {
        Ok(program) => program,
        Err(AllocError) => return Err(CommandLineError::Memory),
    };
    match program.try_get_matches_from(words) {
        Ok(matches) => Ok(matches),
        Err(error) => Err(fault(&error)),
    }
}
