//! What `--strict` refuses: a schedule with a command that did nothing, because the chart lacks it.
ghost use Rattle.std.specs.Prelude.{◌≡◌, true};
ghost use Rattle.cmd_base.specs.Refusals.{Tried};
ghost use Rattle.cmd_base.specs.Strict.{FindsBy, Finds, RefusesFound, Refuses, strict_text};

use crate::error::ProgramError;
use crate::kind::is_schedule;
use crate::not_done::NotDone;
use crate::refusal::{refused, refused_by};
use crate::source::Source;
use crate::text::Text;
use std::alloc::Global;
use texts::Out;

/// The commands that did nothing in the schedule or chart of a file's bytes. A refusal is the text's first fault, or
/// F6.
fn not_done_of(alloc: Global, bytes: &[u8]) -> Result<Option<NotDone>, ProgramError>
    ensures { FindsBy true bytes.now result }
{
    let text = Text::read(alloc, bytes)?;
    let source = Source::of(alloc, &text)?;
    Ok(source.not_done())
}

/// The commands of a schedule that did nothing. Any other file has none.
fn not_done_in(alloc: Global, bytes: &[u8]) -> Result<Option<NotDone>, ProgramError>
    ensures { Finds bytes.now result }
{
    if is_schedule(bytes) {
        not_done_of(alloc, bytes)
    } else {
        Ok(None)
    }
}

/// Prints the refusal with the line of the first command that did nothing, and returns the exit status.
#[tactic(auto, unfolding(crate::specs::Strict::strict_text))]
fn refused_at_line<V: Out>(line: u64, err: &mut V) -> u8
    ensures status { result ≡ 2 }
    ensures line { Tried V.sink err.old err.new (strict_text line) }
{
    refused_by(b"F53 NotDone", Some(line), err)
}

/// Prints the refusal for what was found, if there is one.
fn refused_for<V: Out>(found: &Result<Option<NotDone>, ProgramError>, err: &mut V) -> Option<u8>
    ensures { RefusesFound found.now V.sink err.old err.new result }
{
    match found {
        Ok(None) => None,
        Ok(Some(not_done)) => Some(refused_at_line(not_done.line, err)),
        Err(error) => Some(refused(error, err)),
    }
}

/// With `--strict`, refuses a schedule with a command that did nothing (F53), and writes the refusal's line to `err`.
/// The schedule's own faults and F6 are refused first. Returns the exit status of the refusal, which is 2, or no status
/// if nothing is refused. A failed write to `err` changes nothing.
pub fn refused_strictly<V: Out>(
    alloc: Global,
    is_strict: bool,
    bytes: &[u8],
    err: &mut V,
) -> Option<u8>
    ensures { Refuses is_strict bytes.now V.sink err.old err.new result }
{
    if is_strict {
        refused_for(&not_done_in(alloc, bytes), err)
    } else {
        None
    }
}
