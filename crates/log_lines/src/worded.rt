//! Reads events with vector time by their words.
ghost use Rattle.std.specs.Prelude.{◌≡◌, IfOk};
ghost use Rattle.log_lines.specs.ByWords.{by_words};
ghost use Rattle.log_lines.specs.Reading.{read_view};

use crate::clock_line::event_in_words;
use crate::read::Read;
use std::alloc::{AllocError, Global};

/// The result of reading a log, with its events with vector time read by their words `out M to B` and `in M from A`.
/// Events in other words are among the lines that aren't read.
#[tactic(auto, unfolding(crate::specs::ByWords::by_words))]
pub fn by_words<'a>(alloc: Global, read: Read<'a>) -> Result<Read<'a>, AllocError>
    ensures { IfOk result (λ r. read_view r ≡ by_words (read_view read.entry)) }
{
    let Read {
        logged,
        clocked,
        others,
    } = read;
    let mut joined = Read {
        logged,
        clocked: Vec::new(alloc),
        others,
    };
    for event in &clocked {
        let says = event_in_words(alloc, event.clocked)?;
        joined.add(event.place, says)?;
    }
    Ok(joined)
}
