//! What is directly before each line of a log.
ghost use Rattle.std.specs.Prelude.{◌≡◌, IfOk, replicate, slice_index_or, None};
ghost use Rattle.log_chart.specs.Cycles.Sources.{AreLines, AreSources};

use crate::LogLine;
use chart::MAX_INSTANCES;
use std::alloc::{AllocError, Global};

/// What is directly before each line, by the line's number.
#[derive(Drop)]
pub struct Sources {
    /// The line above it on its host's line.
    above: Vec<Option<usize>>,
    /// The send that it takes.
    sends: Vec<Option<usize>>,
}

/// What a table has for the line with this number.
pub(crate) fn entry_of(table: &[Option<usize>], number: usize) -> Option<usize>
    ensures { result ≡ slice_index_or table.now number None }
{
    match table.get(number) {
        Some(entry) => *entry,
        None => None,
    }
}

impl Sources {
    /// The line above, of the same host.
    pub fn above(&self, number: usize) -> Option<usize>
        ensures { result ≡ slice_index_or self.now.above.items number None }
    {
        entry_of(&self.above, number)
    }

    /// The send that a line takes.
    pub fn send(&self, number: usize) -> Option<usize>
        ensures { result ≡ slice_index_or self.now.sends.items number None }
    {
        entry_of(&self.sends, number)
    }
}

/// A table of `count` numbers with nothing for any of them. It fails only if there is no memory.
pub(crate) fn nothing(alloc: Global, count: usize) -> Result<Vec<Option<usize>>, AllocError>
    ensures { IfOk result (λ table. table.items ≡ replicate count None) }
{
    let table = vec![in alloc; None; count]?;
    Ok(table)
}

/// What is directly before each of these lines. The log has `count` lines.
///
/// F6: it fails only if there is no memory.
pub fn sources_of(alloc: Global, count: usize, lines: &[LogLine]) -> Result<Sources, AllocError>
    requires { AreLines count lines.now }
    ensures { IfOk result (λ s. AreSources lines.now count s.above.items s.sends.items) }
{
    let mut above = nothing(alloc, count)?;
    let mut sends = nothing(alloc, count)?;
    let mut last = nothing(alloc, MAX_INSTANCES)?;
    for line in lines {
        let place = line.entry.host.place();
        above[line.number] = last[place];
        sends[line.number] = line.send;
        last[place] = Some(line.number);
    }
    Ok(Sources { above, sends })
}
