//! The line that takes each message.
ghost use Rattle.std.specs.Prelude.{IfOk};
ghost use Rattle.race_verdicts.specs.Luck.LineTables.{AreTakers};

use crate::luck::tables::Table;
use log_chart::LogLine;
use std::alloc::{AllocError, Global};

/// For each line, the first line that takes its message.
pub(crate) fn takers_of(alloc: Global, lines: &[LogLine]) -> Result<Table, AllocError>
    ensures { IfOk result (AreTakers lines.now) }
{
    let mut takers = Table::none(alloc, lines.len())?;
    for (number, line) in lines.iter().enumerate() {
        if let Some(send) = line.send {
            takers.note(send, number);
        }
    }
    Ok(takers)
}
