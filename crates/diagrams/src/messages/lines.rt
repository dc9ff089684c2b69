//! The chart of messages.
ghost use Rattle.std.specs.Prelude.{◌≡◌, ◌≤◌, ℕ, [], IfOk};
ghost use Rattle.chart.specs.Charts.{chart_lines, IsPossible};
ghost use Rattle.chart.specs.declared.instance.TheConstants.{MAX_INSTANCES};
ghost use Rattle.diagrams.specs.Messages.Following.{AreBuildable};
ghost use Rattle.diagrams.specs.Messages.Lines.{lines_from};
ghost use Rattle.diagrams.specs.Messages.Opening.{HasRoom};
ghost use Rattle.diagrams.specs.Messages.Turns.{all_ends, own_ends};

use crate::messages::end::{End, all_ends};
use crate::messages::line::line_of;
use crate::messages::message::Named;
use chart::{Chart, InstanceNo, Line};
use std::alloc::{AllocError, Global};

/// The lines of `count` instances, each of which has room for its ends.
fn lines_of(alloc: Global, ends: &[End], count: usize) -> Result<Vec<Line>, AllocError>
    requires count { count ≤ MAX_INSTANCES }
    requires room { (p : ℕ) → HasRoom p [] (own_ends p ends.now) }
    ensures { IfOk result (λ lines. lines.items ≡ lines_from ends.now 1 count) }
{
    let mut lines = Vec::new(alloc);
    for place in 0..count {
        lines.push(line_of(alloc, InstanceNo::at_place(place), ends)?)?;
    }
    Ok(lines)
}

/// The chart of these messages, for `count` instances. It fails only if memory runs out, or if twice the number of a
/// row doesn't fit. The time is in proportion to n log n for n messages.
///
/// In each row an instance's sends come first, in the order of the messages, and then its receives. Several receives of
/// a row are a coregion.
pub fn chart_of(alloc: Global, messages: &[Named], count: usize) -> Result<Chart, AllocError>
    requires several { 2 ≤ count }
    requires few { count ≤ MAX_INSTANCES }
    requires built { AreBuildable count messages.now }
    ensures lines { IfOk result (λ chart. chart ≡ lines_from (all_ends messages.now) 1 count) }
    ensures possible { IfOk result (λ chart. IsPossible count (chart_lines chart)) }
{
    let ends = all_ends(alloc, messages)?;
    let lines = lines_of(alloc, &ends, count)?;
    match Chart::new(lines) {
        Ok(chart) => Ok(chart),
        Err(_) => unreachable!(),
    }
}
