//! What is before a receive: its send, and the first events of each line.
ghost use Rattle.std.specs.Prelude.{ℕ, ◌≡◌, ◌<◌, suc, length, IfOk, MatchOption};
ghost use Rattle.chart.specs.Charts.{at, chart_lines, IsReceiveFrom, BelongsTo};
ghost use Rattle.closure.specs.Faults.{place_of};
ghost use Rattle.closure.specs.Searches.{IsSend, IsReached};

use crate::linked::Linked;
use crate::numbers::Numbers;
use crate::partner::Partner;
use crate::search::{Search, reach};
use chart::{EventNo, InstanceNo};
use std::alloc::{AllocError, Global};

/// The send of the event with this index of a line, if it is a receive.
pub fn send_of(linked: &Linked<'_>, line: usize, index: usize) -> Option<EventNo>
    ensures { MatchOption result
        ((q : ℕ) → IsReceiveFrom (chart_lines linked.now) q (at (suc line) index) → ⊥)
        (λ send. BelongsTo (chart_lines linked.now) (place_of send) (at (suc line) index)) }
{
    if line >= linked.len() {
        return None;
    }
    if index == 0 {
        return None;
    }
    if index > linked.len_of(line) {
        return None;
    }
    match linked.partner_of(line, index - 1) {
        Partner::Receiver { .. } => None,
        Partner::Sender {
            line: sender,
            index,
        } => Some(EventNo {
            instance: InstanceNo::at_place(sender as usize),
            index: index as u32,
        }),
    }
}

/// For each line, how many of its first events are the send with this index of a line, or before it.
pub fn up_to(
    alloc: Global,
    linked: &Linked<'_>,
    line: usize,
    index: usize,
) -> Result<Numbers, AllocError>
    requires line { line < length linked.now }
    requires send { IsSend (chart_lines linked.now) (at (suc line) index) }
    ensures whole { IfOk result (λ fronts. length fronts ≡ length linked.now) }
    ensures reached { IfOk result (IsReached (chart_lines linked.now) (at (suc line) index)) }
{
    let mut search = Search::new(alloc, linked.len())?;
    reach(linked, &mut search, line, index);
    let Search { fronts, seen: _ } = search;
    Ok(fronts)
}
