//! Whether the enforced order puts one event before another.
ghost use Rattle.std.specs.Prelude.{◌≡◌, ◌<◌, ◌≤◌, ◌↔◌, suc, length, IsTrue, IfOk};
ghost use Rattle.chart.specs.Charts.{at, chart_lines};
ghost use Rattle.chart.specs.Order.{Before};
ghost use Rattle.closure.specs.Faults.{place_of};
ghost use Rattle.closure.specs.Closures.{IsPossibleChart};
ghost use Rattle.closure.specs.Searches.{IsEarlierReceive};

use crate::linked::Linked;
use crate::partner::Partner;
use crate::search::is_up_to;
use chart::{EventNo, InstanceNo};
use std::alloc::{AllocError, Global};

/// Whether an event is the one with this index of a line.
fn is_at(event: &EventNo, line: usize, index: usize) -> bool
    ensures { IsTrue result ↔ (place_of event.now ≡ at (suc line) index) }
{
    event.instance.place() == line && event.index as usize == index
}

/// Whether an event is earlier on a line than this index, and is a receive from this sender.
fn is_earlier_receive(
    linked: &Linked<'_>,
    event: &EventNo,
    line: usize,
    index: usize,
    sender: InstanceNo,
) -> bool
    requires line { line < length linked.now }
    requires index { index ≤ length (chart_lines linked.now (suc line)) }
    ensures { IsTrue result
        ↔ IsEarlierReceive (chart_lines linked.now) sender (place_of event.now) (at (suc line) index) }
{
    if event.instance.place() != line {
        return false;
    }
    if event.index == 0 {
        return false;
    }
    let earlier = event.index as usize;
    if earlier >= index {
        return false;
    }
    linked.event_at(line, earlier - 1).is_receive_from(sender)
}

/// Whether the enforced order puts an event before the one with this index of a line.
///
/// The events before a send are those that it knows, except for itself. The events before a receive are the earlier
/// receives from its sender, its send, and all events before this send.
pub fn is_before(
    alloc: Global,
    linked: &Linked<'_>,
    earlier: &EventNo,
    line: usize,
    index: usize,
) -> Result<bool, AllocError>
    requires { IsPossibleChart linked.now }
    ensures { IfOk result (λ before. IsTrue before
        ↔ Before (chart_lines linked.now) (place_of earlier.now) (at (suc line) index)) }
{
    if line >= linked.len() {
        return Ok(false);
    }
    if index == 0 {
        return Ok(false);
    }
    if index > linked.len_of(line) {
        return Ok(false);
    }
    match linked.partner_of(line, index - 1) {
        Partner::Receiver { .. } => {
            if is_at(earlier, line, index) {
                return Ok(false);
            }
            is_up_to(alloc, linked, earlier, line, index)
        }
        Partner::Sender {
            line: sender,
            index: sent,
        } => {
            let sender = sender as usize;
            if is_earlier_receive(linked, earlier, line, index, InstanceNo::at_place(sender)) {
                return Ok(true);
            }
            is_up_to(alloc, linked, earlier, sender, sent as usize)
        }
    }
}
