//! Along a line, for each other line, the send of the last receive so far: the n-th receive on a lane belongs to the
//! n-th send.
ghost use Rattle.std.specs.Prelude.{◌≡◌, ◌+◌, ◌<◌, ◌≤◌, suc, length, count_by, MatchOption, IfSome};
ghost use Rattle.chart.specs.Events.{is_send_to, tally};
ghost use Rattle.chart.specs.Charts.{Place, at, chart_lines, IsChart, HasNoSend};
ghost use Rattle.closure.specs.Links.{IsNextSend, HasPassed};
ghost use Rattle.closure.specs.Cycle.Fronts.{IsHeard};

use crate::Numbers;
use chart::line_events::{event_at, events_at};
use chart::{Event, InstanceNo, Line};

/// Whether the event is a send to this instance.
pub(crate) fn is_send_to(event: &Event, receiver: InstanceNo) -> bool
    ensures { result ≡ is_send_to receiver event.now }
{
    match event {
        Event::Send { to, .. } => *to == receiver,
        Event::Receive { .. } => false,
    }
}

/// The index of the next send to the receiver after the first `passed` events.
fn next_send(events: &[Event], passed: usize, receiver: InstanceNo) -> Option<usize>
    requires { passed ≤ length events.now }
    ensures next { MatchOption result
        (count_by (is_send_to receiver) events.now ≡ tally (is_send_to receiver) events.now passed)
        (IsNextSend events.now receiver passed) }
    ensures later { IfSome result (λ index. passed < index) }
{
    let mut index = passed;
    while index < events.len() {
        let is_next = is_send_to(&events[index], receiver);
        index += 1;
        if is_next {
            return Some(index);
        }
    }
    None
}

/// Passes the event at this place of a line. For each line `passed` has the send of the last receive from there, both
/// before and after the call.
pub(crate) fn pass_event(lines: &[Line], passed: &mut Numbers, line: usize, place: usize)
    requires chart { IsChart lines.now }
    requires sends { (r : Place) → HasNoSend (chart_lines lines.now) r → ⊥ }
    requires line { line < length lines.now }
    requires place { place < length (chart_lines lines.now (suc line)) }
    requires passed { HasPassed (chart_lines lines.now) (length lines.now) line place passed.old }
    requires heard { IsHeard lines.now (at (suc line) (suc place)) passed.old }
    ensures passed { HasPassed (chart_lines lines.now) (length lines.now) line (suc place) passed.new }
    ensures heard { IsHeard lines.now (at (suc line) (suc (suc place))) passed.new }
{
    match event_at(lines, line, place) {
        Event::Send { .. } => {}
        Event::Receive { from, .. } => {
            let sender = from.place();
            let events = events_at(lines, sender);
            match next_send(events, passed.at(sender), InstanceNo::at_place(line)) {
                None => unreachable!(),
                Some(index) => passed.set(sender, index),
            }
        }
    }
}
