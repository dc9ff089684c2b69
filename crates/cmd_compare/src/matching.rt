//! Matches the events of a line with those of the other recording.
//!
//! A message is identified by its lane and its turn on the lane. Both recordings have a message if the names of the
//! lane's messages up to it are the same in both.
ghost use Rattle.std.specs.Prelude.{◌≡◌, ◌≤◌, ◌<◌, ◌+◌, ◌↔◌, suc, length, count_by, IsTrue, IfOk, MatchOption};
ghost use Rattle.chart.specs.Events.{tally};
ghost use Rattle.cmd_compare.specs.Ends.{is_at, end_there};
ghost use Rattle.cmd_compare.specs.Matches.{IsLastBefore, IsNext, HasPassed, IsMatch, AreMatches, IsUnmatched};

use crate::lane_end::LaneEnd;
use chart::{Event, InstanceNo, Name};
use std::alloc::{AllocError, Global};

fn are_same(name: Name, other: Name) -> bool
    ensures { IsTrue result ↔ (name ≡ other) }
{
    name == other
}

/// The number of the last event at this end of a lane among the first `many` events.
fn last_before(events: &[Event], end: &LaneEnd, many: usize) -> Option<usize>
    requires { many ≤ length events.now }
    ensures { MatchOption result (tally (is_at end.now) events.now many ≡ 0)
        (λ index. IsLastBefore (is_at end.now) events.now many index) }
{
    let mut index = many;
    while index > 0 {
        if end.has(&events[index - 1]) {
            return Some(index);
        }
        index -= 1;
    }
    None
}

/// The number of the next event at this end of a lane after the first `passed` events.
fn next_at(events: &[Event], end: &LaneEnd, passed: usize) -> Option<usize>
    requires { passed ≤ length events.now }
    ensures { MatchOption result
        (count_by (is_at end.now) events.now ≡ tally (is_at end.now) events.now passed)
        (λ index. IsNext (is_at end.now) events.now passed index) }
{
    let mut index = passed;
    while index < events.len() {
        let is_next = end.has(&events[index]);
        index += 1;
        if is_next {
            return Some(index);
        }
    }
    None
}

/// Two lines, of which `here` is matched with `there`, and the numbers that the instances have there.
#[derive(Clone, Copy)]
pub(crate) struct BothLines<'a> {
    pub others: &'a [InstanceNo],
    pub here: &'a [Event],
    pub there: &'a [Event],
}

/// The number, on the other line, of this end's last event among the events that were matched so far. It is 0 if this
/// end has no such event, and there is none if the other line lacks the event.
fn passed_at(both: &BothLines<'_>, found: &[Option<usize>], end: &LaneEnd) -> Option<usize>
    requires short { length found.now < length both.now.here.now }
    requires found { AreMatches both.now.others.now both.now.here.now both.now.there.now found.now }
    ensures { MatchOption result
        (IsUnmatched both.now.others.now both.now.here.now both.now.there.now end.now (length found.now))
        (λ passed. HasPassed (is_at end.now) (is_at (end_there both.now.others.now end.now)) both.now.here.now
        both.now.there.now (length found.now) passed) }
{
    match last_before(both.here, end, found.len()) {
        None => Some(0),
        Some(index) => found[index - 1],
    }
}

/// The number of the line's next event on the other line, if that line has it.
fn match_of(both: &BothLines<'_>, found: &[Option<usize>]) -> Option<usize>
    requires short { length found.now < length both.now.here.now }
    requires found { AreMatches both.now.others.now both.now.here.now both.now.there.now found.now }
    ensures { IsMatch both.now.others.now both.now.here.now both.now.there.now (suc (length found.now)) result }
{
    let event = &both.here[found.len()];
    let end = LaneEnd::of(event);
    let Some(passed) = passed_at(both, found, &end) else {
        return None;
    };
    let Some(index) = next_at(both.there, &end.there(both.others), passed) else {
        return None;
    };
    if are_same(event.name(), both.there[index - 1].name()) {
        Some(index)
    } else {
        None
    }
}

/// For each event of a line, its number on the other line, if that line has it.
pub(crate) fn matches_of(
    alloc: Global,
    both: &BothLines<'_>,
) -> Result<Vec<Option<usize>>, AllocError>
    ensures matches { IfOk result (λ found.
        AreMatches both.now.others.now both.now.here.now both.now.there.now found.items) }
    ensures whole { IfOk result (λ found. length found.items ≡ length both.now.here.now) }
{
    let mut found = Vec::new(alloc);
    for _ in 0..both.here.len() {
        let same = match_of(both, found.as_slice());
        found.push(same)?;
    }
    Ok(found)
}
