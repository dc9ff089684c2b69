//! Which event of a line a send is before, the first of them.
ghost use Rattle.std.specs.Prelude.{◌≡◌, ◌≢◌, ◌<◌, ◌≤◌, ◌↔◌, ℕ, length, IsTrue, IfOk, MatchOption};
ghost use Rattle.chart.specs.Events.{is_receive_from};
ghost use Rattle.chart.specs.Charts.{at, chart_lines, IsReceiveFrom};
ghost use Rattle.chart.specs.Order.{Before};
ghost use Rattle.closure.specs.Faults.{place_of};
ghost use Rattle.closure.specs.Searches.{IsSend};
ghost use Rattle.repair.specs.Crossings.{IsLastIn, HasNoneIn, InformsHeard, IsHeardFrom, IsFirstAfter, IsBeforeNone};

use chart::line_events::events_of;
use chart::{Event, EventNo, InstanceNo};
use closure::Closure;
use std::alloc::{AllocError, Global};

/// Some events of a line: those behind its first `low`, up to that of number `high`.
#[derive(Clone, Copy)]
struct Stretch {
    instance: InstanceNo,
    low: usize,
    high: usize,
}

/// The last receive from this instance behind the first `low` events, up to that of number `high`.
fn last_receive(events: &[Event], sender: InstanceNo, low: usize, high: usize) -> Option<usize>
    requires { high ≤ length events.now }
    ensures { MatchOption result (HasNoneIn (is_receive_from sender) events.now low high)
        (λ index. IsLastIn (is_receive_from sender) events.now low high index) }
{
    let mut index = high;
    while index > low {
        if events[index - 1].is_receive_from(sender) {
            return Some(index);
        }
        index -= 1;
    }
    None
}

/// Whether the send of the receive is the one asked about, or after it.
fn is_heard_at(closure: &Closure<'_>, send: &EventNo, receive: &EventNo) -> Result<bool, AllocError>
    requires send { IsSend (chart_lines closure.now) (place_of send.now) }
    requires receive { (q : ℕ) × IsReceiveFrom (chart_lines closure.now) q (place_of receive.now) }
    ensures { IfOk result
        (InformsHeard (chart_lines closure.now) (place_of send.now) (place_of receive.now)) }
{
    let Some(its) = closure.send_of(receive) else {
        unreachable!()
    };
    let fronts = closure.up_to(&its)?;
    Ok(send.index as usize <= fronts.at(send.instance.place()))
}

/// Whether some receive from this sender is of the send asked about or of one after it. That of the last of them is
/// after those of the others.
fn is_heard_from(
    closure: &Closure<'_>,
    send: &EventNo,
    stretch: &Stretch,
    sender: InstanceNo,
) -> Result<bool, AllocError>
    requires send { IsSend (chart_lines closure.now) (place_of send.now) }
    requires within { stretch.now.high ≤ length (chart_lines closure.now stretch.now.instance) }
    ensures { IfOk result (λ heard. IsTrue heard
        ↔ IsHeardFrom (chart_lines closure.now) (place_of send.now) stretch.now.instance stretch.now.low
        stretch.now.high sender) }
{
    let events = events_of(closure.lines(), stretch.instance);
    match last_receive(events, sender, stretch.low, stretch.high) {
        None => Ok(false),
        Some(index) => {
            let receive = EventNo {
                instance: stretch.instance,
                index: index as u32,
            };
            is_heard_at(closure, send, &receive)
        }
    }
}

/// Whether the send is before one of these events, where it is before none of those above them.
fn is_before_some(
    closure: &Closure<'_>,
    send: &EventNo,
    stretch: &Stretch,
) -> Result<bool, AllocError>
    requires send { IsSend (chart_lines closure.now) (place_of send.now) }
    requires other { stretch.now.instance ≢ send.now.instance }
    requires within { stretch.now.high ≤ length (chart_lines closure.now stretch.now.instance) }
    requires none { IsBeforeNone (chart_lines closure.now) (place_of send.now) stretch.now.instance stretch.now.low }
    ensures { IfOk result (λ before. (IsTrue before → (i : ℕ) × (i ≤ stretch.now.high)
        × Before (chart_lines closure.now) (place_of send.now) (at stretch.now.instance i))
        × ((IsTrue before → ⊥)
        → IsBeforeNone (chart_lines closure.now) (place_of send.now) stretch.now.instance stretch.now.high)) }
{
    for place in 0..closure.len() {
        if is_heard_from(closure, send, stretch, InstanceNo::at_place(place))? {
            return Ok(true);
        }
    }
    Ok(false)
}

/// The first of the line's first `many` events that the send is before, if it is before one of them.
pub(crate) fn first_after(
    closure: &Closure<'_>,
    send: &EventNo,
    instance: InstanceNo,
    many: usize,
) -> Result<Option<usize>, AllocError>
    requires send { IsSend (chart_lines closure.now) (place_of send.now) }
    requires other { instance ≢ send.now.instance }
    requires within { many ≤ length (chart_lines closure.now instance) }
    ensures { IfOk result (λ found. MatchOption found
        (IsBeforeNone (chart_lines closure.now) (place_of send.now) instance many)
        (λ index. (index ≤ many) × IsFirstAfter (chart_lines closure.now) (place_of send.now) instance index)) }
{
    let whole = Stretch {
        instance,
        low: 0,
        high: many,
    };
    if !is_before_some(closure, send, &whole)? {
        return Ok(None);
    }
    let mut low = 0;
    let mut high = many;
    while high - low > 1 {
        let middle = low + (high - low) / 2;
        let stretch = Stretch {
            instance,
            low,
            high: middle,
        };
        if is_before_some(closure, send, &stretch)? {
            high = middle;
        } else {
            low = middle;
        }
    }
    Ok(Some(high))
}
