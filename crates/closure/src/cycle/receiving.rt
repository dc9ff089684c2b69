//! The receive of a send.
ghost use Rattle.std.specs.Prelude.{◌≡◌, ◌<◌, ◌≤◌, length, count_by, MatchOption, ℕ};
ghost use Rattle.chart.specs.Events.{is_send_to, is_receive_from, tally};
ghost use Rattle.chart.specs.Charts.{Place, chart_lines, BelongsTo, IsChart};
ghost use Rattle.closure.specs.Faults.{place_of};
ghost use Rattle.closure.specs.Cycle.Turns.{IsReceiveInTurn};

use crate::cycle::passing::is_send_to;
use chart::line_events::{event_at, events_at};
use chart::{Event, EventNo, InstanceNo, Line};

/// The number of sends to the receiver among the first events.
fn sends_among(events: &[Event], first: usize, receiver: InstanceNo) -> usize
    requires { first ≤ length events.now }
    ensures value { result ≡ tally (is_send_to receiver) events.now first }
    ensures most { result ≤ first }
{
    events[..first]
        .iter()
        .filter(|event| is_send_to(event, receiver))
        .count()
}

fn is_receive_from(event: &Event, sender: InstanceNo) -> bool
    ensures { result ≡ is_receive_from sender event.now }
{
    match event {
        Event::Send { .. } => false,
        Event::Receive { from, .. } => *from == sender,
    }
}

/// The index of the receive from the sender with this turn among the receives from it, from 1.
fn receive_in_turn(events: &[Event], sender: InstanceNo, turn: usize) -> Option<usize>
    requires { 1 ≤ turn }
    ensures { MatchOption result (count_by (is_receive_from sender) events.now < turn)
        (IsReceiveInTurn events.now sender turn) }
{
    let mut left = turn;
    for (place, event) in events.iter().enumerate() {
        if is_receive_from(event, sender) {
            left -= 1;
            if left == 0 {
                return Some(place + 1);
            }
        }
    }
    None
}

/// The receive of a send's message.
pub(crate) fn receive_of(lines: &[Line], send: &EventNo) -> EventNo
    requires chart { IsChart lines.now }
    requires received { (r : Place) × BelongsTo (chart_lines lines.now) (place_of send.now) r }
    ensures { BelongsTo (chart_lines lines.now) (place_of send.now) (place_of result) }
{
    let line = send.instance.place();
    let index = send.index as usize;
    let receiver = match event_at(lines, line, index - 1) {
        Event::Send { to, .. } => to,
        Event::Receive { .. } => unreachable!(),
    };
    let turn = sends_among(events_at(lines, line), index, receiver);
    match receive_in_turn(events_at(lines, receiver.place()), send.instance, turn) {
        None => unreachable!(),
        Some(index) => EventNo {
            instance: receiver,
            index: index as u32,
        },
    }
}
