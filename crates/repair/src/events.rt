//! What is read off the events of a line.
ghost use Rattle.std.specs.Prelude.{◌≡◌, ◌≤◌, ◌<◌, length};
ghost use Rattle.chart.specs.Events.{is_send_to, is_receive_from, tally};
ghost use Rattle.chart.specs.Places.{IsSendAfter};
ghost use Rattle.repair.specs.Messages.{EndsBehind};

use chart::{Event, InstanceNo};

/// Behind how many events the coregion ends that the event of this number is in; just behind it where it is in none.
pub(crate) fn end_behind(events: &[Event], index: usize) -> usize
    requires begun { 1 ≤ index }
    requires within { index ≤ length events.now }
    ensures { EndsBehind events.now index result }
{
    let region = events[index - 1].region();
    let mut end = index;
    while end < events.len() && events[end].is_in(region) {
        end += 1;
    }
    end
}

fn is_send_to(event: &Event, receiver: InstanceNo) -> bool
    ensures { result ≡ is_send_to receiver event.now }
{
    match event {
        Event::Send { to, .. } => *to == receiver,
        Event::Receive { .. } => false,
    }
}

/// How many of the first events are sends to this instance.
pub(crate) fn sends_among(events: &[Event], receiver: InstanceNo, many: usize) -> usize
    requires { many ≤ length events.now }
    ensures { result ≡ tally (is_send_to receiver) events.now many }
{
    events[..many]
        .iter()
        .filter(|event| is_send_to(event, receiver))
        .count()
}

/// How many of them are receives from it.
pub(crate) fn receives_among(events: &[Event], sender: InstanceNo, many: usize) -> usize
    requires { many ≤ length events.now }
    ensures { result ≡ tally (is_receive_from sender) events.now many }
{
    events[..many]
        .iter()
        .filter(|event| event.is_receive_from(sender))
        .count()
}

/// The number of the send to this instance that has so many earlier ones, where the first `many` events have more.
pub(crate) fn send_after(
    events: &[Event],
    receiver: InstanceNo,
    passed: usize,
    many: usize,
) -> usize
    requires within { many ≤ length events.now }
    requires more { passed < tally (is_send_to receiver) events.now many }
    ensures send { IsSendAfter events.now receiver passed result }
    ensures among { result ≤ many }
{
    let mut sent = 0;
    for place in 0..many {
        if is_send_to(&events[place], receiver) {
            if sent == passed {
                return place + 1;
            }
            sent += 1;
        }
    }
    unreachable!()
}
