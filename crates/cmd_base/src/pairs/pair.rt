//! The two events that the words of a `race` line name.
ghost use Rattle.std.specs.Prelude.{◌≡◌, ◌≤◌, ◌<◌, length};
ghost use Rattle.chart.specs.declared.line.TheConstants.{MAX_EVENTS};
ghost use Rattle.cmd_base.specs.Pairs.Pairs.{pair_on, pair_of};
ghost use Rattle.cmd_base.specs.Named.Asked.{instance_named, has_event};
ghost use Rattle.chart.specs.Events.{is_receive};

use crate::named::{Missing, has_event, instance_named, missing_on};
use crate::pairs::error::PairError;
use chart::line_events::events_of;
use chart::{Event, EventNo, InstanceNo, Line, Names};

/// The words of a `race` line: an instance's name, and the numbers of two events of its line.
#[derive(Clone, Copy, Debug)]
pub struct Asked<'a> {
    pub instance: &'a [u8],
    pub earlier: u64,
    pub receive: u64,
}

/// A receive, and an earlier event of its line.
#[derive(Clone, Copy, Debug, PartialEq, Eq)]
pub struct Pair {
    pub earlier: EventNo,
    pub receive: EventNo,
}

fn is_receive(event: &Event) -> bool
    ensures { result ≡ is_receive event.now }
{
    match event {
        Event::Send { .. } => false,
        Event::Receive { .. } => true,
    }
}

/// The events of an instance's line with these numbers. F31: an event doesn't exist. F32: the second event is a send,
/// or the first isn't earlier.
fn pair_on(
    names: &Names,
    instance: InstanceNo,
    events: &[Event],
    earlier: u64,
    receive: u64,
) -> Result<Pair, PairError>
    requires instance { instance ≤ length names.now }
    requires short { length events.now ≤ MAX_EVENTS }
    ensures { result ≡ pair_on names.now instance events.now earlier receive }
{
    if !has_event(events, earlier) {
        return Err(PairError::NoSuchEvent(missing_on(names, instance, events)));
    }
    if !has_event(events, receive) {
        return Err(PairError::NoSuchEvent(missing_on(names, instance, events)));
    }
    if earlier >= receive {
        return Err(PairError::NotEarlier);
    }
    if !is_receive(&events[receive as usize - 1]) {
        return Err(PairError::NotAReceive(receive));
    }
    Ok(Pair {
        earlier: EventNo {
            instance,
            index: earlier as u32,
        },
        receive: EventNo {
            instance,
            index: receive as u32,
        },
    })
}

/// The two events that the words name. F31: the chart has no such event. F32: the second event is a send, or the first
/// isn't earlier.
pub fn pair_in(names: &Names, lines: &[Line], asked: &Asked<'_>) -> Result<Pair, PairError>
    ensures { result ≡ pair_of names.now lines.now asked.now }
{
    match instance_named(names, asked.instance) {
        None => Err(PairError::NoSuchEvent(Missing::Instance)),
        Some(instance) => pair_on(
            names,
            instance,
            events_of(lines, instance),
            asked.earlier,
            asked.receive,
        ),
    }
}
