//! The lines of a race's two events in a witness.
ghost use Rattle.std.specs.Prelude.{◌≡◌, take, IfOk};
ghost use Rattle.texts.specs.Instances.{name_at};
ghost use Rattle.cmd_page.specs.Answers.Standing.{is_alike, turn_of, verb_of, row_at, row_in};

use crate::text::{Deed, row_of};
use chart::{Event, InstanceNo, Names};
use races_text::named::event_at;
use std::alloc::{AllocError, Global};

/// The bytes of an instance's name, or none if it has no name.
pub fn name_bytes(alloc: Global, names: &Names, instance: InstanceNo) -> Result<Vec<u8>, AllocError>
    ensures { IfOk result (λ bytes. bytes.items ≡ name_at names.now instance) }
{
    match names.name(instance) {
        Some(name) => Vec::from_slice(alloc, name.as_bytes()),
        None => Ok(Vec::new(alloc)),
    }
}

/// Whether both are sends to one instance, or receives from one.
fn is_alike(event: &Event, other: &Event) -> bool
    ensures { result ≡ is_alike event.now other.now }
{
    match (event, other) {
        (Event::Send { to, .. }, Event::Send { to: other, .. }) => *to == *other,
        (Event::Receive { from, .. }, Event::Receive { from: other, .. }) => *from == *other,
        _ => false,
    }
}

/// The number of events like this one.
fn turn_of(events: &[Event], event: &Event) -> usize
    ensures { result ≡ turn_of events.now event.now }
{
    events.iter().filter(|other| is_alike(event, other)).count()
}

/// The verb of an event's command.
#[tactic(auto, unfolding(crate::specs::Answers::Standing::verb_of))]
fn verb_of(event: &Event) -> &'static [u8]
    ensures { result.now ≡ verb_of event.now }
{
    match event {
        Event::Send { .. } => b"send",
        Event::Receive { .. } => b"receive",
    }
}

/// The line of an event of this instance. It is the `turn`-th event of its kind.
fn row_at(
    alloc: Global,
    names: &Names,
    instance: InstanceNo,
    event: &Event,
    turn: usize,
    text: &[u8],
) -> Result<u64, AllocError>
    ensures { IfOk result (λ row. row ≡ row_at names.now instance event.now turn text.now) }
{
    let own = name_bytes(alloc, names, instance)?;
    let partner = name_bytes(alloc, names, event.partner())?;
    let deed = Deed {
        instance: own.as_slice(),
        verb: verb_of(event),
        partner: partner.as_slice(),
    };
    Ok(row_of(text, &deed, turn as u64))
}

/// The events of a line up to this number.
fn front_of(events: &[Event], index: usize) -> &[Event]
    ensures { result.now ≡ take index events.now }
{
    if index < events.len() {
        &events[..index]
    } else {
        events
    }
}

/// The number of the line in a schedule's text that makes the event with this number of the instance's line. Lines
/// are numbered from 1. It is 0 if there is none.
pub(crate) fn row_in(
    alloc: Global,
    names: &Names,
    instance: InstanceNo,
    events: &[Event],
    index: u32,
    text: &[u8],
) -> Result<u64, AllocError>
    ensures { IfOk result (λ row. row ≡ row_in names.now instance events.now index text.now) }
{
    match event_at(events, index as usize) {
        Some(event) => {
            let turn = turn_of(front_of(events, index as usize), &event);
            row_at(alloc, names, instance, &event, turn, text)
        }
        None => Ok(0),
    }
}
