//! The events of messages by their moments.
ghost use Rattle.std.specs.Prelude.{◌≡◌, ◌++◌, List, IfOk, OnOk};
ghost use Rattle.std.specs.List.{flat_map};
ghost use Rattle.diagrams.specs.declared.message.Message.{Message};
ghost use Rattle.diagram_join.specs.Turns.Sends.{AreSends};
ghost use Rattle.diagram_join.specs.Turns.Turns.{sent, received, moments_of, in_turn, turns_of};

use crate::turns::sends::Sends;
use chart::InstanceNo;
use diagrams::Message;
use std::alloc::{AllocError, Global};

/// The moment of an event, and its instance.
#[derive(Clone, Copy, Debug)]
pub(crate) struct Moment {
    /// Twice its row, and one more for a receive that comes after all sends of the row.
    pub turn: u128,
    pub instance: InstanceNo,
}

/// The moment of a message's send.
fn sent(message: &Message) -> Moment
    ensures { result ≡ sent message.now }
{
    Moment {
        turn: 2 * u128::from(message.begins),
        instance: message.sender,
    }
}

/// The moment of a message's receive.
fn received(sends: &Sends, message: &Message) -> Moment
    ensures { (all : List Message) → AreSends sends.now.spots.entries all → result ≡ received all message.now }
{
    let behind = if sends.has(message.ends, message.receiver) {
        1
    } else {
        0
    };
    Moment {
        turn: 2 * u128::from(message.ends) + behind,
        instance: message.receiver,
    }
}

/// Appends the events of a message.
fn add_moments(
    moments: &mut Vec<Moment>,
    sends: &Sends,
    message: &Message,
) -> Result<(), AllocError>
    ensures { (all : List Message) → AreSends sends.now.spots.entries all
        → OnOk result (moments.new.items ≡ moments.old.items ++ moments_of all message.now) }
{
    moments.push(sent(message))?;
    if !message.is_lost {
        moments.push(received(sends, message))?;
    }
    Ok(())
}

/// The events of these messages, in the order of the text.
fn all_moments(alloc: Global, messages: &[Message]) -> Result<Vec<Moment>, AllocError>
    ensures { IfOk result (λ moments. moments.items ≡ flat_map (moments_of messages.now) messages.now) }
{
    let sends = Sends::of(alloc, messages)?;
    let mut moments = Vec::new(alloc);
    for message in messages {
        add_moments(&mut moments, &sends, message)?;
    }
    Ok(moments)
}

/// Sorts the events by their moments.
fn put_in_turn(moments: &mut Vec<Moment>) -> Result<(), AllocError>
    ensures { OnOk result (moments.new.items ≡ in_turn moments.old.items) }
{
    moments.sort_by_key(|moment| moment.turn)?;
    Ok(())
}

/// The turns of these messages, from the top. F6 is the only refusal. The time is in proportion to n log n for n
/// messages.
#[tactic(auto, unfolding(crate::specs::Turns::Turns::turns_of))]
pub fn turns_of(alloc: Global, messages: &[Message]) -> Result<Vec<InstanceNo>, AllocError>
    ensures { IfOk result (λ turns. turns.items ≡ turns_of messages.now) }
{
    let mut moments = all_moments(alloc, messages)?;
    put_in_turn(&mut moments)?;
    moments.iter().map(|moment| moment.instance).collect(alloc)
}
