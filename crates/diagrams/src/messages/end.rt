//! The ends of messages.
ghost use Rattle.std.specs.Prelude.{◌≡◌, ◌++◌, IfOk, OnOk};
ghost use Rattle.diagrams.specs.Messages.Turns.{send_end, receive_end, ends_of, all_ends, own_ends, in_turn};

use crate::messages::message::Named;
use chart::{InstanceNo, Name};
use std::alloc::{AllocError, Global};

/// An end of a message: its send or its receive.
#[derive(Clone, Copy, Debug)]
pub struct End {
    /// Twice its row, and one more for a receive: a row's sends come before its receives.
    pub turn: u128,
    pub instance: InstanceNo,
    /// The instance at the other end.
    pub partner: InstanceNo,
    pub sends: bool,
    pub name: Name,
}

/// The send of a message.
fn send_end(message: &Named) -> End
    ensures { result ≡ send_end message.now }
{
    End {
        turn: 2 * u128::from(message.begins),
        instance: message.sender,
        partner: message.receiver,
        sends: true,
        name: message.name,
    }
}

/// The receive of a message.
fn receive_end(message: &Named) -> End
    ensures { result ≡ receive_end message.now }
{
    End {
        turn: 2 * u128::from(message.ends) + 1,
        instance: message.receiver,
        partner: message.sender,
        sends: false,
        name: message.name,
    }
}

/// Appends the ends of a message.
fn add_ends(ends: &mut Vec<End>, message: &Named) -> Result<(), AllocError>
    ensures { OnOk result (ends.new.items ≡ ends.old.items ++ ends_of message.now) }
{
    ends.push(send_end(message))?;
    if !message.is_lost {
        ends.push(receive_end(message))?;
    }
    Ok(())
}

/// The ends of these messages, in the order of the text.
pub(crate) fn all_ends(alloc: Global, messages: &[Named]) -> Result<Vec<End>, AllocError>
    ensures { IfOk result (λ ends. ends.items ≡ all_ends messages.now) }
{
    let mut ends = Vec::new(alloc);
    for message in messages {
        add_ends(&mut ends, message)?;
    }
    Ok(ends)
}

/// An instance's ends.
fn own_ends(alloc: Global, instance: InstanceNo, ends: &[End]) -> Result<Vec<End>, AllocError>
    ensures { IfOk result (λ own. own.items ≡ own_ends instance ends.now) }
{
    ends.iter()
        .copied()
        .filter(|end| end.instance == instance)
        .collect(alloc)
}

/// Sorts the ends by their turns.
fn put_in_turn(ends: &mut Vec<End>) -> Result<(), AllocError>
    ensures { OnOk result (ends.new.items ≡ in_turn ends.old.items) }
{
    ends.sort_by_key(|end| end.turn)?;
    Ok(())
}

/// An instance's ends, sorted by their turns.
pub(crate) fn ends_in_turn(
    alloc: Global,
    instance: InstanceNo,
    ends: &[End],
) -> Result<Vec<End>, AllocError>
    ensures { IfOk result (λ own. own.items ≡ in_turn (own_ends instance ends.now)) }
{
    let mut own = own_ends(alloc, instance, ends)?;
    put_in_turn(&mut own)?;
    Ok(own)
}
