//! Messages that cross: no chart is possible with them.
ghost use Rattle.std.specs.Prelude.{◌≡◌, ◌∷◌, ◌++◌, [], List, IfOk};
ghost use Rattle.diagrams.specs.Crossing.{overtakes, crosses, fault_beside, fault_with, fault_from, is_known};
ghost use Rattle.diagrams.specs.Ends.{AreFurthest};
ghost use Rattle.diagrams.specs.declared.message.Message.{Message};

use crate::collecting::first_line;
use crate::lanes::Lanes;
use crate::message::Message;
use std::alloc::{AllocError, Global};

/// Whether the message is received above the other one, on the same lane.
pub fn overtakes(message: &Message, other: &Message) -> bool
    ensures { result ≡ overtakes message.now other.now }
{
    !message.is_lost
        && (((other.sender == message.sender && other.receiver == message.receiver)
            && !other.is_lost)
            && message.ends < other.ends)
}

/// The first fault, with these two messages. If the message overtakes the other, no chart is possible with the later of
/// their lines.
fn fault_beside(fault: Option<u64>, message: &Message, other: &Message) -> Option<u64>
    ensures { result ≡ fault_beside fault message.now other.now }
{
    if overtakes(message, other) {
        first_line(fault, message.whole.max(other.whole))
    } else {
        fault
    }
}

/// The first line with which no chart is possible, if the message comes after the earlier ones.
fn fault_with(fault: Option<u64>, message: &Message, earlier: &[Message]) -> Option<u64>
    ensures { result ≡ fault_with fault message.now earlier.now }
{
    let mut first = fault;
    for other in earlier {
        first = fault_beside(first, message, other);
    }
    first
}

/// Whether there is a fault in this line or above.
fn is_known(fault: Option<u64>, line: u64) -> bool
    ensures { result ≡ is_known fault line }
{
    match fault {
        None => false,
        Some(first) => first <= line,
    }
}

/// Whether the message overtakes an earlier one. For each lane the table has the row furthest down in which an earlier
/// message is received.
pub fn crosses(furthest: &mut Lanes, message: &Message) -> bool
    ensures value { (earlier : List Message) → AreFurthest furthest.old earlier → result ≡ crosses earlier message.now }
    ensures furthest { (earlier : List Message) → AreFurthest furthest.old earlier
        → AreFurthest furthest.new (earlier ++ message.now ∷ []) }
{
    if message.is_lost {
        return false;
    }
    let row = furthest.at(message.sender, message.receiver);
    furthest.set(message.sender, message.receiver, message.ends.max(row));
    message.ends < row
}

/// The first fault, with one more message. The earlier messages are compared only if it overtakes one of them, and only
/// for a line above the known fault.
fn add(
    furthest: &mut Lanes,
    fault: Option<u64>,
    message: &Message,
    earlier: &[Message],
) -> Option<u64>
    ensures fault { AreFurthest furthest.old earlier.now → result ≡ fault_with fault message.now earlier.now }
    ensures furthest { AreFurthest furthest.old earlier.now → AreFurthest furthest.new (earlier.now ++ message.now ∷ []) }
{
    if !crosses(furthest, message) {
        return fault;
    }
    if is_known(fault, message.whole) {
        return fault;
    }
    fault_with(fault, message, earlier)
}

/// The first line with which no chart is possible, if there is one. It is this one, or the first line with which two
/// messages cross. The later of their two lines counts.
pub fn first_fault(
    alloc: Global,
    fault: Option<u64>,
    messages: &[Message],
) -> Result<Option<u64>, AllocError>
    ensures { IfOk result (λ first. first ≡ fault_from fault [] messages.now) }
{
    let mut furthest = Lanes::zeros(alloc)?;
    let mut first = fault;
    for (place, message) in messages.iter().enumerate() {
        first = add(&mut furthest, first, message, &messages[..place]);
    }
    Ok(first)
}
