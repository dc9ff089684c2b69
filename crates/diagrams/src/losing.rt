//! Lost messages.
ghost use Rattle.std.specs.Prelude.{◌≡◌, ◌∷◌, List, OnOk, IfOk, reverse, map};
ghost use Rattle.diagrams.specs.Losing.{is_left_out, kept, with_lost};
ghost use Rattle.diagrams.specs.Later.{AreMarked};
ghost use Rattle.diagrams.specs.declared.message.Message.{Message};

use crate::lanes::Lanes;
use crate::left_out::{Kind, LeftOut, leave_out};
use crate::message::Message;
use std::alloc::{AllocError, Global};

/// Whether a message is skipped. The table has 1 for each lane on which a later message is received.
fn pass(marked: &mut Lanes, message: &Message) -> bool
    ensures value { (later : List Message) → AreMarked marked.old later → result ≡ is_left_out message.now later }
    ensures marked { (later : List Message) → AreMarked marked.old later
        → AreMarked marked.new (message.now ∷ later) }
{
    if message.is_lost {
        return marked.at(message.sender, message.receiver) == 1;
    }
    marked.set(message.sender, message.receiver, 1);
    false
}

/// The messages without the skipped ones, which are added to the skipped constructs. A lost message is skipped if a
/// later message of its lane is received.
pub fn without_lost(
    alloc: Global,
    messages: &[Message],
    left_out: &mut Vec<LeftOut>,
) -> Result<Vec<Message>, AllocError>
    ensures kept { IfOk result (λ messages'. messages'.items ≡ kept messages.now) }
    ensures left_out { OnOk result (left_out.new.items ≡ with_lost left_out.old.items messages.now) }
{
    let mut marked = Lanes::zeros(alloc)?;
    let mut staying = Vec::new(alloc);
    let mut count = messages.len();
    'messages: while count > 0 {
        count -= 1;
        let message = messages[count];
        if pass(&mut marked, &message) {
            leave_out(left_out, Kind::LostMessage, message.place)?;
        } else {
            staying.push(message)?;
        }
    }
    staying.reverse();
    Ok(staying)
}
