//! Sends over a handle.
ghost use Rattle.std.specs.Prelude.{◌≡◌, ◌<◌, ◌≤◌, length, IfOk, IfErr};
ghost use Rattle.chart.specs.declared.message.TheConstants.{MAX_BODY};
ghost use Rattle.c_board.specs.Sending.{PostSends, HandleSends, MakesMessage, of_message, of_unsent};

use crate::handle::Handle;
use crate::misuse::{Misuse, Numbering};
use crate::numbered::Numbered;
use crate::post_state::PostState;
use board::SendError;
use chart::{EventNo, InstanceNo, MAX_BODY, Message, Name, NameError};
use std::alloc::{AllocError, Global};

/// Why bytes make no message.
#[derive(Clone, Copy)]
pub enum MessageRefusal {
    /// F1 to F4: the bytes are no name.
    Naming(NameError),
    /// F5: the body has more than [`chart::MAX_BODY`] bytes.
    BodyTooLong,
    /// F6: the copy was refused. A body of no bytes needs none.
    Memory,
}

/// Why nothing is sent.
#[derive(Clone, Copy)]
pub enum SendRefusal {
    /// The handle keeps no post, or the lengths of several messages don't add up.
    Misuse(Misuse),
    /// F14: the instance's number is 0, or greater than [`chart::MAX_INSTANCES`].
    NoInstance,
    /// F1 to F6: the bytes make no message.
    Message(MessageRefusal),
    /// The post refuses it.
    Post(SendError),
}

impl Numbered for MessageRefusal {
    ghost number = { λ _ refusal. of_message refusal };

    #[inline(always)]
    fn number(self, misuses: Numbering) -> u32 {
        match self {
            MessageRefusal::Naming(error) => error.number(misuses),
            MessageRefusal::BodyTooLong => 5,
            MessageRefusal::Memory => 6,
        }
    }
}

impl Numbered for SendRefusal {
    ghost number = { of_unsent };

    #[inline(always)]
    fn number(self, misuses: Numbering) -> u32 {
        match self {
            SendRefusal::Misuse(misuse) => misuse.number(misuses),
            SendRefusal::NoInstance => 14,
            SendRefusal::Message(refusal) => refusal.number(misuses),
            SendRefusal::Post(error) => error.number(misuses),
        }
    }
}

/// A copy of these bytes. One of no bytes needs no memory.
fn copied(alloc: Global, bytes: &[u8]) -> Result<Vec<u8>, AllocError>
    ensures copy { IfOk result (λ copy. copy.items ≡ bytes.now) }
    ensures refused { IfErr result (λ _. 0 < length bytes.now) }
{
    if bytes.is_empty() {
        return Ok(Vec::new(alloc));
    }
    let mut copy = Vec::with_capacity(alloc, bytes.len())?;
    copy.extend_from_slice(bytes)?;
    Ok(copy)
}

/// The message with these bytes. The first of F1 to F6 that applies refuses it.
pub(crate) fn message_of(alloc: Global, name: &[u8], body: &[u8]) -> Result<Message, MessageRefusal>
    ensures { MakesMessage name.now body.now result }
{
    let name = match Name::new(name) {
        Ok(name) => name,
        Err(error) => return Err(MessageRefusal::Naming(error)),
    };
    if body.len() > MAX_BODY {
        return Err(MessageRefusal::BodyTooLong);
    }
    let body = match copied(alloc, body) {
        Ok(body) => body,
        Err(AllocError) => return Err(MessageRefusal::Memory),
    };
    match Message::new(name, body) {
        Ok(message) => Ok(message),
        Err(_) => unreachable!(),
    }
}

impl PostState {
    /// Sends a message with this name and body.
    #[inline(always)]
    pub(crate) fn send(
        &mut self,
        alloc: Global,
        to: u32,
        name: &[u8],
        body: &[u8],
    ) -> Result<EventNo, SendRefusal>
        ensures { PostSends self.old to name.now body.now result self.new }
    {
        let Some(to) = InstanceNo::new(to as usize) else {
            return Err(SendRefusal::NoInstance);
        };
        if let Err(error) = self.known.know(name) {
            return Err(SendRefusal::Message(MessageRefusal::Naming(error)));
        }
        if body.len() > MAX_BODY {
            return Err(SendRefusal::Message(MessageRefusal::BodyTooLong));
        }
        let body = match copied(alloc, body) {
            Ok(body) => body,
            Err(AllocError) => return Err(SendRefusal::Message(MessageRefusal::Memory)),
        };
        let Ok(message) = Message::new(self.known.name, body) else {
            unreachable!()
        };
        let words = &(*self.table).shared;
        match self.parked.send(words, to, message) {
            Ok(sent) => Ok(sent.event),
            Err(refused) => Err(SendRefusal::Post(refused.1)),
        }
    }
}

impl Handle {
    /// Sends a message with this name and body from the post, and returns its event. F14 for a number that no instance
    /// has, F1 to F5, and F6 for the copy of the body refuse it before the post does. Then nothing has changed.
    ///
    /// While there is room for events ([`Handle::reserve`]), a message with an empty body is refused no memory on a
    /// board of up to [`clock::INLINE_ENTRIES`] instances, nor from a post that has received nothing.
    pub fn send(
        &mut self,
        alloc: Global,
        to: u32,
        name: &[u8],
        body: &[u8],
    ) -> Result<EventNo, SendRefusal>
        ensures { HandleSends self.old.slot.value to name.now body.now result self.new.slot.value }
    {
        let Some(post) = self.post_mut() else {
            return Err(SendRefusal::Misuse(Misuse::NoPost));
        };
        post.send(alloc, to, name, body)
    }
}
