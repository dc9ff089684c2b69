//! Several messages sent at once over a handle.
ghost use Rattle.std.specs.Prelude.{◌≡◌, true, false};
ghost use Rattle.c_board.specs.SendingAll.{AddUp, contents_in, first_event, ReadsMessages, PostSendsAll};
ghost use Rattle.c_board.specs.SendingAll.{HandleSendsAll};

use crate::found::MessageLengths;
use crate::handle::Handle;
use crate::misuse::Misuse;
use crate::post_state::PostState;
use crate::sending::{MessageRefusal, SendRefusal, message_of};
use crate::words::word_at;
use board::Sent;
use chart::{InstanceNo, Message};
use std::alloc::{AllocError, Global};

/// Whether the names and the bodies with these lengths are all of these bytes.
fn add_up(bytes: &[u8], lengths: &[MessageLengths]) -> bool
    ensures yes { result ≡ true → AddUp bytes.now lengths.now }
    ensures no { result ≡ false → AddUp bytes.now lengths.now → ⊥ }
{
    let mut left = bytes.len();
    for its in lengths {
        if its.name > left {
            return false;
        }
        left -= its.name;
        if its.body > left {
            return false;
        }
        left -= its.body;
    }
    left == 0
}

/// The messages whose names and bodies are one after another in these bytes, with these lengths. The first of F1 to F6
/// that applies to a message refuses them.
fn messages_in(
    alloc: Global,
    bytes: &[u8],
    lengths: &[MessageLengths],
) -> Result<Vec<Message>, MessageRefusal>
    ensures { ReadsMessages (contents_in bytes.now lengths.now) result }
{
    let mut messages = match Vec::with_capacity(alloc, lengths.len()) {
        Ok(messages) => messages,
        Err(AllocError) => return Err(MessageRefusal::Memory),
    };
    let mut start = 0;
    for its in lengths {
        let name = word_at(bytes, start, its.name);
        start += name.len();
        let body = word_at(bytes, start, its.body);
        start += body.len();
        messages.push_reserved(message_of(alloc, name, body)?);
    }
    Ok(messages)
}

/// The number of the first of these sends, or 0 if there is none.
fn first_event(sents: &[Sent]) -> u32
    ensures { result ≡ first_event sents.now }
{
    match sents.first() {
        Some(sent) => sent.event.index,
        None => 0,
    }
}

impl PostState {
    fn send_all(
        &mut self,
        alloc: Global,
        to: u32,
        bytes: &[u8],
        lengths: &[MessageLengths],
    ) -> Result<u32, SendRefusal>
        ensures { PostSendsAll self.old to bytes.now lengths.now result self.new }
    {
        if !add_up(bytes, lengths) {
            return Err(SendRefusal::Misuse(Misuse::WrongNumber));
        }
        let Some(to) = InstanceNo::new(to as usize) else {
            return Err(SendRefusal::NoInstance);
        };
        let messages = match messages_in(alloc, bytes, lengths) {
            Ok(messages) => messages,
            Err(refusal) => return Err(SendRefusal::Message(refusal)),
        };
        let words = &(*self.table).shared;
        match self.parked.send_all(words, to, messages) {
            Ok(sents) => Ok(first_event(sents.as_slice())),
            Err(refused) => Err(SendRefusal::Post(refused.1)),
        }
    }
}

impl Handle {
    /// Sends all messages whose names and bodies are one after another in `bytes`, with these lengths, or none of them.
    /// The messages are sent one directly after another. It returns the number of the first send, or 0 if there is no
    /// message. Lengths that don't add up to all of the bytes are a misuse. F14 for a number that no instance has, and
    /// F1 to F6 of the messages refuse it before the post does.
    pub fn send_all(
        &mut self,
        alloc: Global,
        to: u32,
        bytes: &[u8],
        lengths: &[MessageLengths],
    ) -> Result<u32, SendRefusal>
        ensures { HandleSendsAll self.old.slot.value to bytes.now lengths.now result self.new.slot.value }
    {
        let Some(post) = self.post_mut() else {
            return Err(SendRefusal::Misuse(Misuse::NoPost));
        };
        post.send_all(alloc, to, bytes, lengths)
    }
}
