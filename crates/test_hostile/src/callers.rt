//! The calls that make the deeds of a schedule: those of posts, with one message or a list at a time, or those of
//! mailboxes.
use board::{Arrival, Post, SendError, TakeError, Taken, TakenMany};
use chart::{InstanceNo, Message};
use mailbox::{Mailbox, any_from};
use std::alloc::Global;

/// An instance that sends and receives by some kind of calls.
pub trait Caller<'a>: Drop {
    fn over(alloc: Global, post: Post<'a>) -> Self;

    /// Sends the message, or gives it back.
    fn send(&mut self, to: InstanceNo, message: Message) -> Result<(), (Message, SendError)>;

    /// Receives the first message that waits on the lane from an instance, if any does.
    fn receive(&mut self, from: InstanceNo) -> Result<Option<Arrival>, TakeError>;

    /// Receives a message from any instance that has one.
    fn any(&mut self) -> Result<Option<Arrival>, TakeError>;
}

/// The message, if one was taken.
fn arrival(taken: Taken) -> Option<Arrival> {
    match taken {
        Taken::Got(arrival) => Some(arrival),
        Taken::Nothing | Taken::Ended => None,
    }
}

impl<'a> Caller<'a> for Mailbox<'a> {
    fn over(_alloc: Global, post: Post<'a>) -> Mailbox<'a> {
        Mailbox::new(post)
    }

    fn send(&mut self, to: InstanceNo, message: Message) -> Result<(), (Message, SendError)> {
        match Mailbox::send(self, to, message) {
            Ok(_) => Ok(()),
            Err(refused) => Err(refused),
        }
    }

    fn receive(&mut self, from: InstanceNo) -> Result<Option<Arrival>, TakeError> {
        Ok(arrival(Mailbox::receive(self, from)?))
    }

    fn any(&mut self) -> Result<Option<Arrival>, TakeError> {
        Ok(arrival(Mailbox::any(self)?))
    }
}

/// A post that passes one message with each call, and the instance from which it last received.
#[derive(Drop)]
pub struct Single<'a> {
    post: Post<'a>,
    last: Option<InstanceNo>,
}

impl<'a> Caller<'a> for Single<'a> {
    fn over(_alloc: Global, post: Post<'a>) -> Single<'a> {
        Single { post, last: None }
    }

    fn send(&mut self, to: InstanceNo, message: Message) -> Result<(), (Message, SendError)> {
        match self.post.send(to, message) {
            Ok(_) => Ok(()),
            Err(refused) => Err(refused),
        }
    }

    fn receive(&mut self, from: InstanceNo) -> Result<Option<Arrival>, TakeError> {
        Ok(arrival(self.post.receive(from)?))
    }

    fn any(&mut self) -> Result<Option<Arrival>, TakeError> {
        // (it was received from, so it is an instance of the board)
        let last = match self.last {
            Some(last) if last.number() <= self.post.board_size() => Some(last),
            _ => None,
        };
        let found = arrival(any_from(&mut self.post, last)?);
        if let Some(arrival) = &found {
            self.last = Some(arrival.from);
        }
        Ok(found)
    }
}

/// A post that passes a list of messages with each call. The list has one message here.
#[derive(Drop)]
pub struct Listed<'a> {
    single: Single<'a>,
    alloc: Global,
}

impl<'a> Caller<'a> for Listed<'a> {
    fn over(alloc: Global, post: Post<'a>) -> Listed<'a> {
        Listed {
            single: Single { post, last: None },
            alloc,
        }
    }

    fn send(&mut self, to: InstanceNo, message: Message) -> Result<(), (Message, SendError)> {
        let mut list = Vec::new(self.alloc);
        if let Err(refused) = list.push(message) {
            return Err((refused.value, SendError::Memory));
        }
        match self.single.post.send_all(to, list) {
            Ok(_) => Ok(()),
            Err((mut back, error)) => match back.pop() {
                Some(message) => Err((message, error)),
                // (if the message is lost here, its receiver will miss it)
                None => Ok(()),
            },
        }
    }

    fn receive(&mut self, from: InstanceNo) -> Result<Option<Arrival>, TakeError> {
        match self.single.post.receive_up_to(from, 1)? {
            TakenMany::Got { mut arrivals, .. } => Ok(arrivals.pop()),
            TakenMany::Nothing | TakenMany::Ended => Ok(None),
        }
    }

    fn any(&mut self) -> Result<Option<Arrival>, TakeError> {
        self.single.any()
    }
}
