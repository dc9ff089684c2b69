//! The end through which an instance passes messages in a round: a post of a board, or rings by hand.
use crate::rings::{Instance, Message as HandMessage, make_instances};
use board::{Board, Post, SendError, Taken, TakenMany};
use chart::{InstanceNo, Message, Name, Report};
use std::alloc::Global;

/// A message could not be made or not be passed. (A result with an error of `anyhow` has some 300 bytes, which would be
/// timed.)
#[derive(Clone, Copy)]
pub struct Stopped;

/// The contents of reports: how many events they list, and the sum of the first numbers of their ranges.
#[derive(Clone, Copy)]
pub struct Seen {
    pub listed: u64,
    pub firsts: u64,
}

impl Seen {
    /// Adds a range of a report, with the number of its first event and the number of its events.
    #[inline(always)]
    fn add(&mut self, first: u32, count: u64) {
        self.listed = self.listed.saturating_add(count);
        self.firsts = self.firsts.saturating_add(u64::from(first));
    }
}

/// An instance's end. Instances are named by their places, from 0. All messages have one name.
pub trait End {
    /// Sends a message with this body. It returns whether the lane had a slot.
    fn send(&mut self, to: usize, body: Vec<u8>) -> Result<bool, Stopped>;

    /// Receives a message, and adds its report to `seen`. It returns whether a message waited.
    fn receive(&mut self, from: usize, seen: &mut Seen) -> Result<bool, Stopped>;

    /// Sends this number of messages, with bodies of `body` bytes, by one call if there is such a call.
    fn send_batch(
        &mut self,
        alloc: Global,
        to: usize,
        body: usize,
        many: usize,
    ) -> Result<(), Stopped>;

    /// Receives this number of messages, by one call if there is such a call, and adds their reports to `seen`.
    fn receive_batch(&mut self, from: usize, many: usize, seen: &mut Seen) -> Result<(), Stopped>;
}

/// A post of a board.
#[derive(Drop)]
pub struct PostEnd<'a> {
    post: Post<'a>,
    name: Name,
}

/// This number of messages, with bodies of `body` bytes.
fn messages_of(
    alloc: Global,
    name: Name,
    body: usize,
    many: usize,
) -> Result<Vec<Message>, Stopped> {
    let Ok(mut messages) = Vec::with_capacity(alloc, many) else {
        return Err(Stopped);
    };
    for _ in 0..many {
        let message = message_of(alloc, name, body)?;
        if messages.push(message).is_err() {
            return Err(Stopped);
        }
    }
    Ok(messages)
}

/// A message with a body of this number of bytes.
fn message_of(alloc: Global, name: Name, body: usize) -> Result<Message, Stopped> {
    let Ok(body) = body_of(alloc, body) else {
        return Err(Stopped);
    };
    match Message::new(name, body) {
        Ok(message) => Ok(message),
        Err(_) => Err(Stopped),
    }
}

/// A body of this number of bytes.
pub fn body_of(alloc: Global, bytes: usize) -> Result<Vec<u8>, Stopped> {
    match vec![in alloc; 0; bytes] {
        Ok(body) => Ok(body),
        Err(_) => Err(Stopped),
    }
}

/// Adds a report to `seen`.
#[inline(always)]
fn see(report: &Report, seen: &mut Seen) {
    for range in report.earlier().as_slice() {
        seen.add(range.first.index, range.count as u64);
    }
}

impl<'a> End for PostEnd<'a> {
    #[inline(always)]
    fn send(&mut self, to: usize, body: Vec<u8>) -> Result<bool, Stopped> {
        let Some(to) = InstanceNo::new(to.saturating_add(1)) else {
            return Err(Stopped);
        };
        let Ok(message) = Message::new(self.name, body) else {
            return Err(Stopped);
        };
        match self.post.send(to, message) {
            Ok(_) => Ok(true),
            Err((_, SendError::Full)) => Ok(false),
            Err(_) => Err(Stopped),
        }
    }

    #[inline(always)]
    fn receive(&mut self, from: usize, seen: &mut Seen) -> Result<bool, Stopped> {
        let Some(from) = InstanceNo::new(from.saturating_add(1)) else {
            return Err(Stopped);
        };
        match self.post.receive(from) {
            Ok(Taken::Got(arrival)) => {
                see(&arrival.report, seen);
                Ok(true)
            }
            Ok(Taken::Nothing) => Ok(false),
            _ => Err(Stopped),
        }
    }

    fn send_batch(
        &mut self,
        alloc: Global,
        to: usize,
        body: usize,
        many: usize,
    ) -> Result<(), Stopped> {
        let Some(to) = InstanceNo::new(to.saturating_add(1)) else {
            return Err(Stopped);
        };
        let messages = messages_of(alloc, self.name, body, many)?;
        match self.post.send_all(to, messages) {
            Ok(_) => Ok(()),
            Err(_) => Err(Stopped),
        }
    }

    fn receive_batch(&mut self, from: usize, many: usize, seen: &mut Seen) -> Result<(), Stopped> {
        let Some(from) = InstanceNo::new(from.saturating_add(1)) else {
            return Err(Stopped);
        };
        match self.post.receive_up_to(from, many.max(1)) {
            Ok(TakenMany::Got { arrivals, .. }) if arrivals.len() == many => {
                for arrival in &arrivals {
                    see(&arrival.report, seen);
                }
                Ok(())
            }
            _ => Err(Stopped),
        }
    }
}

/// The posts of a board, in the order of their instances.
pub fn post_ends(alloc: Global, board: &mut Board) -> anyhow::Result<Vec<PostEnd<'_>>> {
    let name = Name::new(b"m")?;
    let mut ends = Vec::new(alloc);
    for post in board.posts()? {
        ends.push(PostEnd { post, name })?;
    }
    Ok(ends)
}

/// An instance with rings.
#[derive(Drop)]
pub struct HandEnd {
    instance: Instance,
    name: [u8; 32],
}

impl End for HandEnd {
    #[inline(always)]
    fn send(&mut self, to: usize, body: Vec<u8>) -> Result<bool, Stopped> {
        let name = self.name;
        let message = HandMessage { name, body };
        match self.instance.send(to, message) {
            Ok(back) => Ok(back.is_none()),
            Err(_) => Err(Stopped),
        }
    }

    #[inline(always)]
    fn receive(&mut self, from: usize, seen: &mut Seen) -> Result<bool, Stopped> {
        match self.instance.receive(from) {
            Ok(None) => return Ok(false),
            Ok(Some(_message)) => {}
            Err(_) => return Err(Stopped),
        }
        let Some(report) = self.instance.last_report() else {
            return Err(Stopped);
        };
        for range in report.ranges.as_slice() {
            seen.add(range.first, u64::from(range.count));
        }
        Ok(true)
    }

    fn send_batch(
        &mut self,
        alloc: Global,
        to: usize,
        body: usize,
        many: usize,
    ) -> Result<(), Stopped> {
        for _ in 0..many {
            if !self.send(to, body_of(alloc, body)?)? {
                return Err(Stopped);
            }
        }
        Ok(())
    }

    fn receive_batch(&mut self, from: usize, many: usize, seen: &mut Seen) -> Result<(), Stopped> {
        for _ in 0..many {
            if !self.receive(from, seen)? {
                return Err(Stopped);
            }
        }
        Ok(())
    }
}

/// This number of instances with rings, in their order.
pub fn hand_ends(alloc: Global, instances: usize, capacity: usize) -> anyhow::Result<Vec<HandEnd>> {
    let mut name = [0; 32];
    name[0] = b'm';
    let mut ends = Vec::new(alloc);
    for instance in make_instances(alloc, instances, capacity)? {
        ends.push(HandEnd { instance, name })?;
    }
    Ok(ends)
}
