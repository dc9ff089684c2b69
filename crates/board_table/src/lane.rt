//! The lane from one instance of a board to another, and the places of its words and slots.
ghost use Rattle.std.specs.Prelude.{◌≡◌, ◌≢◌, ℕ, suc, ◌%◌, ◌≤◌, ◌<◌};
ghost use Rattle.chart.specs.Histories.{AreTwo};
ghost use Rattle.chart.specs.declared.instance.TheConstants.{MAX_INSTANCES};
ghost use Rattle.chart.specs.declared.history.TheConstants.{MAX_CAPACITY};
ghost use Rattle.board_table.specs.Layout.{put_word, taken_word, word_count, slot_of, slot_count};

use crate::Shape;
use chart::{InstanceNo, MAX_CAPACITY, MAX_INSTANCES};
use std::marker::Model;

/// A lane of a board, by its sender and its receiver. Elsewhere a lane is called a channel.
#[derive(Debug, Drop)]
pub struct Lane {
    shape: Shape,
    sender: InstanceNo,
    receiver: InstanceNo,
}

impl Model for Lane {
    ghost use Rattle.std.specs.Prelude.{◌≤◌};
    ghost use Rattle.chart.specs.Histories.{AreTwo};
    ghost use Rattle.chart.specs.declared.instance.TheConstants.{MAX_INSTANCES};
    ghost use Rattle.chart.specs.declared.history.TheConstants.{MAX_CAPACITY};
    ghost use Rattle.board_table.specs.Layout.{LaneView};

    ghost Value = { LaneView };

    ghost view = { λ l. record {
      instances = l.shape.instances;
      capacity = l.shape.capacity;
      sender = l.sender;
      receiver = l.receiver;
    } };

    ghost invariant = { λ l. AreTwo l.shape.instances l.sender l.receiver × (l.shape.instances ≤ MAX_INSTANCES)
        × (1 ≤ l.shape.capacity) × (l.shape.capacity ≤ MAX_CAPACITY) };
}

/// The slot of a lane, from 0, for the message before which `count` were sent: slots are used in turn. If `capacity` is
/// a power of two, this takes no division.
#[inline(always)]
fn slot_in_turn(count: usize, capacity: usize) -> usize
    requires { 1 ≤ capacity }
    ensures { result ≡ count % capacity }
{
    if capacity & (capacity - 1) == 0 {
        count & (capacity - 1)
    } else {
        count % capacity
    }
}

impl Lane {
    /// The lane between these two instances.
    #[inline(always)]
    pub fn new(shape: &Shape, sender: InstanceNo, receiver: InstanceNo) -> Lane
        requires sized { (shape.now.instances ≤ MAX_INSTANCES) × (1 ≤ shape.now.capacity)
            × (shape.now.capacity ≤ MAX_CAPACITY) }
        requires within { (sender ≤ shape.now.instances) × (receiver ≤ shape.now.instances) }
        requires two { sender ≢ receiver }
        ensures { result ≡ record {
          instances = shape.now.instances;
          capacity = shape.now.capacity;
          sender = sender;
          receiver = receiver;
        } }
    {
        Lane {
            shape: *shape,
            sender,
            receiver,
        }
    }

    /// The lane's sender.
    #[inline(always)]
    pub(crate) fn sender(&self) -> InstanceNo
        ensures value { result ≡ self.now.sender }
        ensures two { AreTwo self.now.instances self.now.sender self.now.receiver }
    {
        self.sender
    }

    /// The lane's receiver.
    #[inline(always)]
    pub fn receiver(&self) -> InstanceNo
        ensures value { result ≡ self.now.receiver }
        ensures two { AreTwo self.now.instances self.now.sender self.now.receiver }
    {
        self.receiver
    }

    /// The number of the word that has twice the number of messages sent, and one more when the lane is closed.
    #[inline(always)]
    pub fn put_word(&self) -> usize
        ensures value { result ≡ put_word self.now.instances self.now.sender self.now.receiver }
        ensures within { result < word_count self.now.instances }
        ensures two { AreTwo self.now.instances self.now.sender self.now.receiver }
        ensures some { 1 ≤ self.now.capacity }
    {
        self.sender.place() * (2 * self.shape.instances + 7) + self.receiver.place()
    }

    /// The same word of the lane from the next instance to the same receiver; `word` is this lane's.
    #[inline(always)]
    pub fn put_word_after(&self, word: usize) -> usize
        requires { word ≡ put_word self.now.instances self.now.sender self.now.receiver }
        ensures { result ≡ put_word self.now.instances (suc self.now.sender) self.now.receiver }
    {
        word + (2 * self.shape.instances + 7)
    }

    /// The number of the word that has the number of messages received.
    #[inline(always)]
    pub(crate) fn taken_word(&self) -> usize
        ensures value { result ≡ taken_word self.now.instances self.now.sender self.now.receiver }
        ensures within { result < word_count self.now.instances }
        ensures two { AreTwo self.now.instances self.now.sender self.now.receiver }
        ensures some { 1 ≤ self.now.capacity }
    {
        self.receiver.place() * (2 * self.shape.instances + 7)
            + self.shape.instances
            + self.sender.place()
    }

    /// The slot of the message before which `count` messages were sent.
    #[inline(always)]
    pub(crate) fn slot(&self, count: u64) -> usize
        ensures value { result ≡ slot_of self.now.instances self.now.capacity self.now.sender self.now.receiver count }
        ensures two { AreTwo self.now.instances self.now.sender self.now.receiver }
        ensures some { 1 ≤ self.now.capacity }
    {
        (self.sender.place() * self.shape.instances + self.receiver.place()) * self.shape.capacity
            + slot_in_turn(count as usize, self.shape.capacity)
    }
}
