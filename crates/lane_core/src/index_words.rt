//! The two ends over index words. The sender stores the word `put`: twice the number of messages that it published, and
//! one more when it has closed the lane. The receiver stores the word `taken`: the number of messages that it freed.
//! Each end loads the other's word, keeps what it loaded, and may continue by this.
ghost use Rattle.std.specs.Prelude.{IsTrue, ◌↔◌, ◌≡◌, ◌+◌, ◌*◌, ◌<◌, ◌≤◌, ◌^◌, false};
ghost use Rattle.lane_core.specs.IndexWords.{new_sender, sender_loaded, room_of, fill_slot, sender_filled};
ghost use Rattle.lane_core.specs.IndexWords.{publish_word, sender_published, close_word, sender_closed};
ghost use Rattle.lane_core.specs.IndexWords.{next_sender_step, MayFill, MayPublish, MayClose, MaySend, new_receiver};
ghost use Rattle.lane_core.specs.IndexWords.{receiver_loaded, found_by, take_slot, receiver_took, back_slot};
ghost use Rattle.lane_core.specs.IndexWords.{receiver_put_back, free_word, receiver_freed, next_receiver_step, MayTake};
ghost use Rattle.lane_core.specs.IndexWords.{MayPutBack, MayFree, MayReceive, SenderFits, ReceiverFits};

use crate::answers::{Found, ReceiverStep, Room, SenderStep};

/// Counts are below this number, so that twice a count, and one more, is still a word.
pub const LIMIT: u64 = 0x4000_0000_0000_0000;

/// The sender of a lane. Its numbers are counts of messages since the lane began.
#[derive(Clone, Copy, Debug, PartialEq, Eq)]
pub struct SenderEnd {
    /// How many slots the lane has, at least 1.
    pub(crate) capacity: u64,
    /// How many messages it published.
    pub(crate) published: u64,
    /// How many messages it has put into slots since then.
    pub(crate) filled: u64,
    /// How many messages were freed, by its last load.
    pub(crate) freed: u64,
    /// Whether it closed the lane.
    pub(crate) closed: bool,
}

impl SenderEnd {
    /// The sender of a new lane of `capacity` slots.
    #[inline]
    pub fn new(capacity: u64) -> SenderEnd
        ensures { result ≡ new_sender capacity }
    {
        SenderEnd {
            capacity,
            published: 0,
            filled: 0,
            freed: 0,
            closed: false,
        }
    }

    /// Whether it may load this word.
    pub fn can_load(&self, taken: u64) -> bool
        ensures { IsTrue result ↔ taken + self.now.capacity < 2 ^ 64 }
    {
        taken <= u64::MAX - self.capacity
    }

    /// Whether it has a slot to fill, and numbers that fit.
    pub fn can_fill(&self) -> bool
        ensures { IsTrue result ↔ (SenderFits self.now × MayFill self.now) }
    {
        self.fits() && self.published + self.filled < self.freed + self.capacity
    }

    /// Whether it has something to publish on an open lane, and numbers that fit.
    pub fn can_publish(&self) -> bool
        ensures { IsTrue result ↔ (SenderFits self.now × MayPublish self.now) }
    {
        self.fits() && !self.closed && 0 < self.filled
    }

    /// Whether the lane is open, and its numbers fit.
    pub fn can_close(&self) -> bool
        ensures { IsTrue result ↔ (SenderFits self.now × MayClose self.now) }
    {
        self.fits() && !self.closed
    }

    /// Whether its numbers fit: they are below 2^62, and the lane has a slot.
    pub fn fits(&self) -> bool
        ensures { IsTrue result ↔ SenderFits self.now }
    {
        0 < self.capacity
            && self.published < LIMIT
            && self.filled < LIMIT - self.published
            && self.freed < LIMIT
            && self.capacity < LIMIT - self.freed
    }

    /// The next step of a send. Filled slots are published, a claimed slot is filled, and otherwise a word is loaded.
    pub fn next(&self) -> SenderStep
        requires { SenderFits self.now }
        ensures step { result ≡ next_sender_step self.now }
        ensures allowed { self.now.closed ≡ false → MaySend self.now result }
    {
        if 0 < self.filled {
            SenderStep::Publish
        } else if self.published + self.filled < self.freed + self.capacity {
            SenderStep::Fill
        } else {
            SenderStep::Load
        }
    }

    /// Loads the word `taken`: the sender claims the slots up to this count plus the capacity.
    pub fn load(&mut self, taken: u64) -> Room
        requires { taken + self.old.capacity < 2 ^ 64 }
        ensures after { self.new ≡ sender_loaded self.old taken }
        ensures found { result ≡ room_of (sender_loaded self.old taken) }
    {
        self.freed = taken;
        if self.published < self.freed + self.capacity {
            Room::Vacant
        } else {
            Room::Full
        }
    }

    /// Returns the slot that is to be filled next. This slot then counts as filled.
    pub fn fill(&mut self) -> u64
        requires fits { SenderFits self.old }
        requires allowed { MayFill self.old }
        ensures after { self.new ≡ sender_filled self.old }
        ensures slot { result ≡ fill_slot self.old }
    {
        let slot = (self.published + self.filled) % self.capacity;
        self.filled += 1;
        slot
    }

    /// Returns the word `put` that publishes the filled slots.
    pub fn publish(&mut self) -> u64
        requires fits { SenderFits self.old }
        requires allowed { MayPublish self.old }
        ensures after { self.new ≡ sender_published self.old }
        ensures word { result ≡ publish_word self.old }
    {
        self.published += self.filled;
        self.filled = 0;
        2 * self.published
    }

    /// Returns the word `put` that closes the lane. It keeps the count.
    pub fn close(&mut self) -> u64
        requires fits { SenderFits self.old }
        requires allowed { MayClose self.old }
        ensures after { self.new ≡ sender_closed self.old }
        ensures word { result ≡ close_word self.old }
    {
        self.filled = 0;
        self.closed = true;
        2 * self.published + 1
    }
}

/// The receiver of a lane. Its numbers are counts of messages since the lane began.
#[derive(Clone, Copy, Debug, PartialEq, Eq)]
pub struct ReceiverEnd {
    /// How many slots the lane has, at least 1.
    pub(crate) capacity: u64,
    /// How many messages it freed.
    pub(crate) freed: u64,
    /// How many messages it has taken out of slots since then, and not put back.
    pub(crate) emptied: u64,
    /// How many messages were published, by its last load.
    pub(crate) published: u64,
    /// Whether the lane was closed, by its last load.
    pub(crate) closed: bool,
}

impl ReceiverEnd {
    /// The receiver of a new lane of `capacity` slots.
    #[inline]
    pub fn new(capacity: u64) -> ReceiverEnd
        ensures { result ≡ new_receiver capacity }
    {
        ReceiverEnd {
            capacity,
            freed: 0,
            emptied: 0,
            published: 0,
            closed: false,
        }
    }

    /// Whether it has a slot to take from, and numbers that fit.
    pub fn can_take(&self) -> bool
        ensures { IsTrue result ↔ (ReceiverFits self.now × MayTake self.now) }
    {
        self.fits() && self.freed + self.emptied < self.published
    }

    /// Whether it has something to put back, and numbers that fit.
    pub fn can_put_back(&self) -> bool
        ensures { IsTrue result ↔ (ReceiverFits self.now × MayPutBack self.now) }
    {
        self.fits() && 0 < self.emptied
    }

    /// Whether it has something to free, and numbers that fit.
    pub fn can_free(&self) -> bool
        ensures { IsTrue result ↔ (ReceiverFits self.now × MayFree self.now) }
    {
        self.fits() && 0 < self.emptied
    }

    /// Whether its numbers fit: they are below 2^62, and the lane has a slot.
    pub fn fits(&self) -> bool
        ensures { IsTrue result ↔ ReceiverFits self.now }
    {
        0 < self.capacity && self.freed < LIMIT && self.emptied < LIMIT - self.freed
    }

    /// The next step of a receive. Taken messages are freed, a message is taken from a claimed slot, and otherwise a
    /// word is loaded.
    pub fn next(&self) -> ReceiverStep
        requires { ReceiverFits self.now }
        ensures step { result ≡ next_receiver_step self.now }
        ensures allowed { MayReceive self.now result }
    {
        if 0 < self.emptied {
            ReceiverStep::Free
        } else if self.freed + self.emptied < self.published {
            ReceiverStep::Take
        } else {
            ReceiverStep::Look
        }
    }

    /// Loads the word `put`: the receiver claims the slots up to its count. The lane has ended if it claims no slot and
    /// the word has the closed bit.
    pub fn load(&mut self, put: u64) -> Found
        ensures after { self.new ≡ receiver_loaded self.old put }
        ensures found { result ≡ found_by (receiver_loaded self.old put) }
    {
        self.published = put / 2;
        self.closed = put % 2 == 1;
        if self.freed < self.published {
            Found::Message
        } else if self.closed {
            Found::Ended
        } else {
            Found::Nothing
        }
    }

    /// Returns the slot from which the next message is to be taken. This message then counts as taken.
    pub fn take(&mut self) -> u64
        requires fits { ReceiverFits self.old }
        requires allowed { MayTake self.old }
        ensures after { self.new ≡ receiver_took self.old }
        ensures slot { result ≡ take_slot self.old }
    {
        let slot = (self.freed + self.emptied) % self.capacity;
        self.emptied += 1;
        slot
    }

    /// Returns the slot into which the last taken message goes back. The receiver keeps its claim.
    pub fn put_back(&mut self) -> u64
        requires fits { ReceiverFits self.old }
        requires allowed { MayPutBack self.old }
        ensures after { self.new ≡ receiver_put_back self.old }
        ensures slot { result ≡ back_slot self.old }
    {
        self.emptied -= 1;
        (self.freed + self.emptied) % self.capacity
    }

    /// Returns the word `taken` that frees the slots from which it has taken.
    pub fn free(&mut self) -> u64
        requires fits { ReceiverFits self.old }
        requires allowed { MayFree self.old }
        ensures after { self.new ≡ receiver_freed self.old }
        ensures word { result ≡ free_word self.old }
    {
        self.freed += self.emptied;
        self.emptied = 0;
        self.freed
    }
}
