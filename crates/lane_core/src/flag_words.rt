//! The two ends over slot words: each slot has a word of two bits. The sender sets the bits, and the receiver clears
//! the first. An end loads only the word of its own next slot.
ghost use Rattle.std.specs.Prelude.{IsTrue, ◌↔◌, ◌≡◌, ◌+◌, ◌<◌, ◌^◌, true, false};
ghost use Rattle.lane_core.specs.FlagWords.{new_word, new_sender, sender_slot, sender_loaded, room_in, sender_filled};
ghost use Rattle.lane_core.specs.FlagWords.{full_word, sender_published, end_word, sender_closed, next_sender_step};
ghost use Rattle.lane_core.specs.FlagWords.{MayFill, MayPublish, MayClose, MaySend, SenderFits, new_receiver};
ghost use Rattle.lane_core.specs.FlagWords.{receiver_slot, receiver_loaded, found_in, receiver_took, receiver_put_back};
ghost use Rattle.lane_core.specs.FlagWords.{free_word, receiver_freed, next_receiver_step, MayTake, MayPutBack};
ghost use Rattle.lane_core.specs.FlagWords.{MayFree, MayReceive, ReceiverFits};

use crate::answers::{Found, ReceiverStep, Room, SenderStep};
use crate::index_words::LIMIT;

/// The word of a slot.
#[derive(Clone, Copy, Debug, PartialEq, Eq)]
pub struct Word {
    /// Whether the slot has a waiting message.
    pub full: bool,
    /// Whether the lane was closed when this slot was the sender's next. It may be set while the slot is full.
    pub end: bool,
}

impl Word {
    /// The word of a slot of a new lane.
    #[inline]
    pub fn new() -> Word
        ensures { result ≡ new_word }
    {
        Word {
            full: false,
            end: false,
        }
    }
}

/// The sender of a lane.
#[derive(Clone, Copy, Debug, PartialEq, Eq)]
pub struct SenderEnd {
    /// How many slots the lane has, at least 1.
    pub(crate) capacity: u64,
    /// How many messages it published.
    pub(crate) put: u64,
    /// Whether it claims its next slot.
    pub(crate) claims: bool,
    /// Whether it has filled that slot.
    pub(crate) filled: bool,
    /// Whether it closed the lane.
    pub(crate) closed: bool,
}

impl SenderEnd {
    /// The sender of a new lane of `capacity` slots.
    #[inline]
    pub fn new(capacity: u64) -> SenderEnd
        ensures { result ≡ new_sender capacity }
    {
        SenderEnd {
            capacity,
            put: 0,
            claims: false,
            filled: false,
            closed: false,
        }
    }

    /// Its next slot: it loads this slot's word, and fills this slot.
    pub fn slot(&self) -> u64
        requires { SenderFits self.now }
        ensures { result ≡ sender_slot self.now }
    {
        self.put % self.capacity
    }

    /// Whether it has a slot to fill.
    pub fn can_fill(&self) -> bool
        ensures { IsTrue result ↔ MayFill self.now }
    {
        self.claims && !self.filled
    }

    /// Whether it has something to publish on an open lane.
    pub fn can_publish(&self) -> bool
        ensures { IsTrue result ↔ MayPublish self.now }
    {
        !self.closed && self.filled
    }

    /// Whether the lane is open.
    pub fn can_close(&self) -> bool
        ensures { IsTrue result ↔ MayClose self.now }
    {
        !self.closed
    }

    /// Whether its count fits: it is below 2^62, and the lane has a slot.
    pub fn fits(&self) -> bool
        ensures { IsTrue result ↔ SenderFits self.now }
    {
        0 < self.capacity && self.put < LIMIT
    }

    /// The next step of a send. A filled slot is published, a claimed slot is filled, and otherwise a word is loaded.
    pub fn next(&self) -> SenderStep
        ensures step { result ≡ next_sender_step self.now }
        ensures allowed { self.now.closed ≡ false → MaySend self.now result }
    {
        if self.filled {
            SenderStep::Publish
        } else if self.claims {
            SenderStep::Fill
        } else {
            SenderStep::Load
        }
    }

    /// Loads the word of its next slot: the sender claims the slot unless it is full.
    pub fn load(&mut self, word: Word) -> Room
        ensures after { self.new ≡ sender_loaded self.old word }
        ensures found { result ≡ room_in word }
    {
        if word.full {
            self.claims = false;
            Room::Full
        } else {
            self.claims = true;
            Room::Vacant
        }
    }

    /// Counts its next slot as filled.
    pub fn fill(&mut self)
        requires { MayFill self.old }
        ensures { self.new ≡ sender_filled self.old }
    {
        self.filled = true;
    }

    /// Publishes the message in its next slot, and returns the slot's new word: the full bit is set.
    pub fn publish(&mut self, mut word: Word) -> Word
        requires fits { SenderFits self.old }
        requires allowed { MayPublish self.old }
        ensures after { self.new ≡ sender_published self.old }
        ensures word { result ≡ full_word word }
    {
        self.put += 1;
        self.claims = false;
        self.filled = false;
        word.full = true;
        word
    }

    /// Closes the lane, and returns the new word of its next slot: the end bit is set, even if the slot is full.
    pub fn close(&mut self, mut word: Word) -> Word
        requires { MayClose self.old }
        ensures after { self.new ≡ sender_closed self.old }
        ensures word { result ≡ end_word word }
    {
        self.claims = false;
        self.filled = false;
        self.closed = true;
        word.end = true;
        word
    }
}

/// The receiver of a lane.
#[derive(Clone, Copy, Debug, PartialEq, Eq)]
pub struct ReceiverEnd {
    /// How many slots the lane has, at least 1.
    pub(crate) capacity: u64,
    /// How many messages it freed.
    pub(crate) taken: u64,
    /// Whether it claims its next slot.
    pub(crate) claims: bool,
    /// Whether it has taken that slot's message, and not put it back.
    pub(crate) emptied: bool,
}

impl ReceiverEnd {
    /// The receiver of a new lane of `capacity` slots.
    #[inline]
    pub fn new(capacity: u64) -> ReceiverEnd
        ensures { result ≡ new_receiver capacity }
    {
        ReceiverEnd {
            capacity,
            taken: 0,
            claims: false,
            emptied: false,
        }
    }

    /// Its next slot: it loads this slot's word, and takes from this slot.
    pub fn slot(&self) -> u64
        requires { ReceiverFits self.now }
        ensures { result ≡ receiver_slot self.now }
    {
        self.taken % self.capacity
    }

    /// Whether it has a slot to take from.
    pub fn can_take(&self) -> bool
        ensures { IsTrue result ↔ MayTake self.now }
    {
        self.claims && !self.emptied
    }

    /// Whether it has something to put back, or to free.
    pub fn can_free(&self) -> bool
        ensures back { IsTrue result ↔ MayPutBack self.now }
        ensures free { IsTrue result ↔ MayFree self.now }
    {
        self.emptied
    }

    /// Whether its count fits: it is below 2^62, and the lane has a slot.
    pub fn fits(&self) -> bool
        ensures { IsTrue result ↔ ReceiverFits self.now }
    {
        0 < self.capacity && self.taken < LIMIT
    }

    /// The next step of a receive. A taken message is freed, a message is taken from a claimed slot, and otherwise a
    /// word is loaded.
    pub fn next(&self) -> ReceiverStep
        ensures step { result ≡ next_receiver_step self.now }
        ensures allowed { MayReceive self.now result }
    {
        if self.emptied {
            ReceiverStep::Free
        } else if self.claims {
            ReceiverStep::Take
        } else {
            ReceiverStep::Look
        }
    }

    /// Loads the word of its next slot: the receiver claims the slot if it is full. The lane has ended if the slot
    /// isn't full and has the end bit.
    pub fn load(&mut self, word: Word) -> Found
        ensures after { self.new ≡ receiver_loaded self.old word }
        ensures found { result ≡ found_in word }
    {
        self.claims = word.full;
        match (word.full, word.end) {
            (true, _) => Found::Message,
            (false, true) => Found::Ended,
            (false, false) => Found::Nothing,
        }
    }

    /// Counts the message of its next slot as taken.
    pub fn take(&mut self)
        requires { MayTake self.old }
        ensures { self.new ≡ receiver_took self.old }
    {
        self.emptied = true;
    }

    /// Counts the message as put back into the slot. The receiver keeps its claim.
    pub fn put_back(&mut self)
        requires { MayPutBack self.old }
        ensures { self.new ≡ receiver_put_back self.old }
    {
        self.emptied = false;
    }

    /// Frees its next slot, and returns the slot's new word: only the full bit is cleared.
    pub fn free(&mut self, mut word: Word) -> Word
        requires fits { ReceiverFits self.old }
        requires allowed { MayFree self.old }
        ensures after { self.new ≡ receiver_freed self.old }
        ensures word { result ≡ free_word word }
    {
        self.taken += 1;
        self.claims = false;
        self.emptied = false;
        word.full = false;
        word
    }
}
