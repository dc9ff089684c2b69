//! Room for the events of a post in a handle.
ghost use Rattle.std.specs.Prelude.{◌≡◌};
ghost use Rattle.c_board.specs.Reserving.{PostReserves, HandleReserves, of_unreserved};

use crate::handle::Handle;
use crate::misuse::{Misuse, Numbering};
use crate::numbered::Numbered;
use crate::post_state::PostState;
use board::Memory;
use chart::MAX_EVENTS;

/// Why no room is made.
#[derive(Clone, Copy)]
pub enum ReserveRefusal {
    /// The handle keeps no post.
    Misuse(Misuse),
    /// F6: a growth was refused.
    Memory,
}

impl Numbered for ReserveRefusal {
    ghost number = { of_unreserved };

    #[inline(always)]
    fn number(self, misuses: Numbering) -> u32 {
        match self {
            ReserveRefusal::Misuse(misuse) => misuse.number(misuses),
            ReserveRefusal::Memory => 6,
        }
    }
}

impl PostState {
    fn reserve(&mut self, events: u32) -> Result<(), ReserveRefusal>
        ensures { PostReserves self.old events result self.new }
    {
        let events = (events as usize).min(MAX_EVENTS);
        match self.parked.reserve(events) {
            Ok(()) => Ok(()),
            Err(Memory) => Err(ReserveRefusal::Memory),
        }
    }
}

impl Handle {
    /// Makes room on the post's line for at least `events` further events, but for at most [`MAX_EVENTS`], since no
    /// line has more. While there is room, a send on a board of up to [`clock::INLINE_ENTRIES`] instances needs memory
    /// only for the body, and so does each send of a post that has received nothing. F6: there is no memory, and then
    /// nothing has changed.
    pub fn reserve(&mut self, events: u32) -> Result<(), ReserveRefusal>
        ensures { HandleReserves self.old.slot.value events result self.new.slot.value }
    {
        let Some(post) = self.post_mut() else {
            return Err(ReserveRefusal::Misuse(Misuse::NoPost));
        };
        post.reserve(events)
    }
}
