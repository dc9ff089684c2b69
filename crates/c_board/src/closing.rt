//! Lanes closed over a handle.
ghost use Rattle.std.specs.Prelude.{◌≡◌};
ghost use Rattle.c_board.specs.Closing.{PostCloses, HandleCloses, of_unclosed};

use crate::handle::Handle;
use crate::misuse::{Misuse, Numbering};
use crate::numbered::Numbered;
use crate::post_state::PostState;
use board::CloseError;
use chart::InstanceNo;

/// Why a lane isn't closed.
#[derive(Clone, Copy)]
pub enum CloseRefusal {
    /// The handle keeps no post.
    Misuse(Misuse),
    /// F14: the instance's number is 0, or greater than [`chart::MAX_INSTANCES`].
    NoInstance,
    /// The post refuses it.
    Post(CloseError),
}

impl Numbered for CloseRefusal {
    ghost number = { of_unclosed };

    #[inline(always)]
    fn number(self, misuses: Numbering) -> u32 {
        match self {
            CloseRefusal::Misuse(misuse) => misuse.number(misuses),
            CloseRefusal::NoInstance => 14,
            CloseRefusal::Post(error) => error.number(misuses),
        }
    }
}

impl PostState {
    /// Closes the lane to an instance.
    fn close(&mut self, to: u32) -> Result<(), CloseRefusal>
        ensures { PostCloses self.old to result self.new }
    {
        let Some(to) = InstanceNo::new(to as usize) else {
            return Err(CloseRefusal::NoInstance);
        };
        let words = &(*self.table).shared;
        match self.parked.close(words, to) {
            Ok(()) => Ok(()),
            Err(error) => Err(CloseRefusal::Post(error)),
        }
    }
}

impl Handle {
    /// Closes the lane to an instance, as [`board::Parked::close`] does.
    pub fn close(&mut self, to: u32) -> Result<(), CloseRefusal>
        ensures { HandleCloses self.old.slot.value to result self.new.slot.value }
    {
        let Some(post) = self.post_mut() else {
            return Err(CloseRefusal::Misuse(Misuse::NoPost));
        };
        post.close(to)
    }
}
