//! Coregions over a handle.
ghost use Rattle.std.specs.Prelude.{◌≡◌};
ghost use Rattle.c_board.specs.Regions.{PostOpens, PostShuts, HandleOpens, HandleShuts, of_unchanged};

use crate::handle::Handle;
use crate::misuse::{Misuse, Numbering};
use crate::numbered::Numbered;
use crate::post_state::PostState;
use board::RegionError;

/// Why a coregion is neither opened nor closed.
#[derive(Clone, Copy)]
pub enum RegionRefusal {
    /// The handle keeps no post.
    Misuse(Misuse),
    /// F28: a coregion is open. F29: none is.
    Post(RegionError),
}

impl Numbered for RegionRefusal {
    ghost number = { of_unchanged };

    #[inline(always)]
    fn number(self, misuses: Numbering) -> u32 {
        match self {
            RegionRefusal::Misuse(misuse) => misuse.number(misuses),
            RegionRefusal::Post(error) => error.number(misuses),
        }
    }
}

impl PostState {
    fn open_coregion(&mut self) -> Result<(), RegionRefusal>
        ensures { PostOpens self.old result self.new }
    {
        match self.parked.open_coregion() {
            Ok(()) => Ok(()),
            Err(error) => Err(RegionRefusal::Post(error)),
        }
    }

    fn close_coregion(&mut self) -> Result<(), RegionRefusal>
        ensures { PostShuts self.old result self.new }
    {
        match self.parked.close_coregion() {
            Ok(()) => Ok(()),
            Err(error) => Err(RegionRefusal::Post(error)),
        }
    }
}

impl Handle {
    /// Opens a coregion, to which the post's receives belong from now on: their order isn't claimed. F28: a coregion is
    /// open already.
    pub fn open_coregion(&mut self) -> Result<(), RegionRefusal>
        ensures { HandleOpens self.old.slot.value result self.new.slot.value }
    {
        let Some(post) = self.post_mut() else {
            return Err(RegionRefusal::Misuse(Misuse::NoPost));
        };
        post.open_coregion()
    }

    /// Closes the open coregion. F29: no coregion is open.
    pub fn close_coregion(&mut self) -> Result<(), RegionRefusal>
        ensures { HandleShuts self.old.slot.value result self.new.slot.value }
    {
        let Some(post) = self.post_mut() else {
            return Err(RegionRefusal::Misuse(Misuse::NoPost));
        };
        post.close_coregion()
    }
}
