//! Boards gathered over handles.
ghost use Rattle.std.specs.Prelude.{◌≡◌, length, slice_get, Some};
ghost use Rattle.board.specs.Views.{PostView};
ghost use Rattle.c_board.specs.declared.kept.Kept.TheVariants.{Board};
ghost use Rattle.c_board.specs.Opening.{kept_by};
ghost use Rattle.c_board.specs.Chairs.{AreNumberedApart};
ghost use Rattle.c_board.specs.Gathering.{Gathers, of_gathering};

use crate::away::{Returned, gather_parked};
use crate::chair::Taken;
use crate::handle::Handle;
use crate::kept::Kept;
use crate::misuse::{Misuse, Numbering};
use crate::numbered::Numbered;
use crate::taking::{TakingError, put_posts, take_posts};
use crate::whole_board::WholeBoard;
use board::{GatherCause, Parked};
use std::alloc::{AllocError, Global};

/// Why a board isn't gathered over handles.
#[derive(Clone, Copy)]
pub enum GatherRefusal {
    /// A misuse: the handle for the board keeps something.
    InUse,
    /// A misuse: a handle keeps no post.
    NoPost,
    /// A misuse: two posts are of boards with different numbers.
    OtherBoard,
    /// F15: there are no posts, or not all of their board.
    NotAllPosts,
    /// F6: a growth was refused.
    Memory,
}

impl Numbered for GatherRefusal {
    ghost number = { λ misuses refusal. of_gathering misuses refusal };

    fn number(self, misuses: Numbering) -> u32 {
        match self {
            GatherRefusal::InUse => Misuse::InUse.number(misuses),
            GatherRefusal::NoPost => Misuse::NoPost.number(misuses),
            GatherRefusal::OtherBoard => Misuse::OtherBoard.number(misuses),
            GatherRefusal::NotAllPosts => 15,
            GatherRefusal::Memory => 6,
        }
    }
}

impl From<TakingError> for GatherRefusal {
    ghost use Rattle.std.specs.Prelude.{◌≡◌};
    ghost use Rattle.c_board.specs.Gathering.{refusal_of_taking};

    ghost from_gives = { λ error refusal. refusal ≡ refusal_of_taking error };

    fn from(error: TakingError) -> GatherRefusal {
        match error {
            TakingError::NoHandles => GatherRefusal::NotAllPosts,
            TakingError::NoPost => GatherRefusal::NoPost,
            TakingError::Memory => GatherRefusal::Memory,
            TakingError::OtherBoard => GatherRefusal::OtherBoard,
        }
    }
}

impl From<GatherCause> for GatherRefusal {
    ghost use Rattle.std.specs.Prelude.{◌≡◌};
    ghost use Rattle.c_board.specs.Gathering.{refusal_of_cause};

    ghost from_gives = { λ cause refusal. refusal ≡ refusal_of_cause cause };

    fn from(cause: GatherCause) -> GatherRefusal {
        match cause {
            GatherCause::NotAllPosts => GatherRefusal::NotAllPosts,
            GatherCause::Memory => GatherRefusal::Memory,
        }
    }
}

/// How many slots the lanes of these posts' board have.
fn capacity_of(posts: &[Parked]) -> usize
    requires { length posts.now ≡ 0 → ⊥ }
    ensures { (post : PostView) → slice_get posts.now 0 ≡ Some post → post.board.capacity ≡ result }
{
    posts[0].capacity()
}

/// This box, with a gathered board in it.
fn board_in(kept: Box<Kept>, whole: WholeBoard) -> Box<Kept>
    ensures { result.value ≡ Board whole }
{
    let mut kept = kept;
    *kept = Kept::Board(whole);
    kept
}

/// Gathers a whole board into the handle `board`. The handles of its posts, which may come in any order, keep nothing
/// afterwards.
///
/// If `board` keeps something, or one of the handles keeps no post, the call is a misuse. So it is for posts of two
/// boards, which their boards' numbers show. F15: posts are missing. F6: there is no memory. After a refusal everything
/// is as it was.
pub fn gather(
    alloc: Global,
    handles: &mut [Handle],
    board: &mut Handle,
) -> Result<(), GatherRefusal>
    requires { AreNumberedApart (kept_by handles.old) }
    ensures { Gathers (kept_by handles.old) board.old.slot.value result (kept_by handles.new) board.new.slot.value }
{
    if !board.is_empty() {
        return Err(GatherRefusal::InUse);
    }
    let kept = match Kept::away(alloc) {
        Ok(kept) => kept,
        Err(AllocError) => return Err(GatherRefusal::Memory),
    };
    let Taken { chairs, posts } = take_posts(alloc, handles)?;
    let capacity = capacity_of(posts.as_slice());
    match gather_parked(alloc, &(*chairs[0].table).shared, posts) {
        Ok(gathered) => {
            board.put(board_in(kept, WholeBoard::of(gathered, capacity)));
            Ok(())
        }
        Err(back) => {
            let Returned { posts, cause } = back;
            put_posts(handles, chairs, posts);
            Err(GatherRefusal::from(cause))
        }
    }
}
