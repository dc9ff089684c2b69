//! Meetings over handles.
ghost use Rattle.c_board.specs.Opening.{kept_by};
ghost use Rattle.c_board.specs.Chairs.{AreNumberedApart};
ghost use Rattle.c_board.specs.Meeting.{Meets, of_meeting};

use crate::away::{Met, meet_parked};
use crate::chair::Taken;
use crate::handle::Handle;
use crate::misuse::{Misuse, Numbering};
use crate::numbered::Numbered;
use crate::taking::{TakingError, put_posts, take_posts};
use board::GatherCause;
use std::alloc::Global;

/// Why posts in handles don't meet.
#[derive(Clone, Copy)]
pub enum MeetRefusal {
    /// A misuse: a handle keeps no post.
    NoPost,
    /// A misuse: two posts are of boards with different numbers.
    OtherBoard,
    /// F15: there are no posts, or not all of their board.
    NotAllPosts,
    /// F6: a growth was refused.
    Memory,
}

impl Numbered for MeetRefusal {
    ghost number = { λ misuses refusal. of_meeting misuses refusal };

    fn number(self, misuses: Numbering) -> u32 {
        match self {
            MeetRefusal::NoPost => Misuse::NoPost.number(misuses),
            MeetRefusal::OtherBoard => Misuse::OtherBoard.number(misuses),
            MeetRefusal::NotAllPosts => 15,
            MeetRefusal::Memory => 6,
        }
    }
}

impl From<TakingError> for MeetRefusal {
    ghost use Rattle.std.specs.Prelude.{◌≡◌};
    ghost use Rattle.c_board.specs.Meeting.{refusal_of_taking};

    ghost from_gives = { λ error refusal. refusal ≡ refusal_of_taking error };

    fn from(error: TakingError) -> MeetRefusal {
        match error {
            TakingError::NoHandles => MeetRefusal::NotAllPosts,
            TakingError::NoPost => MeetRefusal::NoPost,
            TakingError::Memory => MeetRefusal::Memory,
            TakingError::OtherBoard => MeetRefusal::OtherBoard,
        }
    }
}

impl From<GatherCause> for MeetRefusal {
    ghost use Rattle.std.specs.Prelude.{◌≡◌};
    ghost use Rattle.c_board.specs.Meeting.{refusal_of_cause};

    ghost from_gives = { λ cause refusal. refusal ≡ refusal_of_cause cause };

    fn from(cause: GatherCause) -> MeetRefusal {
        match cause {
            GatherCause::NotAllPosts => MeetRefusal::NotAllPosts,
            GatherCause::Memory => MeetRefusal::Memory,
        }
    }
}

/// Lets all posts of a board meet: afterwards they have all seen one history. They may come in any order, and the
/// handles keep them.
///
/// A handle that keeps no post is a misuse. So are posts of two boards, which their boards' numbers show. F15: posts
/// are missing. F6: there is no memory for the lists. After a refusal everything is as it was.
pub fn meet(alloc: Global, handles: &mut [Handle]) -> Result<(), MeetRefusal>
    requires { AreNumberedApart (kept_by handles.old) }
    ensures { Meets (kept_by handles.old) result (kept_by handles.new) }
{
    let Taken { chairs, posts } = take_posts(alloc, handles)?;
    let Met { posts, answer } = meet_parked(alloc, &(*chairs[0].table).shared, posts);
    put_posts(handles, chairs, posts);
    match answer {
        Ok(()) => Ok(()),
        Err(cause) => Err(MeetRefusal::from(cause)),
    }
}
