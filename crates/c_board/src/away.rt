//! Calls that take all posts of a board, for posts that borrow nothing.
ghost use Rattle.std.specs.Prelude.{◌≡◌, ◌≤◌, [], length, vec_capacity};
ghost use Rattle.board.specs.Parked.{AreAtBoard};
ghost use Rattle.board.specs.Meeting.{AreOfOneBoard};
ghost use Rattle.c_board.specs.Gathering.{GathersParked};
ghost use Rattle.c_board.specs.Meeting.{MeetsParked};

use board::{GatherCause, Gathered, Parked, Post, SharedTable, gather, meet_all, wake_all};
use std::alloc::{AllocError, Global};

/// Posts that come back, and why they weren't gathered.
#[derive(Drop)]
pub(crate) struct Returned {
    pub posts: Vec<Parked>,
    pub cause: GatherCause,
}

/// Parks these posts, in their order.
#[inline(never)]
pub(crate) fn park_into(parked: &mut Vec<Parked>, posts: Vec<Post>)
    requires none { parked.old.items ≡ [] }
    requires room { length posts.items ≤ vec_capacity parked.old }
    ensures { parked.new.items ≡ posts.entry.items }
{
    for post in posts {
        parked.push_reserved(post.park());
    }
}

/// Gathers these posts with their board's words. F15 or F6 refuses it, and then they come back as they were.
pub(crate) fn gather_parked(
    alloc: Global,
    words: &SharedTable,
    posts: Vec<Parked>,
) -> Result<Gathered, Returned>
    requires at { AreAtBoard words.now.key words.now.table_id posts.items }
    requires board { AreOfOneBoard posts.items }
    ensures { GathersParked posts.items result }
{
    let mut parked = match Vec::with_capacity(alloc, posts.len()) {
        Ok(parked) => parked,
        Err(AllocError) => {
            return Err(Returned {
                posts,
                cause: GatherCause::Memory,
            });
        }
    };
    let awake = match wake_all(alloc, words, posts) {
        Ok(awake) => awake,
        Err((posts, AllocError)) => {
            return Err(Returned {
                posts,
                cause: GatherCause::Memory,
            });
        }
    };
    match gather(alloc, awake) {
        Ok(gathered) => Ok(gathered),
        Err(error) => {
            park_into(&mut parked, error.posts);
            Err(Returned {
                posts: parked,
                cause: error.cause,
            })
        }
    }
}

/// Posts that came back from a meeting, and its answer.
#[derive(Drop)]
pub(crate) struct Met {
    pub posts: Vec<Parked>,
    pub answer: Result<(), GatherCause>,
}

/// Lets these posts meet with their board's words. F15 or F6 refuses it, and then they come back as they were.
pub(crate) fn meet_parked(alloc: Global, words: &SharedTable, posts: Vec<Parked>) -> Met
    requires at { AreAtBoard words.now.key words.now.table_id posts.items }
    requires board { AreOfOneBoard posts.items }
    ensures { MeetsParked posts.items result.answer result.posts.items }
{
    let mut parked = match Vec::with_capacity(alloc, posts.len()) {
        Ok(parked) => parked,
        Err(AllocError) => {
            return Met {
                posts,
                answer: Err(GatherCause::Memory),
            };
        }
    };
    let mut awake = match wake_all(alloc, words, posts) {
        Ok(awake) => awake,
        Err((posts, AllocError)) => {
            return Met {
                posts,
                answer: Err(GatherCause::Memory),
            };
        }
    };
    let answer = match meet_all(&mut awake) {
        Ok(()) => Ok(()),
        Err(_) => Err(GatherCause::NotAllPosts),
    };
    park_into(&mut parked, awake);
    Met {
        posts: parked,
        answer,
    }
}
