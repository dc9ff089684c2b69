//! How posts are parked and woken.
ghost use Rattle.std.specs.Prelude.{◌≡◌, IfOk, IfErr};
ghost use Rattle.board.specs.Parked.{IsAtBoard, AreAtBoard};

use crate::parked::Parked;
use crate::post::Post;
use board_table::SharedTable;
use std::alloc::{AllocError, Global};

impl Parked {
    /// The same post, with the words of its own board.
    pub fn wake<'a>(self, words: &'a SharedTable) -> Post<'a>
        requires board { IsAtBoard words.now.key words.now.table_id self }
        ensures { result ≡ self }
    {
        Post {
            words,
            parked: self,
        }
    }
}

impl<'a> Post<'a> {
    /// The same post without its board's words.
    pub fn park(self) -> Parked
        ensures { result ≡ self.entry }
    {
        self.parked
    }
}

/// The same posts, in the same order, with the words of their own board. F6: it fails only if there is no memory, and
/// then they come back as they were.
pub fn wake_all<'a>(
    alloc: Global,
    words: &'a SharedTable,
    posts: Vec<Parked>,
) -> Result<Vec<Post<'a>>, (Vec<Parked>, AllocError)>
    requires board { AreAtBoard words.now.key words.now.table_id posts.items }
    ensures ok { IfOk result (λ awake. awake.items ≡ posts.items) }
    ensures err { IfErr result (λ back. back.0.items ≡ posts.items) }
{
    let mut awake = match Vec::with_capacity(alloc, posts.len()) {
        Ok(awake) => awake,
        Err(error) => return Err((posts, error)),
    };
    for post in posts {
        awake.push_reserved(post.wake(words));
    }
    Ok(awake)
}

/// The same posts, in the same order, without their board's words. F6: it fails only if there is no memory, and then
/// they come back as they were.
pub fn park_all<'a>(alloc: Global, posts: Vec<Post<'a>>) -> Result<Vec<Parked>, Vec<Post<'a>>>
    ensures ok { IfOk result (λ parked. parked.items ≡ posts.entry.items) }
    ensures err { IfErr result (λ back. back.items ≡ posts.entry.items) }
{
    let Ok(mut parked) = Vec::with_capacity(alloc, posts.len()) else {
        return Err(posts);
    };
    for post in posts {
        parked.push_reserved(post.park());
    }
    Ok(parked)
}
