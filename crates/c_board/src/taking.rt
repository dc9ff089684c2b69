//! Posts taken out of handles, and put back.
ghost use Rattle.std.specs.Prelude.{◌≡◌, ◌≤◌, [], length, vec_capacity, true, false, IfOk};
ghost use Rattle.c_board.specs.Opening.{kept_by, AreEmpty};
ghost use Rattle.c_board.specs.Chairs.{is_post, KeepPosts, IsOneNoPost, AreFit, AreTaken, TakesPosts, seats_with};
ghost use Rattle.c_board.specs.Chairs.{kept_seats, AreOfOneNumber, IsOneOfAnother};

use crate::chair::{Chair, Taken};
use crate::handle::Handle;
use crate::kept::Kept;
use board::Parked;
use std::alloc::{AllocError, Global};

/// Why posts aren't taken out of their handles: the first of these that applies.
#[derive(Clone, Copy)]
pub(crate) enum TakingError {
    /// F15: there are no handles.
    NoHandles,
    /// A misuse: a handle keeps no post.
    NoPost,
    /// F6: a growth was refused.
    Memory,
    /// A misuse: two posts are of boards with different numbers.
    OtherBoard,
}

impl Kept {
    /// Whether it is a post.
    fn is_post(&self) -> bool
        ensures { result ≡ is_post (Some self.now) }
    {
        match self {
            Kept::Post(_) => true,
            _ => false,
        }
    }
}

impl Handle {
    /// Whether it keeps a post.
    fn has_post(&mut self, alloc: Global) -> bool
        ensures same { self.new.slot.value ≡ self.old.slot.value }
        ensures answer { result ≡ is_post self.old.slot.value }
    {
        let Some(kept) = self.take(alloc) else {
            return false;
        };
        let result = kept.is_post();
        self.put(kept);
        result
    }
}

/// Whether each of these handles keeps a post.
fn have_posts(alloc: Global, handles: &mut [Handle]) -> bool
    ensures same { kept_by handles.new ≡ kept_by handles.old }
    ensures yes { result ≡ true → KeepPosts (kept_by handles.old) }
    ensures no { result ≡ false → IsOneNoPost (kept_by handles.old) }
{
    for place in 0..handles.len() {
        if !handles[place].has_post(alloc) {
            return false;
        }
    }
    true
}

/// Whether the boards of the posts in these seats have one number.
fn have_one_number(chairs: &[Chair]) -> bool
    ensures yes { result ≡ true → AreOfOneNumber chairs.now }
    ensures no { result ≡ false → IsOneOfAnother chairs.now }
{
    for chair in chairs {
        if !chairs[0].board_number.is(chair.board_number) {
            return false;
        }
    }
    true
}

/// Takes each post out of its handle.
fn take_each(
    alloc: Global,
    handles: &mut [Handle],
    chairs: &mut Vec<Chair>,
    posts: &mut Vec<Parked>,
)
    requires posts { KeepPosts (kept_by handles.old) }
    requires none { (chairs.old.items ≡ []) × (posts.old.items ≡ []) }
    requires room { (length handles.old ≤ vec_capacity chairs.old) × (length handles.old ≤ vec_capacity posts.old) }
    ensures { AreTaken (kept_by handles.old) chairs.new.items posts.new.items (kept_by handles.new) }
{
    for place in 0..handles.len() {
        let Some(kept) = handles[place].take(alloc) else {
            unreachable!()
        };
        let (chair, post) = Chair::of(kept);
        chairs.push_reserved(chair);
        posts.push_reserved(post);
    }
}

/// Puts the posts into their seats, and the seats into the handles, in order.
pub(crate) fn put_posts(handles: &mut [Handle], chairs: Vec<Chair>, posts: Vec<Parked>)
    requires empty { AreEmpty (kept_by handles.old) }
    requires fit { AreFit chairs.items posts.items }
    requires as_many { length chairs.items ≡ length handles.old }
    ensures { kept_by handles.new ≡ kept_seats (seats_with chairs.items posts.items) }
{
    let mut place = 0;
    for (chair, post) in chairs.into_iter().zip(posts) {
        handles[place].put(chair.state(post));
        place += 1;
    }
}

/// Lists for `many` posts and their seats.
fn make_lists(alloc: Global, many: usize) -> Result<Taken, AllocError>
    ensures none { IfOk result (λ made. (made.chairs.items ≡ []) × (made.posts.items ≡ [])) }
    ensures room { IfOk result (λ made. (many ≤ vec_capacity made.chairs) × (many ≤ vec_capacity made.posts)) }
{
    Ok(Taken {
        chairs: Vec::with_capacity(alloc, many)?,
        posts: Vec::with_capacity(alloc, many)?,
    })
}

/// Takes the posts out of these handles, which then keep nothing. F15: there are no handles. Then a handle that keeps
/// no post is a misuse, F6 means that there is no memory for the lists, and posts of two boards are a misuse. After a
/// refusal everything is as it was.
pub(crate) fn take_posts(alloc: Global, handles: &mut [Handle]) -> Result<Taken, TakingError>
    ensures { TakesPosts (kept_by handles.old) result (kept_by handles.new) }
{
    if handles.is_empty() {
        return Err(TakingError::NoHandles);
    }
    if !have_posts(alloc, handles) {
        return Err(TakingError::NoPost);
    }
    let taken = match make_lists(alloc, handles.len()) {
        Ok(taken) => taken,
        Err(AllocError) => return Err(TakingError::Memory),
    };
    let mut taken = taken;
    take_each(alloc, handles, &mut taken.chairs, &mut taken.posts);
    if !have_one_number(taken.chairs.as_slice()) {
        put_posts(handles, taken.chairs, taken.posts);
        return Err(TakingError::OtherBoard);
    }
    Ok(taken)
}
