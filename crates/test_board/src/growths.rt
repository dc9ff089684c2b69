//! Tests of calls whose growth is refused. Each call is made once more, and then returns its full answer. A test ends
//! with a growth of its own. The refusal of this growth shows that each one before it was refused in an earlier run of
//! the test. Posts of nine instances take memory for their clocks. Posts of two instances never do.
ghost use Rattle.std.specs.Prelude.{◌≤◌};

use crate::calls::{
    are, are_named, every_growth_was_refused, have_come, holds, instance, message, messages,
    sends_again, stops,
};
use board::{Board, Post, PostsError, Stop, TakeError, TakenMany};
use chart::{InstanceNo, Message};
use std::alloc::Global;
use std::process::Abort;
use std::test::Fail;

fn board_of(rt: &impl Abort, alloc: Global, instances: usize) -> Board {
    match Board::new(alloc, instances, 3) {
        Ok(board) => board,
        Err(_) => Board::new(alloc, instances, 3).expect(rt, "a board"),
    }
}

/// The number of a board's posts, if memory isn't refused for them. After that the board gives no posts.
pub fn many_posts(rt: &impl Abort, board: &mut Board) -> Option<usize> {
    let many = match board.posts() {
        Ok(posts) => Some(posts.len()),
        Err(error) => {
            holds(rt, "memory was refused", error == PostsError::Memory);
            None
        }
    };
    assert!(rt; matches!(board.posts(), Err(PostsError::PostsTaken)));
    many
}

/// A board whose posts are refused gives none after that, but a new one does.
fn posts_of(rt: &impl Abort, alloc: Global, instances: usize) {
    let mut many = many_posts(rt, &mut board_of(rt, alloc, instances));
    if many.is_none() {
        many = many_posts(rt, &mut board_of(rt, alloc, instances));
    }
    holds(rt, "so many posts", many == Some(instances));
}

/// Messages with these names, made once more if memory was refused.
fn list_of(rt: &impl Abort, alloc: Global, letters: &[u8]) -> Vec<Message> {
    match messages(rt, alloc, letters) {
        Ok(list) => list,
        Err(_) => messages(rt, alloc, letters).expect(rt, "messages"),
    }
}

/// Sends messages with these names at once. If memory was refused, they came back and are sent once more.
fn sends_several(rt: &impl Abort, alloc: Global, post: &mut Post, to: InstanceNo, letters: &[u8]) {
    if let Err((back, _)) = post.send_all(to, list_of(rt, alloc, letters)) {
        are_named(rt, back.as_slice(), letters);
        assert!(rt; post.send_all(to, back).is_ok());
    }
}

/// Receives messages with the first of these names by one call, each with these races. It returns how many came, and
/// why no more came.
fn takes_several(
    rt: &impl Abort,
    post: &mut Post,
    from: InstanceNo,
    max: usize,
    letters: &[u8],
    races: &[u32],
) -> (usize, Stop)
    requires { 1 ≤ max }
{
    match post.receive_up_to(from, max) {
        Ok(TakenMany::Got { arrivals, stop }) => {
            let came = arrivals.len();
            assert!(rt; came <= letters.len());
            have_come(rt, arrivals.as_slice(), &letters[..came], races);
            (came, stop)
        }
        Ok(_) => panic!(rt; "no messages came"),
        Err(error) => (0, Stop::Refused(error)),
    }
}

/// Receives messages with these names by one call, each with these races. If memory was refused, the same call is made
/// once more and gets those that are left.
fn gets_several(rt: &impl Abort, post: &mut Post, from: InstanceNo, letters: &[u8], races: &[u32]) {
    let max = letters.len();
    assert!(rt; max > 0);
    let (came, stop) = takes_several(rt, post, from, max, letters, races);
    if came == max {
        stops(rt, stop, Stop::Asked);
    } else {
        stops(rt, stop, Stop::Refused(TakeError::Memory));
        gets_rest(rt, post, from, came, letters, races);
    }
}

/// Makes the same call once more, after `came` messages have come. It gets those that are left.
fn gets_rest(
    rt: &impl Abort,
    post: &mut Post,
    from: InstanceNo,
    came: usize,
    letters: &[u8],
    races: &[u32],
) {
    let max = letters.len();
    assert!(rt; came < max);
    let (left, stop) = takes_several(rt, post, from, max, &letters[came..], races);
    are(rt, "messages left", left, max - came);
    stops(rt, stop, if came == 0 { Stop::Asked } else { Stop::NoMore });
}

/// A call of a post, with the number of its partner, and for a receive with its races.
#[derive(Clone, Copy)]
enum Deed {
    Sends(usize, u8),
    SendsSeveral(usize, &'static [u8]),
    GetsSeveral(usize, &'static [u8], &'static [u32]),
}

fn does(rt: &impl Abort, alloc: Global, post: &mut Post, deed: &Deed) {
    match *deed {
        Deed::Sends(to, letter) => sends_again(rt, alloc, post, to, letter),
        Deed::SendsSeveral(to, letters) => {
            sends_several(rt, alloc, post, instance(rt, to), letters)
        }
        Deed::GetsSeveral(from, letters, races) => {
            gets_several(rt, post, instance(rt, from), letters, races)
        }
    }
}

/// The posts make these calls, if memory isn't refused for the posts.
fn exchange(rt: &impl Abort, alloc: Global, instances: usize, deeds: &[(usize, Deed)]) {
    let mut board = board_of(rt, alloc, instances);
    if let Ok(mut posts) = board.posts() {
        for (by, deed) in deeds {
            let post = posts.get_mut(by.saturating_sub(1)).expect(rt, "a post");
            does(rt, alloc, post, deed);
        }
    }
}

#[test]
fn refused_growths_of_posts(rt: HostRuntime) -> Result<(), Fail> {
    posts_of(&rt, rt.alloc(), 2);
    posts_of(&rt, rt.alloc(), 9);
    every_growth_was_refused(rt.alloc())
}

/// The first instance sends three messages at once to the second one. They cross a message that the second one has
/// sent.
static SEVERAL: [(usize, Deed); 3] = [
    (2, Deed::Sends(1, b'w')),
    (1, Deed::SendsSeveral(2, b"xyz")),
    (2, Deed::GetsSeveral(1, b"xyz", &[1])),
];

#[test]
fn refused_growths_of_several(rt: HostRuntime) -> Result<(), Fail> {
    exchange(&rt, rt.alloc(), 2, &SEVERAL);
    exchange(&rt, rt.alloc(), 9, &SEVERAL);
    every_growth_was_refused(rt.alloc())
}

/// Makes room for two events, and once more if memory was refused.
fn makes_room(rt: &impl Abort, post: &mut Post) {
    if post.reserve(2).is_err() {
        are(rt, "room", post.room(), 0);
        holds(rt, "room is made", post.reserve(2).is_ok());
    }
}

/// Asserts that a send finds room, and how much room it leaves.
fn sends_in_room(rt: &impl Abort, alloc: Global, post: &mut Post, left: usize) {
    let sent = post.send(instance(rt, 2), message(rt, alloc, b'x'));
    holds(rt, "a send with room", sent.is_ok());
    are(rt, "room", post.room(), left);
}

/// Makes room for two events, and then sends twice without memory.
fn sends_with_room(rt: &impl Abort, alloc: Global, post: &mut Post) {
    makes_room(rt, post);
    sends_in_room(rt, alloc, post, 1);
    sends_in_room(rt, alloc, post, 0);
}

#[test]
fn refused_growths_with_room(rt: HostRuntime) -> Result<(), Fail> {
    let mut board = board_of(&rt, rt.alloc(), 8);
    if let Ok(mut posts) = board.posts() {
        let post = posts.get_mut(0).expect(&rt, "a post");
        sends_with_room(&rt, rt.alloc(), post);
    }
    every_growth_was_refused(rt.alloc())
}
