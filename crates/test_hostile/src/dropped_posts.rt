//! Tests of a post that is dropped while a message waits for it.
ghost use Rattle.std.specs.Prelude.{◌≡◌, ◌<◌, length};
ghost use Rattle.board.specs.Meeting.{AreOfOneBoard};

use crate::calls::{apart, are, arrival_of, has_come, holds, instance, sends_as};
use board::{Board, MeetError, Post, SendError, meet, meet_all};
use std::alloc::Global;
use std::process::Abort;

/// A post receives the message with this name from an instance.
fn gets(rt: &impl Abort, post: &mut Post, from: usize, letter: u8) {
    let arrival = arrival_of(rt, post.receive(instance(rt, from)));
    has_come(rt, &arrival, letter, from, None);
}

/// Asserts that these aren't all posts of their board. A meeting of all posts is refused.
fn are_not_all(rt: &impl Abort, posts: &mut [Post])
    requires { AreOfOneBoard posts.old }
    ensures { AreOfOneBoard posts.new }
{
    let met = meet_all(posts);
    holds(rt, "not all posts", met == Err(MeetError::NotAllPosts));
}

/// Asserts the answer of a send from the first post to the third one.
fn first_sends(
    rt: &impl Abort,
    alloc: Global,
    posts: &mut [Post],
    letter: u8,
    answer: Result<u32, SendError>,
)
    requires some { 0 < length posts.old }
    requires one_board { AreOfOneBoard posts.old }
    ensures one_board { AreOfOneBoard posts.new }
    ensures as_many { length posts.new ≡ length posts.old }
{
    sends_as(rt, alloc, &mut posts[0], 3, letter, answer);
}

/// Asserts that the first post has one event and the second has none, and passes a message from one to the other.
fn go_on(rt: &impl Abort, alloc: Global, posts: &mut [Post]) {
    assert!(rt; posts.len() == 2);
    are(rt, "events", posts[0].line().len(), 1);
    are(rt, "events", posts[1].line().len(), 0);
    sends_as(rt, alloc, &mut posts[0], 2, b'z', Ok(2));
    gets(rt, &mut posts[1], 1, b'z');
}

/// The first of two posts that stay sends to the third post, which is then dropped. Its lane stays full. The two posts
/// meet, but not as all posts, and go on.
fn lose_third(rt: &impl Abort, alloc: Global, posts: &mut [Post], third: Post)
    requires { AreOfOneBoard posts.old }
{
    assert!(rt; posts.len() == 2);
    first_sends(rt, alloc, posts, b'x', Ok(1));
    drop(third);
    first_sends(rt, alloc, posts, b'y', Err(SendError::Full));
    are_not_all(rt, posts);
    meet(posts);
    go_on(rt, alloc, posts);
}

#[test]
fn a_post_goes_with_a_message(rt: HostRuntime) {
    let mut board = Board::new(rt.alloc(), 3, 1).expect(&rt, "a board");
    let (mut posts, third) = apart(board.posts().expect(&rt, "posts"));
    let third = third.expect(&rt, "a third post");
    lose_third(&rt, rt.alloc(), posts.as_mut_slice(), third);
}
