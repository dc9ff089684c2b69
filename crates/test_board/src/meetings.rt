//! Tests of meetings of posts.
ghost use Rattle.board.specs.Meeting.{AreOfOneBoard};

use crate::calls::{apart, holds, sends_as};
use crate::tables::{Call, make_all};
use board::{Board, MeetError, Post, meet, meet_all};
use std::alloc::Global;
use std::process::Abort;

/// Asserts that all posts of a board can meet.
pub fn all_meet(rt: &impl Abort, posts: &mut [Post])
    requires { AreOfOneBoard posts.old }
    ensures { AreOfOneBoard posts.new }
{
    assert!(rt; meet_all(posts).is_ok());
}

/// Asserts that these posts, which aren't all of a board, can't meet.
fn dont_meet(rt: &impl Abort, posts: &mut [Post])
    requires { AreOfOneBoard posts.old }
{
    let met = meet_all(posts);
    holds(rt, "not all posts", met == Err(MeetError::NotAllPosts));
}

#[test]
fn not_all_posts(rt: HostRuntime) {
    let mut board = Board::new(rt.alloc(), 3, 1).expect(&rt, "a board");
    let (mut posts, last) = apart(board.posts().expect(&rt, "posts"));
    holds(&rt, "a last post", last.is_some());
    dont_meet(&rt, &mut []);
    dont_meet(&rt, posts.as_mut_slice());
}

/// A message from the third instance waits for the first one, and the second one sends it another.
static MET: [(usize, Call); 3] = [
    (2, Call::Send(1, b'y', Ok(1))),
    (1, Call::Gets(3, b"x", &[])),
    (1, Call::Gets(2, b"y", &[1])),
];

/// The posts meet.
fn they_meet(posts: &mut [Post])
    requires { AreOfOneBoard posts.old }
    ensures { AreOfOneBoard posts.new }
{
    meet(posts);
}

/// Two of three posts meet, while a message from the third is on its way to one of them.
fn two_meet(rt: &impl Abort, alloc: Global, posts: &mut [Post], third: &mut Post)
    requires { AreOfOneBoard posts.old }
{
    sends_as(rt, alloc, third, 1, b'x', Ok(1));
    they_meet(posts);
    make_all(rt, alloc, posts, &MET);
}

#[test]
fn two_of_three(rt: HostRuntime) {
    let mut board = Board::new(rt.alloc(), 3, 1).expect(&rt, "a board");
    let (mut posts, third) = apart(board.posts().expect(&rt, "posts"));
    let mut third = third.expect(&rt, "a third post");
    two_meet(&rt, rt.alloc(), posts.as_mut_slice(), &mut third);
}
