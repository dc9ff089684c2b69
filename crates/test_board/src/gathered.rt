//! Tests of boards that are gathered.
ghost use Rattle.board.specs.Meeting.{AreOfOneBoard};

use crate::calls::{apart, are, every_growth_was_refused, holds, is_left, sends_again};
use crate::tables::{Call, make_all};
use board::{Board, GatherCause, GatherError, Gathered, Post, gather};
use std::alloc::Global;
use std::process::Abort;
use std::test::Fail;

/// The first post sends a message with this name to the second one, and once more if memory was refused.
pub fn sends(rt: &impl Abort, alloc: Global, posts: &mut [Post], letter: u8)
    requires { AreOfOneBoard posts.old }
    ensures { AreOfOneBoard posts.new }
{
    assert!(rt; posts.len() >= 2);
    sends_again(rt, alloc, &mut posts[0], 2, letter);
}

/// Asserts that the gathered board has this number of lines and of receives, and that one message is left.
fn one_is_left(rt: &impl Abort, gathered: &Gathered, lines: usize, receives: usize) {
    are(rt, "lines", gathered.chart.lines().len(), lines);
    are(rt, "reports", gathered.reports.len(), receives);
    is_left(rt, gathered.left.as_slice(), b'y');
}

/// The result of gathering these posts, if memory isn't refused.
fn gathers_at_once(rt: &impl Abort, alloc: Global, posts: Vec<Post>) -> Gathered
    requires { AreOfOneBoard posts.items }
{
    match gather(alloc, posts) {
        Ok(gathered) => gathered,
        Err(GatherError { posts: _, cause: _ }) => panic!(rt; "a gathered board"),
    }
}

/// The result of gathering these posts. If memory was refused, they came back as they were, and are gathered once more.
pub fn gathers(rt: &impl Abort, alloc: Global, posts: Vec<Post>) -> Gathered
    requires { AreOfOneBoard posts.items }
{
    match gather(alloc, posts) {
        Ok(gathered) => gathered,
        Err(GatherError { posts, cause }) => {
            holds(rt, "memory was refused", cause == GatherCause::Memory);
            gathers_at_once(rt, alloc, posts)
        }
    }
}

static TWO: [(usize, Call); 3] = [
    (1, Call::Send(2, b'x', Ok(1))),
    (1, Call::Send(2, b'y', Ok(2))),
    (2, Call::Gets(1, b"x", &[])),
];

#[test]
fn gathered_board(rt: HostRuntime) {
    let mut board = Board::new(rt.alloc(), 2, 2).expect(&rt, "a board");
    let mut posts = board.posts().expect(&rt, "posts");
    make_all(&rt, rt.alloc(), posts.as_mut_slice(), &TWO);
    one_is_left(&rt, &gathers_at_once(&rt, rt.alloc(), posts), 2, 1);
}

/// Asserts that no board is gathered from these posts, and that all of them come back.
fn are_not_all(rt: &impl Abort, alloc: Global, posts: Vec<Post>)
    requires { AreOfOneBoard posts.items }
{
    let many = posts.len();
    match gather(alloc, posts) {
        Ok(_) => panic!(rt; "a post is lacking"),
        Err(GatherError { posts, cause }) => {
            holds(rt, "not all posts", cause == GatherCause::NotAllPosts);
            are(rt, "posts", posts.len(), many);
        }
    }
}

/// A board isn't gathered if one of its posts is missing, or all of them.
#[test]
fn not_all_gathered(rt: HostRuntime) {
    let mut board = Board::new(rt.alloc(), 3, 1).expect(&rt, "a board");
    let (posts, last) = apart(board.posts().expect(&rt, "posts"));
    holds(&rt, "a last post", last.is_some());
    are(&rt, "posts", posts.len(), 2);
    are_not_all(&rt, rt.alloc(), posts);
    are_not_all(&rt, rt.alloc(), Vec::new(rt.alloc()));
}

/// Gathers a board with this number of instances while a message from the first one to the second waits.
fn gathered_of(rt: &impl Abort, alloc: Global, instances: usize) {
    if let Ok(mut board) = Board::new(alloc, instances, 1) {
        if let Ok(mut posts) = board.posts() {
            sends(rt, alloc, posts.as_mut_slice(), b'y');
            one_is_left(rt, &gathers(rt, alloc, posts), instances, 0);
        }
    }
}

#[test]
fn refused_growths_of_a_gathering(rt: HostRuntime) -> Result<(), Fail> {
    gathered_of(&rt, rt.alloc(), 2);
    gathered_of(&rt, rt.alloc(), 3);
    every_growth_was_refused(rt.alloc())
}
