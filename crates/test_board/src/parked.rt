//! Tests of posts that are parked and woken, and of the closed lanes of a gathered board.
ghost use Rattle.std.specs.Prelude.{◌≡◌};
ghost use Rattle.board.specs.Parked.{IsAtBoard, AreAtBoard};
ghost use Rattle.board.specs.Meeting.{AreOfOneBoard};

use crate::calls::{are, every_growth_was_refused, holds, instance, is_got, is_left, message};
use crate::gathered::{gathers, sends};
use crate::tables::{Missed, why_nothing};
use board::{BoardError, Gathered, Parked, Post, SharedTable, open_parked, park_all, wake_all};
use std::alloc::{AllocError, Global};
use std::process::Abort;
use std::test::Fail;

/// A post closes its lane to the second one.
fn closes(rt: &impl Abort, post: &mut Post)
    ensures { post.new.board ≡ post.old.board }
{
    let closed = post.close(instance(rt, 2));
    holds(rt, "the lane is closed", closed.is_ok());
}

/// The first of two posts closes its lane to the second one, on which a message waits.
fn sends_last(rt: &impl Abort, alloc: Global, posts: &mut [Post])
    requires { AreOfOneBoard posts.old }
    ensures { AreOfOneBoard posts.new }
{
    sends(rt, alloc, posts, b'x');
    assert!(rt; posts.len() == 2);
    closes(rt, &mut posts[0]);
}

/// The posts of these parked posts, woken once more if memory was refused.
fn woken<'a>(
    rt: &impl Abort,
    alloc: Global,
    words: &'a SharedTable,
    parked: Vec<Parked>,
) -> Vec<Post<'a>>
    requires { AreAtBoard words.now.key words.now.table_id parked.items }
    ensures { result.items ≡ parked.items }
{
    match wake_all(alloc, words, parked) {
        Ok(posts) => posts,
        Err((parked, AllocError)) => match wake_all(alloc, words, parked) {
            Ok(posts) => posts,
            Err(_) => panic!(rt; "posts that are awake"),
        },
    }
}

/// These posts, parked once more if memory was refused.
fn put_down<'a>(rt: &impl Abort, alloc: Global, posts: Vec<Post<'a>>) -> Vec<Parked>
    ensures { result.items ≡ posts.entry.items }
{
    match park_all(alloc, posts) {
        Ok(parked) => parked,
        Err(posts) => match park_all(alloc, posts) {
            Ok(parked) => parked,
            Err(_) => panic!(rt; "posts that are parked"),
        },
    }
}

/// Asserts that the lane from 1 to 2 is the closed one, and that one message is left on it.
fn one_is_left(rt: &impl Abort, gathered: &Gathered) {
    is_left(rt, gathered.left.as_slice(), b'x');
    assert!(rt; gathered.closed.len() == 1);
    holds(
        rt,
        "the sender",
        gathered.closed[0].sender == instance(rt, 1),
    );
    holds(
        rt,
        "the receiver",
        gathered.closed[0].receiver == instance(rt, 2),
    );
}

/// Parks posts and wakes them, if memory isn't refused for their board.
fn park_and_wake(rt: &impl Abort, alloc: Global) {
    if let Ok((table, parked)) = open_parked(alloc, 2, 2) {
        let words = &table.shared;
        let posts = woken(rt, alloc, words, parked);
        let parked = put_down(rt, alloc, posts);
        let mut posts = woken(rt, alloc, words, parked);
        sends_last(rt, alloc, posts.as_mut_slice());
        one_is_left(rt, &gathers(rt, alloc, posts));
    }
}

#[test]
fn parked_and_woken(rt: HostRuntime) -> Result<(), Fail> {
    park_and_wake(&rt, rt.alloc());
    every_growth_was_refused(rt.alloc())
}

/// A parked post sends a message to the second one, and closes the lane.
#[tactic(auto, using(board::proofs::AtBoard::stays_at))]
fn sends_parked(rt: &impl Abort, alloc: Global, words: &SharedTable, post: &mut Parked)
    requires { IsAtBoard words.now.key words.now.table_id post.old }
    ensures { IsAtBoard words.now.key words.now.table_id post.new }
{
    let sent = post.send(words, instance(rt, 2), message(rt, alloc, b'x'));
    holds(rt, "it is sent", sent.is_ok());
    let closed = post.close(words, instance(rt, 2));
    holds(rt, "the lane is closed", closed.is_ok());
    are(rt, "events", post.line().len(), 1);
}

/// A parked post receives this message from the first one, and then the end of the lane.
#[tactic(auto, using(board::proofs::AtBoard::stays_at))]
fn gets_parked(rt: &impl Abort, words: &SharedTable, post: &mut Parked)
    requires { IsAtBoard words.now.key words.now.table_id post.old }
{
    let taken = post.receive(words, instance(rt, 1));
    is_got(rt, taken, b'x', 1, &[]);
    let taken = post.receive(words, instance(rt, 1));
    holds(
        rt,
        "the lane's end",
        why_nothing(rt, taken) == Missed::Ended,
    );
    are(rt, "events", post.line().len(), 1);
}

/// One parked post sends, and the other one receives.
fn exchange(rt: &impl Abort, alloc: Global, words: &SharedTable, parked: &mut [Parked])
    requires { AreAtBoard words.now.key words.now.table_id parked.old }
{
    assert!(rt; parked.len() == 2);
    sends_parked(rt, alloc, words, &mut parked[0]);
    gets_parked(rt, words, &mut parked[1]);
}

/// Makes calls on posts while they are parked.
#[test]
fn parked_calls(rt: HostRuntime) -> Result<(), Fail> {
    let alloc = rt.alloc();
    let (table, mut parked) = open_parked(alloc, 2, 2)?;
    exchange(&rt, alloc, &table.shared, parked.as_mut_slice());
    Ok(())
}

/// Asserts that there is no board with this number of instances and slots.
fn is_no_board(
    rt: &impl Abort,
    alloc: Global,
    instances: usize,
    capacity: usize,
    error: BoardError,
) {
    match open_parked(alloc, instances, capacity) {
        Ok(_) => panic!(rt; "there is no such board"),
        Err(refused) => holds(rt, "why", refused == error),
    }
}

#[test]
fn no_parked_board(rt: HostRuntime) {
    is_no_board(&rt, rt.alloc(), 1, 2, BoardError::Instances);
    is_no_board(&rt, rt.alloc(), 33, 0, BoardError::Instances);
    is_no_board(&rt, rt.alloc(), 2, 65, BoardError::Capacity);
}
