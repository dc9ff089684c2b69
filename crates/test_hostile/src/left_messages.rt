//! Tests of posts and mailboxes that are dropped while messages wait.
use crate::calls::{arrival_of, instance, name, sends};
use board::{Board, Post};
use chart::{MAX_BODY, Message};
use mailbox::Mailbox;
use std::alloc::Global;
use std::process::Abort;

/// A message with the longest body.
fn longest(rt: &impl Abort, alloc: Global) -> Message {
    let body = vec![in alloc; 7; MAX_BODY].expect(rt, "memory");
    match Message::new(name(rt, b'x'), body) {
        Ok(message) => message,
        Err(_) => panic!(rt; "a message"),
    }
}

/// Sends this number of them to each other instance of the board.
fn send_to_others(rt: &impl Abort, alloc: Global, post: &mut Post, many: usize) {
    for number in 1..=post.board_size() {
        let to = instance(rt, number);
        if to != post.number() {
            for _ in 0..many {
                sends(rt, post, to, longest(rt, alloc));
            }
        }
    }
}

/// Each of three instances sends three messages to each of the others. The last two posts are made mailboxes, one of
/// which takes a message and keeps it. The board is dropped last.
#[test]
fn all_is_given_back(rt: HostRuntime) {
    let alloc = rt.alloc();
    let mut board = Board::new(alloc, 3, 4).expect(&rt, "a board");
    let mut posts = board.posts().expect(&rt, "posts");
    for post in posts.iter_mut() {
        send_to_others(&rt, alloc, post, 3);
    }
    let third = Mailbox::new(posts.pop().expect(&rt, "the third"));
    let second = Mailbox::new(posts.pop().expect(&rt, "the second"));
    takes_one(&rt, second, third);
}

/// One mailbox takes a message and keeps it. The other mailbox is then dropped first.
fn takes_one(rt: &impl Abort, taker: Mailbox, other: Mailbox) {
    let mut taker = taker;
    let taken = arrival_of(rt, taker.any());
    drop(other);
    drop(taker);
    drop(taken);
}

/// Each board has a number of instances that pass messages to each other, and of slots on each lane, which they fill.
/// The last number is how many messages each of them receives from each other one.
static BOARDS: [(usize, usize, usize); 4] = [(2, 1, 0), (3, 2, 1), (9, 4, 4), (4, 64, 40)];

/// Receives this number of messages from each other instance.
fn take_of_others(rt: &impl Abort, post: &mut Post, many: usize) {
    for number in 1..=post.board_size() {
        let from = instance(rt, number);
        if from != post.number() {
            for _ in 0..many {
                drop(arrival_of(rt, post.receive(from)));
            }
        }
    }
}

/// Lanes of each size are filled, and emptied in part. Then the posts are dropped one after the other, and the board.
#[test]
fn full_lanes_are_given_back(rt: HostRuntime) {
    for (instances, slots, many) in &BOARDS {
        let mut board = Board::new(rt.alloc(), *instances, *slots).expect(&rt, "a board");
        let mut posts = board.posts().expect(&rt, "posts");
        for post in posts.iter_mut() {
            send_to_others(&rt, rt.alloc(), post, *slots);
        }
        for post in posts.iter_mut() {
            take_of_others(&rt, post, *many);
        }
    }
}
