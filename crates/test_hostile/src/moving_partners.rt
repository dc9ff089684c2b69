//! Tests of a post that is dropped on a thread of its own, while its partners send, receive and meet.
ghost use Rattle.std.specs.Prelude.{◌≡◌};
ghost use Rattle.board.specs.Meeting.{AreOfOneBoard};

use crate::calls::{apart, instance, message};
use board::{Board, Post, meet};
use std::alloc::Global;
use std::process::Abort;
use std::sync::Wait;
use std::thread;
use std::thread::Threads;

/// How often each of the two posts that stay sends, receives and meets the other one.
const ROUNDS: usize = 2000;

/// How often the post that is dropped sends and receives.
const CALLS: usize = 500;

/// Sends to an instance and receives from it, with any answer.
fn exchange(rt: &impl Abort, alloc: Global, post: &mut Post, other: usize)
    ensures { post.new.board ≡ post.old.board }
{
    let other = instance(rt, other);
    let _ = post.send(other, message(rt, alloc, b'x'));
    let _ = post.receive(other);
}

/// Exchanges messages with the other two instances for a while. Then the post is dropped, with the messages that wait
/// for it.
fn go(rt: &impl Abort, alloc: Global, post: Post) {
    let mut post = post;
    for _ in 0..CALLS {
        exchange(rt, alloc, &mut post, 1);
        exchange(rt, alloc, &mut post, 2);
    }
}

/// Two posts exchange messages with each other and with the third.
fn exchange_all(rt: &impl Abort, alloc: Global, posts: &mut [Post])
    requires { AreOfOneBoard posts.old }
    ensures { AreOfOneBoard posts.new }
{
    assert!(rt; posts.len() == 2);
    exchange(rt, alloc, &mut posts[0], 3);
    exchange(rt, alloc, &mut posts[0], 2);
    exchange(rt, alloc, &mut posts[1], 3);
    exchange(rt, alloc, &mut posts[1], 1);
}

/// The posts meet.
fn meet_again(posts: &mut [Post])
    requires { AreOfOneBoard posts.old }
    ensures { AreOfOneBoard posts.new }
{
    meet(posts);
}

/// Posts of one board.
#[derive(Drop)]
struct Partners<'a> {
    posts: Vec<Post<'a>>,
    ghost of_one_board: { AreOfOneBoard posts.items },
}

fn of_one_board<'a>(posts: Vec<Post<'a>>) -> Partners<'a>
    requires { AreOfOneBoard posts.items }
{
    Partners { posts }
}

/// Two posts exchange messages and meet, again and again.
fn stay_long(rt: &impl Abort, alloc: Global, partners: Partners) {
    let Partners { mut posts } = partners;
    let posts = posts.as_mut_slice();
    for _ in 0..ROUNDS {
        exchange_all(rt, alloc, posts);
        meet_again(posts);
    }
}

/// Two posts stay, and a third one is dropped on a thread of its own.
fn lose_third<R: Threads + Wait + Abort + Sync>(
    rt: &R,
    alloc: Global,
    partners: Partners,
    third: Post,
) {
    let started = thread::scope(thread::scope_env(), rt, move |scope| {
        match scope.spawn(move || go(rt, alloc, third)) {
            Ok(child) => {
                stay_long(rt, alloc, partners);
                child.join(rt);
                true
            }
            Err(_) => false,
        }
    });
    assert!(rt; started);
}

/// The same over lanes with this number of slots.
fn lose_third_over<R: Threads + Wait + Abort + Sync>(rt: &R, alloc: Global, capacity: usize) {
    let mut board = Board::new(alloc, 3, capacity).expect(rt, "a board");
    let (posts, third) = apart(board.posts().expect(rt, "posts"));
    let third = third.expect(rt, "a third post");
    lose_third(rt, alloc, of_one_board(posts), third);
}

#[test]
fn a_post_goes_while_others_move(rt: HostRuntime) {
    lose_third_over(&rt, rt.alloc(), 1);
    lose_third_over(&rt, rt.alloc(), 4);
}
