//! Tests of posts on threads of their own.
ghost use Rattle.std.specs.Prelude.{◌≡◌};
ghost use Rattle.board.specs.Meeting.{AreOfOneBoard};

use crate::calls::{holds, instance};
use crate::meetings::all_meet;
use board::{Arrival, Board, Post, SendError, Taken, TakenMany};
use chart::{InstanceNo, MAX_EVENTS, Message, Name};
use std::alloc::Global;
use std::process::Abort;
use std::sync::Wait;
use std::thread;
use std::thread::Threads;

/// The most calls that a thread makes. A call looks at a word of another post at most once.
const CALLS: u32 = 10_000_000;

/// The most messages that one send of several has.
const SENT_AT_ONCE: u32 = 7;

/// The most messages that one receive of several gets. They end at other messages than a list that was sent.
const RECEIVED_AT_ONCE: usize = 10;

/// The calls that pass messages.
#[derive(Clone, Copy)]
enum Calls {
    Single,
    Several,
}

/// A message with its number as its body.
fn numbered(rt: &impl Abort, alloc: Global, number: u32) -> Message {
    let body = number.to_le_bytes().to_vec(alloc).expect(rt, "memory");
    match Message::new(Name::new(b"m").expect(rt, "a name"), body) {
        Ok(message) => message,
        Err(_) => panic!(rt; "a message"),
    }
}

/// Sends the message with this number, unless the lane is full. It returns the number of the next message to send.
fn offer(rt: &impl Abort, alloc: Global, post: &mut Post, to: InstanceNo, number: u32) -> u32
    ensures { post.new.board ≡ post.old.board }
{
    match post.send(to, numbered(rt, alloc, number)) {
        Ok(_) => number.wrapping_add(1),
        Err((_, error)) => {
            holds(rt, "the lane is full", error == SendError::Full);
            number
        }
    }
}

/// The messages with these numbers.
fn all_numbered(rt: &impl Abort, alloc: Global, next: u32, end: u32) -> Vec<Message> {
    let mut messages = Vec::new(alloc);
    for number in next..end {
        let pushed = messages.push(numbered(rt, alloc, number));
        holds(rt, "memory", pushed.is_ok());
    }
    messages
}

/// Sends the messages with these numbers at once, unless they find no slots. It returns the number of the next message
/// to send.
fn offer_several(
    rt: &impl Abort,
    alloc: Global,
    post: &mut Post,
    to: InstanceNo,
    next: u32,
    end: u32,
) -> u32 {
    match post.send_all(to, all_numbered(rt, alloc, next, end)) {
        Ok(_) => end,
        Err((_, error)) => {
            holds(rt, "the lane is full", error == SendError::Full);
            next
        }
    }
}

/// Asserts that this message came in its turn. It returns the number of the next one.
fn is_numbered(rt: &impl Abort, arrival: &Arrival, number: u32) -> u32 {
    let wanted = number.to_le_bytes();
    assert!(rt;
        arrival.message.body() == wanted.as_slice(),
        "not message {number}"
    );
    number.wrapping_add(1)
}

/// The same for a message without races.
fn is_next(rt: &impl Abort, arrival: &Arrival, number: u32) -> u32 {
    holds(rt, "no races", arrival.report.earlier().is_empty());
    is_numbered(rt, arrival, number)
}

/// The same for several messages.
fn are_next(rt: &impl Abort, arrivals: &[Arrival], number: u32) -> u32 {
    let mut next = number;
    for arrival in arrivals {
        next = is_next(rt, arrival, next);
    }
    next
}

impl Calls {
    /// Sends the next of `many` messages, unless the lane is full. It returns the number of the next message to send.
    fn send(
        self,
        rt: &impl Abort,
        alloc: Global,
        post: &mut Post,
        to: InstanceNo,
        next: u32,
        many: u32,
    ) -> u32 {
        match self {
            Calls::Single => offer(rt, alloc, post, to, next),
            Calls::Several => {
                let end = many.min(next.saturating_add(SENT_AT_ONCE));
                offer_several(rt, alloc, post, to, next, end)
            }
        }
    }

    /// Receives the next messages, if any wait. It returns the number of the next message to receive, or none at the
    /// end of the lane.
    fn receive(self, rt: &impl Abort, post: &mut Post, from: InstanceNo, next: u32) -> Option<u32> {
        match self {
            Calls::Single => match post.receive(from).expect(rt, "no refusal") {
                Taken::Got(arrival) => Some(is_next(rt, &arrival, next)),
                Taken::Nothing => Some(next),
                Taken::Ended => None,
            },
            Calls::Several => {
                match post
                    .receive_up_to(from, RECEIVED_AT_ONCE)
                    .expect(rt, "no refusal")
                {
                    TakenMany::Got { arrivals, stop: _ } => {
                        Some(are_next(rt, arrivals.as_slice(), next))
                    }
                    TakenMany::Nothing => Some(next),
                    TakenMany::Ended => None,
                }
            }
        }
    }
}

/// Sends `many` messages, each again while the lane is full, and closes the lane.
fn send_all(rt: &impl Abort, alloc: Global, calls: Calls, post: Post, to: usize, many: u32) {
    let mut post = post;
    let to = instance(rt, to);
    let mut next = 0;
    for _ in 0..CALLS {
        if next == many {
            break;
        }
        let before = next;
        next = calls.send(rt, alloc, &mut post, to, next, many);
        if next == before {
            thread::yield_now();
        }
    }
    holds(rt, "all are sent", next == many);
    holds(rt, "the lane is closed", post.close(to).is_ok());
}

/// Receives `many` messages in their order, and then the end of the lane.
fn get_all(rt: &impl Abort, calls: Calls, post: Post, from: usize, many: u32) {
    let mut post = post;
    let from = instance(rt, from);
    let mut next = 0;
    let mut ended = false;
    for _ in 0..CALLS {
        let before = next;
        match calls.receive(rt, &mut post, from, next) {
            Some(number) => next = number,
            None => {
                ended = true;
                break;
            }
        }
        if next == before {
            thread::yield_now();
        }
    }
    holds(rt, "the end came", ended);
    holds(rt, "all are got", next == many);
}

/// Two threads have a post each. One sends `many` messages and closes the lane, the other gets them and the end.
fn hold<R: Threads + Wait + Abort + Sync>(
    rt: &R,
    alloc: Global,
    calls: Calls,
    sender: Post,
    receiver: Post,
    many: u32,
) {
    let started = thread::scope(thread::scope_env(), rt, move |scope| {
        match scope.spawn(move || send_all(rt, alloc, calls, sender, 2, many)) {
            Ok(child) => {
                get_all(rt, calls, receiver, 1, many);
                child.join(rt);
                true
            }
            Err(_) => false,
        }
    });
    assert!(rt; started);
}

/// Passes `many` messages from one thread to another, over a lane with this number of slots.
fn pass<R: Threads + Wait + Abort + Sync>(
    rt: &R,
    alloc: Global,
    calls: Calls,
    capacity: usize,
    many: u32,
) {
    let mut board = Board::new(alloc, 2, capacity).expect(rt, "a board");
    let mut posts = board.posts().expect(rt, "posts");
    let second = posts.pop().expect(rt, "a post");
    let first = posts.pop().expect(rt, "another post");
    hold(rt, alloc, calls, first, second, many);
}

#[test]
fn two_holders(rt: HostRuntime) {
    pass(&rt, rt.alloc(), Calls::Single, 1, 2);
    for calls in [Calls::Single, Calls::Several] {
        pass(&rt, rt.alloc(), calls, 64, 2000);
    }
}

/// The number of messages that an instance of four sends to another one. With these numbers each line is full at the
/// end.
fn share(from: usize, to: usize) -> u32 {
    if to == from % 4 + 1 { 684 } else { 682 }
}

/// The numbers of messages that a post has sent to an instance, and received from it.
#[derive(Clone, Copy)]
struct Passed {
    sent: u32,
    got: u32,
}

/// Receives the message with this number, if one waits. It returns the number of the next message to receive.
fn take(rt: &impl Abort, post: &mut Post, from: InstanceNo, number: u32) -> u32
    ensures { post.new.board ≡ post.old.board }
{
    match post.receive(from).expect(rt, "no refusal") {
        Taken::Got(arrival) => is_numbered(rt, &arrival, number),
        _ => number,
    }
}

/// Sends a message to an instance, until its share is sent, and receives one from it, if one waits.
fn exchange(rt: &impl Abort, alloc: Global, post: &mut Post, other: usize, passed: &mut Passed)
    ensures { post.new.board ≡ post.old.board }
{
    let partner = instance(rt, other);
    if passed.sent < share(post.number().number(), other) {
        passed.sent = offer(rt, alloc, post, partner, passed.sent);
    }
    passed.got = take(rt, post, partner, passed.got);
}

/// The same with the three others.
fn exchange_each(rt: &impl Abort, alloc: Global, post: &mut Post, passed: &mut [Passed; 4])
    ensures { post.new.board ≡ post.old.board }
{
    let own = post.number().number();
    for place in 0..4 {
        if place + 1 != own {
            exchange(rt, alloc, post, place + 1, &mut passed[place]);
        }
    }
}

/// Asserts that each of the three others was sent its share, and sent its own.
fn have_passed(rt: &impl Abort, own: usize, passed: &[Passed; 4]) {
    for place in 0..4 {
        if place + 1 != own {
            holds(
                rt,
                "all are sent",
                passed[place].sent == share(own, place + 1),
            );
            holds(
                rt,
                "all are got",
                passed[place].got == share(place + 1, own),
            );
        }
    }
}

/// Exchanges messages with three others until the line is full.
fn exchange_all(rt: &impl Abort, alloc: Global, post: &mut Post)
    ensures { post.new.board ≡ post.old.board }
{
    let mut passed = [Passed { sent: 0, got: 0 }; 4];
    for _ in 0..CALLS / 6 {
        let before = post.line().len();
        if before == MAX_EVENTS {
            break;
        }
        exchange_each(rt, alloc, post, &mut passed);
        if post.line().len() == before {
            thread::yield_now();
        }
    }
    have_passed(rt, post.number().number(), &passed);
    holds(rt, "the line is full", post.line().len() == MAX_EVENTS);
}

/// Four threads have a post each until all lines are full. Then all posts meet.
fn fill_lines<R: Threads + Abort + Sync>(rt: &R, alloc: Global, posts: &mut [Post])
    requires { AreOfOneBoard posts.old }
{
    let each = |_: usize, post: &mut Post|
        ensures { post.exit.now.board ≡ post.entry.now.board }
    { exchange_all(rt, alloc, post) };
    thread::for_each_mut(rt, posts, 4, &each);
    all_meet(rt, posts);
}

#[test]
fn four_to_full_lines(rt: HostRuntime) {
    for capacity in [1, 64] {
        let mut board = Board::new(rt.alloc(), 4, capacity).expect(&rt, "a board");
        let mut posts = board.posts().expect(&rt, "posts");
        fill_lines(&rt, rt.alloc(), posts.as_mut_slice());
    }
}
