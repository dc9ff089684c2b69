//! Tests of mailboxes: the turns after each receive, and the calls that they have from their post.
use crate::calls::{are, have_come, holds, instance, is_got, message, messages, stops};
use crate::tables::{Missed, why_nothing};
use board::{Board, Post, Stop, TakeError, TakenMany};
use mailbox::Mailbox;
use std::alloc::Global;
use std::process::Abort;

/// A call of a mailbox, and its answer.
#[derive(Clone, Copy)]
enum Call {
    /// A send of a message with this name to an instance.
    Sends(u8, usize),
    /// A receive from any instance that has a message: it gets the message with this name from this instance, with
    /// these races.
    GetsAny(u8, usize, &'static [u32]),
    /// A receive of the message with this name from an instance, with these races.
    Gets(u8, usize, &'static [u32]),
    /// A receive of up to two messages from an instance, of which one waits: it has this name and these races.
    GetsUpTo(u8, usize, &'static [u32]),
}

/// Asserts that this message was received, and no other.
fn is_got_alone(rt: &impl Abort, taken: Result<TakenMany, TakeError>, letter: u8, races: &[u32]) {
    match taken {
        Ok(TakenMany::Got { arrivals, stop }) => {
            stops(rt, stop, Stop::NoMore);
            have_come(rt, arrivals.as_slice(), &[letter], races);
        }
        _ => panic!(rt; "no messages came"),
    }
}

/// Makes the call, and asserts its answer.
fn make(rt: &impl Abort, alloc: Global, mailbox: &mut Mailbox, call: &Call) {
    match *call {
        Call::Sends(letter, to) => {
            let sent = mailbox.send(instance(rt, to), message(rt, alloc, letter));
            holds(rt, "it is sent", sent.is_ok());
        }
        Call::GetsAny(letter, from, races) => is_got(rt, mailbox.any(), letter, from, races),
        Call::Gets(letter, from, races) => {
            is_got(rt, mailbox.receive(instance(rt, from)), letter, from, races)
        }
        Call::GetsUpTo(letter, from, races) => {
            let taken = mailbox.receive_up_to(instance(rt, from), 2);
            is_got_alone(rt, taken, letter, races)
        }
    }
}

const A: usize = 1;

const B: usize = 2;

const C: usize = 3;

/// The turn after a receive begins after its sender. No other call changes this.
static TURNS: [(usize, Call); 9] = [
    (A, Call::Sends(b'p', B)),
    (A, Call::Sends(b'q', B)),
    (C, Call::Sends(b'r', B)),
    (C, Call::Sends(b's', B)),
    (B, Call::Gets(b'p', A, &[])),
    (B, Call::Sends(b'o', A)),
    (B, Call::GetsAny(b'r', C, &[1, 2])),
    (B, Call::GetsUpTo(b'q', A, &[2, 3])),
    (B, Call::GetsAny(b's', C, &[1, 2, 4])),
];

/// The mailboxes make the calls, each of them by an instance.
fn make_all(rt: &impl Abort, alloc: Global, mailboxes: &mut [Mailbox], calls: &[(usize, Call)]) {
    for (by, call) in calls {
        assert!(rt; 1 <= *by && *by <= mailboxes.len());
        make(rt, alloc, &mut mailboxes[*by - 1], call);
    }
}

/// The mailboxes of these posts.
fn mailboxes<'a>(rt: &impl Abort, alloc: Global, posts: Vec<Post<'a>>) -> Vec<Mailbox<'a>> {
    let mut mailboxes = Vec::new(alloc);
    for post in posts {
        assert!(rt; mailboxes.push(Mailbox::new(post)).is_ok());
    }
    mailboxes
}

#[test]
fn turns_after_each_receive(rt: HostRuntime) {
    let mut board = Board::new(rt.alloc(), 3, 2).expect(&rt, "a board");
    let posts = board.posts().expect(&rt, "posts");
    let mut mailboxes = mailboxes(&rt, rt.alloc(), posts);
    make_all(&rt, rt.alloc(), mailboxes.as_mut_slice(), &TURNS);
}

/// Makes the calls that a mailbox has from its post. With room for three events it sends two messages at once.
fn calls(rt: &impl Abort, alloc: Global, mailbox: &mut Mailbox) {
    holds(rt, "its number", mailbox.number() == instance(rt, 2));
    holds(rt, "room is made", mailbox.reserve(3).is_ok());
    let messages = messages(rt, alloc, b"xy").expect(rt, "messages");
    let sent = mailbox.send_all(instance(rt, 1), messages);
    holds(rt, "they are sent", sent.is_ok());
    are(rt, "room", mailbox.room(), 1);
    holds(rt, "a coregion begins", mailbox.open_coregion().is_ok());
    holds(rt, "a coregion ends", mailbox.close_coregion().is_ok());
    are(rt, "events", mailbox.line().len(), 2);
}

/// Asserts that no message waits for the post of a mailbox.
fn nothing_waits(rt: &impl Abort, mailbox: Mailbox) {
    let mut post = mailbox.into_post();
    let taken = post.receive(instance(rt, 1));
    holds(
        rt,
        "nothing waits",
        why_nothing(rt, taken) == Missed::Nothing,
    );
}

/// Makes each call that a mailbox has from its post once.
#[test]
fn calls_of_the_post(rt: HostRuntime) {
    let mut board = Board::new(rt.alloc(), 2, 2).expect(&rt, "a board");
    let mut posts = board.posts().expect(&rt, "posts");
    let mut mailbox = Mailbox::new(posts.pop().expect(&rt, "a post"));
    calls(&rt, rt.alloc(), &mut mailbox);
    nothing_waits(&rt, mailbox);
}
