//! The calls of posts that tests make, and the assertions about their answers. Messages have names of one letter.
//!
//! Each assertion is a function. The borrow checker's part of a proof grows with each branch of a function, and an
//! `assert!` or an `assert_eq!` is a branch.
ghost use Rattle.std.specs.Prelude.{◌≡◌};
ghost use Rattle.board.specs.Meeting.{AreOfOneBoard};

use board::{Arrival, Left, Post, SendError, Stop, TakeError, Taken};
use chart::{EventNo, InstanceNo, Message, Name, Report};
use std::alloc::{AllocError, Global};
use std::process::Abort;
use std::test::Fail;

/// Asserts that something holds.
pub fn holds(rt: &impl Abort, what: &str, fact: bool) {
    assert!(rt; fact, "not so: {what}");
}

/// Asserts how many there are.
pub fn are(rt: &impl Abort, what: &str, many: usize, wanted: usize) {
    assert_eq!(rt; many, wanted, "{what}");
}

/// Asserts why a receive of several messages stopped.
pub fn stops(rt: &impl Abort, stop: Stop, wanted: Stop) {
    assert_eq!(rt; stop, wanted);
}

pub fn instance(rt: &impl Abort, number: usize) -> InstanceNo {
    InstanceNo::new(number).expect(rt, "an instance")
}

pub fn name(rt: &impl Abort, letter: u8) -> Name {
    Name::new(&[letter]).expect(rt, "a name")
}

pub fn message(rt: &impl Abort, alloc: Global, letter: u8) -> Message {
    match Message::new(name(rt, letter), Vec::new(alloc)) {
        Ok(message) => message,
        Err(_) => panic!(rt; "a message"),
    }
}

/// The last growth of a test. Its refusal shows that each growth before it was refused in an earlier run of the test.
pub fn every_growth_was_refused(alloc: Global) -> Result<(), Fail> {
    Vec::<u8>::with_capacity(alloc, 1)
        .ok()
        .ok_or("every growth was refused")?;
    Ok(())
}

/// The posts without the last one, and the last one.
pub fn apart<'a>(posts: Vec<Post<'a>>) -> (Vec<Post<'a>>, Option<Post<'a>>)
    requires { AreOfOneBoard posts.items }
    ensures { AreOfOneBoard result.0.items }
{
    let mut others = posts;
    let last = others.pop();
    (others, last)
}

/// Messages with these names.
pub fn messages(
    rt: &impl Abort,
    alloc: Global,
    letters: &[u8],
) -> Result<Vec<Message>, AllocError> {
    let mut messages = Vec::with_capacity(alloc, letters.len())?;
    for letter in letters {
        messages.push(message(rt, alloc, *letter))?;
    }
    Ok(messages)
}

/// Asserts that the message has this name.
fn is_named(rt: &impl Abort, message: &Message, letter: u8) {
    holds(rt, "the message's name", message.name() == name(rt, letter));
}

/// Asserts that the messages have these names.
pub fn are_named(rt: &impl Abort, messages: &[Message], letters: &[u8]) {
    are(rt, "messages", messages.len(), letters.len());
    for (message, letter) in messages.iter().zip(letters) {
        is_named(rt, message, *letter);
    }
}

/// Asserts that one message with this name is left, on the lane from 1 to 2.
pub fn is_left(rt: &impl Abort, left: &[Left], letter: u8) {
    assert!(rt; left.len() == 1);
    holds(rt, "the sender", left[0].sender == instance(rt, 1));
    holds(rt, "the receiver", left[0].receiver == instance(rt, 2));
    are_named(rt, left[0].messages.as_slice(), &[letter]);
}

/// Sends a message with this name. It returns the number of its event, or the refusal.
pub fn send(
    rt: &impl Abort,
    alloc: Global,
    post: &mut Post,
    to: usize,
    letter: u8,
) -> Result<u32, SendError>
    ensures { post.new.board ≡ post.old.board }
{
    let to = instance(rt, to);
    match post.send(to, message(rt, alloc, letter)) {
        Ok(sent) => Ok(sent.event.index),
        Err((back, error)) => {
            is_named(rt, &back, letter);
            Err(error)
        }
    }
}

/// Sends a message with this name, and once more if memory was refused.
pub fn sends_again(rt: &impl Abort, alloc: Global, post: &mut Post, to: usize, letter: u8)
    ensures { post.new.board ≡ post.old.board }
{
    let to = instance(rt, to);
    if let Err((back, _)) = post.send(to, message(rt, alloc, letter)) {
        is_named(rt, &back, letter);
        assert!(rt; post.send(to, back).is_ok());
    }
}

/// Asserts that a send returns the number of its event, or the refusal.
pub fn sends_as(
    rt: &impl Abort,
    alloc: Global,
    post: &mut Post,
    to: usize,
    letter: u8,
    answer: Result<u32, SendError>,
)
    ensures { post.new.board ≡ post.old.board }
{
    assert_eq!(rt; send(rt, alloc, post, to, letter), answer);
}

/// Asserts that this is the event with this number of the instance.
pub fn is_event(rt: &impl Abort, event: &EventNo, instance: InstanceNo, index: u32) {
    assert_eq!(rt; *event, EventNo { instance, index });
}

/// Asserts that the report has these races, which are events of the receive's instance.
fn has_races(rt: &impl Abort, report: &Report, races: &[u32]) {
    let own = report.receive().instance;
    are(rt, "races", report.earlier().len(), races.len());
    for (earlier, index) in report.earlier().iter().zip(races) {
        is_event(rt, &earlier, own, *index);
    }
}

/// Asserts that the message that came has this name and these races.
pub fn has_come(rt: &impl Abort, arrival: &Arrival, letter: u8, races: &[u32]) {
    is_named(rt, &arrival.message, letter);
    has_races(rt, &arrival.report, races);
}

/// Asserts that the messages that came have these names, and each of them these races.
pub fn have_come(rt: &impl Abort, arrivals: &[Arrival], letters: &[u8], races: &[u32]) {
    are(rt, "arrivals", arrivals.len(), letters.len());
    for (arrival, letter) in arrivals.iter().zip(letters) {
        has_come(rt, arrival, *letter, races);
    }
}

/// Asserts that a message with this name, sender and races was received.
pub fn is_got(
    rt: &impl Abort,
    taken: Result<Taken, TakeError>,
    letter: u8,
    from: usize,
    races: &[u32],
) {
    match taken {
        Ok(Taken::Got(arrival)) => {
            holds(rt, "the sender", arrival.from == instance(rt, from));
            has_come(rt, &arrival, letter, races)
        }
        _ => panic!(rt; "no message came"),
    }
}

/// Receives a message with this name and these races.
pub fn gets(rt: &impl Abort, post: &mut Post, from: usize, letter: u8, races: &[u32])
    ensures { post.new.board ≡ post.old.board }
{
    let taken = post.receive(instance(rt, from));
    is_got(rt, taken, letter, from, races);
}
