//! Instances, messages and arrivals that tests make and check, and assertions.
//!
//! Each assertion is a function. The borrow checker's part of a proof grows with each branch of a function, and an
//! `assert!` or an `assert_eq!` is a branch.
ghost use Rattle.std.specs.Prelude.{◌≡◌};
ghost use Rattle.board.specs.Meeting.{AreOfOneBoard};

use board::{Arrival, Post, SendError, TakeError, Taken};
use chart::{EventNo, InstanceNo, Message, Name, Report};
use std::alloc::Global;
use std::process::Abort;
use std::test::Fail;

/// Asserts that something holds.
pub fn holds(rt: &impl Abort, what: &str, fact: bool) {
    assert!(rt; fact, "not so: {what}");
}

/// Asserts how many there are.
pub fn are(rt: &impl Abort, what: &str, many: usize, wanted: usize) {
    assert!(rt; many == wanted, "{what}: {many}, and not {wanted}");
}

/// Asserts that the call succeeds, and drops its answer.
pub fn succeeds<T: Drop, E: Drop>(rt: &impl Abort, what: &str, answer: Result<T, E>) {
    assert!(rt; answer.is_ok(), "not so: {what}");
}

/// Whether the call succeeds. Its answer is dropped.
pub fn is_done<T: Drop, E: Drop>(answer: Result<T, E>) -> bool {
    answer.is_ok()
}

/// Puts a value at the end of a list.
pub fn put<T: Drop>(rt: &impl Abort, list: &mut Vec<T>, value: T) {
    assert!(rt; list.push(value).is_ok());
}

pub fn instance(rt: &impl Abort, number: usize) -> InstanceNo {
    InstanceNo::new(number).expect(rt, "an instance")
}

pub fn name(rt: &impl Abort, letter: u8) -> Name {
    Name::new(&[letter]).expect(rt, "a name")
}

/// The last growth of a test. Its refusal shows that each growth before it was refused in an earlier run of the test.
pub fn every_growth_was_refused(alloc: Global) -> Result<(), Fail> {
    Vec::<u8>::with_capacity(alloc, 1)
        .ok()
        .ok_or("every growth was refused")?;
    Ok(())
}

/// The posts without the last one, and the last one.
pub fn apart<'a>(posts: Vec<Post<'a>>) -> (Vec<Post<'a>>, Option<Post<'a>>)
    requires { AreOfOneBoard posts.items }
    ensures { AreOfOneBoard result.0.items }
{
    let mut others = posts;
    let last = others.pop();
    (others, last)
}

/// A message without a body. It takes no memory.
pub fn message(rt: &impl Abort, alloc: Global, letter: u8) -> Message {
    match Message::new(name(rt, letter), Vec::new(alloc)) {
        Ok(message) => message,
        Err(_) => panic!(rt; "a message"),
    }
}

/// Sends a message.
pub fn sends(rt: &impl Abort, post: &mut Post, to: InstanceNo, message: Message)
    ensures { post.new.board ≡ post.old.board }
{
    succeeds(rt, "it is sent", post.send(to, message));
}

/// The message that was received.
pub fn arrival_of(rt: &impl Abort, taken: Result<Taken, TakeError>) -> Arrival {
    match taken {
        Ok(Taken::Got(arrival)) => arrival,
        _ => panic!(rt; "no message came"),
    }
}

/// Asserts that the message has this name.
fn is_named(rt: &impl Abort, message: &Message, letter: u8) {
    holds(rt, "the message's name", message.name() == name(rt, letter));
}

/// Asserts that a send of a message with this name returns the number of its event, or the refusal. With a refusal the
/// message comes back.
pub fn sends_as(
    rt: &impl Abort,
    alloc: Global,
    post: &mut Post,
    to: usize,
    letter: u8,
    answer: Result<u32, SendError>,
)
    ensures { post.new.board ≡ post.old.board }
{
    match post.send(instance(rt, to), message(rt, alloc, letter)) {
        Ok(sent) => holds(rt, "its event", answer == Ok(sent.event.index)),
        Err((back, error)) => {
            holds(rt, "the refusal", answer == Err(error));
            is_named(rt, &back, letter);
        }
    }
}

/// Asserts that this is the event with this number, or none.
fn is_race(rt: &impl Abort, event: Option<EventNo>, race: Option<u32>) {
    match event {
        Some(event) => holds(rt, "the race", race == Some(event.index)),
        None => holds(rt, "no race", race.is_none()),
    }
}

/// Asserts that the report has this race, or none.
fn has_race(rt: &impl Abort, report: &Report, race: Option<u32>) {
    let mut earlier = report.earlier().iter();
    is_race(rt, earlier.next(), race);
    is_race(rt, earlier.next(), None);
}

/// Asserts that the message that came has this name, this sender, and this race or none.
pub fn has_come(rt: &impl Abort, arrival: &Arrival, letter: u8, from: usize, race: Option<u32>) {
    is_named(rt, &arrival.message, letter);
    holds(rt, "the sender", arrival.from == instance(rt, from));
    has_race(rt, &arrival.report, race);
}
