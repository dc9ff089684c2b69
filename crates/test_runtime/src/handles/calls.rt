//! The calls on handles that tests make, and the assertions about their answers.

use board::Peek;
use c_board::{
    Arrived, BoardNumber, Handle, Numbered, Numbering, OpenRefusal, SendRefusal, Which, open,
};
use chart::EventNo;
use std::alloc::Global;
use std::process::Abort;

/// Asserts that something holds.
pub fn holds(rt: &impl Abort, what: &str, fact: bool) {
    assert!(rt; fact, "not so: {what}");
}

/// Opens a board over the handles, with this number of slots on each lane.
pub fn opened(alloc: Global, handles: &mut [Handle], capacity: u32) -> Result<(), OpenRefusal> {
    let number = BoardNumber {
        origin: 1,
        count: 1,
    };
    open(alloc, handles, capacity, number)
}

/// Handles with the two posts of a board with this number of slots on each lane.
pub fn pair(rt: &impl Abort, alloc: Global, capacity: u32) -> [Handle; 2] {
    let mut handles = [Handle::empty(), Handle::empty()];
    holds(
        rt,
        "a board is opened",
        opened(alloc, &mut handles, capacity).is_ok(),
    );
    handles
}

/// The post sends a message, and asserts that this is its event with this number.
pub fn sends(
    rt: &impl Abort,
    alloc: Global,
    post: &mut Handle,
    to: u32,
    name: &[u8],
    body: &[u8],
    event: u32,
) {
    let sent = post.send(alloc, to, name, body);
    holds(
        rt,
        "it is sent",
        matches!(sent, Ok(EventNo { instance: _, index }) if index == event),
    );
}

/// Asserts that a send is refused by the refusal with this number.
pub fn is_refused(rt: &impl Abort, sent: Result<EventNo, SendRefusal>, number: u32) {
    holds(
        rt,
        "the refusal",
        matches!(sent, Err(refusal) if refusal.number(Numbering::Alike) == number),
    );
}

/// The output of a receive before any message has come.
pub fn no_arrival() -> Arrived {
    Arrived {
        from: 0,
        event: 0,
        name: 0,
        body: 0,
        races: 0,
    }
}

/// Asserts that the last message that came has this body and these races.
fn has_come(rt: &impl Abort, post: &mut Handle, body: &[u8], races: &[u32]) {
    let mut bytes = [0; 8];
    let copied = post.copy_body(Which::Last, &mut bytes);
    holds(
        rt,
        "the body's length",
        matches!(copied, Ok(many) if many == body.len()),
    );
    holds(rt, "the body", bytes.starts_with(body));
    let mut events = [0; 4];
    let copied = post.copy_races(Which::Last, &mut events);
    holds(
        rt,
        "how many races",
        matches!(copied, Ok(many) if many == races.len()),
    );
    holds(rt, "the races", events.starts_with(races));
}

/// Asserts that a receive from this instance gets a message with this body and these races.
pub fn gets(rt: &impl Abort, post: &mut Handle, from: u32, body: &[u8], races: &[u32]) {
    let mut output = no_arrival();
    let found = post.receive(from, &mut output);
    holds(rt, "a message", matches!(found, Ok(Peek::Message)));
    holds(rt, "the sender", output.from == from);
    has_come(rt, post, body, races);
}
