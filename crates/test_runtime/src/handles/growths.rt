//! Tests of calls on handles whose growth is refused.

use crate::handles::calls::{gets, holds, opened, pair};
use c_board::{Handle, Numbered, Numbering};
use std::alloc::Global;
use std::process::Abort;
use std::test::Fail;

/// Whether memory was refused.
fn is_memory<T, E: Numbered>(answer: &Result<T, E>) -> bool {
    matches!(answer, Err(refusal) if refusal.number(Numbering::Alike) == 6)
}

/// Opens a board, at the second attempt if memory was refused.
fn opens(rt: &impl Abort, alloc: Global, handles: &mut [Handle]) {
    let answer = opened(alloc, handles, 2);
    if answer.is_err() {
        holds(rt, "F6", is_memory(&answer));
        holds(rt, "it is opened", opened(alloc, handles, 2).is_ok());
    }
}

/// Sends a message, at the second attempt if memory was refused.
fn sends_again(rt: &impl Abort, alloc: Global, post: &mut Handle, body: &[u8]) {
    let sent = post.send(alloc, 2, b"m", body);
    if sent.is_err() {
        holds(rt, "F6", is_memory(&sent));
        holds(rt, "it is sent", post.send(alloc, 2, b"m", body).is_ok());
    }
}

/// Makes room, at the second attempt if memory was refused.
fn reserves(rt: &impl Abort, post: &mut Handle) {
    let reserved = post.reserve(4);
    if reserved.is_err() {
        holds(rt, "F6", is_memory(&reserved));
        holds(rt, "room is made", post.reserve(4).is_ok());
    }
}

/// The last growth of a test. Its refusal shows that each growth before it was refused in an earlier run of the test.
fn every_growth_was_refused(alloc: Global) -> Result<(), Fail> {
    Vec::<u8>::with_capacity(alloc, 1)
        .ok()
        .ok_or("every growth was refused")?;
    Ok(())
}

/// If any growth is refused, a second call does what the first one was to do, and nothing is lost.
#[test]
fn refused_growths_over_handles(rt: HostRuntime) -> Result<(), Fail> {
    let alloc = rt.alloc();
    let mut handles = [Handle::empty(), Handle::empty()];
    opens(&rt, alloc, &mut handles);
    let [mut first, mut second] = handles;
    reserves(&rt, &mut second);
    sends_again(&rt, alloc, &mut first, b"1234");
    sends_again(&rt, alloc, &mut first, b"");
    first.end(alloc);
    second.end(alloc);
    every_growth_was_refused(alloc)
}
