//! Tests of calls on handles that have no post.

use crate::handles::calls::{holds, no_arrival, opened, pair};
use c_board::{
    AnyRefusal, CloseRefusal, EventRefusal, Handle, Misuse, OpenRefusal, ReserveRefusal,
    SendRefusal, TakeRefusal, Which,
};
use std::alloc::Global;
use std::process::Abort;

/// Asserts that each call is a misuse, and that the handle has no post afterwards.
fn misuses(rt: &impl Abort, alloc: Global, handle: &mut Handle) {
    changes_are_misuses(rt, alloc, handle);
    let mut bytes = [0; 8];
    let mut events = [0; 8];
    holds(
        rt,
        "an event",
        matches!(
            handle.event(1, &mut bytes),
            Err(EventRefusal::Misuse(Misuse::NoPost))
        ),
    );
    holds(
        rt,
        "races",
        matches!(
            handle.copy_races(Which::Last, &mut events),
            Err(Misuse::NoPost)
        ),
    );
}

/// Asserts this of the calls that change a post.
fn changes_are_misuses(rt: &impl Abort, alloc: Global, handle: &mut Handle) {
    let mut output = no_arrival();
    holds(
        rt,
        "a send",
        matches!(
            handle.send(alloc, 2, b"m", b""),
            Err(SendRefusal::Misuse(Misuse::NoPost))
        ),
    );
    holds(
        rt,
        "a receive",
        matches!(
            handle.receive(2, &mut output),
            Err(TakeRefusal::Misuse(Misuse::NoPost))
        ),
    );
    holds(
        rt,
        "any",
        matches!(handle.any(), Err(AnyRefusal::Misuse(Misuse::NoPost))),
    );
    holds(
        rt,
        "a close",
        matches!(handle.close(2), Err(CloseRefusal::Misuse(Misuse::NoPost))),
    );
    holds(
        rt,
        "room",
        matches!(
            handle.reserve(1),
            Err(ReserveRefusal::Misuse(Misuse::NoPost))
        ),
    );
}

/// A handle that has no post yet, and a handle whose post was freed.
#[test]
fn handles_without_posts(rt: HostRuntime) {
    let alloc = rt.alloc();
    let mut handle = Handle::empty();
    misuses(&rt, alloc, &mut handle);
    handle.end(alloc);
    let [mut first, second] = pair(&rt, alloc, 1);
    first.free(alloc);
    misuses(&rt, alloc, &mut first);
    first.end(alloc);
    second.end(alloc);
}

/// No board is opened with handles that have posts, and the posts stay.
#[test]
fn handles_with_posts_are_not_opened(rt: HostRuntime) {
    let alloc = rt.alloc();
    let mut handles = pair(&rt, alloc, 1);
    holds(
        &rt,
        "it is a misuse",
        matches!(opened(alloc, &mut handles, 1), Err(OpenRefusal::InUse)),
    );
    let [mut first, second] = handles;
    holds(&rt, "it sends", first.send(alloc, 2, b"m", b"").is_ok());
    first.end(alloc);
    second.end(alloc);
}
