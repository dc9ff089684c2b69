//! Tests of sends with room, which take no memory once the room is there.
use crate::calls::{are, every_growth_was_refused, instance, message, sends};
use board::{Board, Post};
use chart::MAX_EVENTS;
use std::alloc::Global;
use std::process::Abort;
use std::test::Fail;

/// The number of messages that are sent: as many as the lane has slots.
const MESSAGES: usize = 64;

/// Sends the messages.
fn send_all(rt: &impl Abort, alloc: Global, post: &mut Post) {
    let second = instance(rt, 2);
    for _ in 0..MESSAGES {
        sends(rt, post, second, message(rt, alloc, b'x'));
    }
}

/// Makes room for a whole line, if memory isn't refused, and then sends messages, even if all memory is refused from
/// then on.
fn sends_with_room(rt: &impl Abort, alloc: Global, post: &mut Post) {
    let mut room = 0;
    if post.reserve(MAX_EVENTS).is_ok() {
        send_all(rt, alloc, post);
        room = MAX_EVENTS - MESSAGES;
    }
    are(rt, "room", post.room(), room);
}

/// It also holds if not only one growth is refused, but all later ones too.
#[test]
fn refused_growths_from_there_on(rt: HostRuntime) -> Result<(), Fail> {
    if let Ok(mut board) = Board::new(rt.alloc(), 8, MESSAGES) {
        if let Ok(mut posts) = board.posts() {
            let post = posts.get_mut(0).expect(&rt, "a post");
            sends_with_room(&rt, rt.alloc(), post);
        }
    }
    every_growth_was_refused(rt.alloc())
}
