//! Tests of calls that no text of a schedule can make: boards beyond the limits, and partners that don't exist.
use crate::calls::holds;
use crate::growths::many_posts;
use crate::tables::{Call, Missed, play};
use board::{Board, BoardError, CloseError, SendError, TakeError};
use std::alloc::Global;
use std::process::Abort;

/// Numbers of instances and of slots that no board has, and the refusal.
static NO_BOARDS: [(usize, usize, BoardError); 5] = [
    (0, 1, BoardError::Instances),
    (1, 0, BoardError::Instances),
    (33, 65, BoardError::Instances),
    (2, 0, BoardError::Capacity),
    (32, 65, BoardError::Capacity),
];

/// Asserts that there is no board with this number of instances and slots.
fn is_no_board(
    rt: &impl Abort,
    alloc: Global,
    instances: usize,
    capacity: usize,
    error: BoardError,
) {
    let refused = Board::new(alloc, instances, capacity).err();
    assert_eq!(rt; refused, Some(error));
}

#[test]
fn a_board_within_limits(rt: HostRuntime) {
    for (instances, capacity, error) in &NO_BOARDS {
        is_no_board(&rt, rt.alloc(), *instances, *capacity, *error);
    }
    let mut board = Board::new(rt.alloc(), 32, 64).expect(&rt, "a board");
    holds(&rt, "32 posts", many_posts(&rt, &mut board) == Some(32));
}

static NO_SUCH_PARTNER: [(usize, Call); 8] = [
    (2, Call::Open(Ok(()))),
    (2, Call::Send(3, b'm', Err(SendError::NoSuchInstance))),
    (2, Call::Send(2, b'm', Err(SendError::ToItself))),
    (2, Call::Miss(3, Missed::Refused(TakeError::NoSuchInstance))),
    (2, Call::Miss(2, Missed::Refused(TakeError::ToItself))),
    (2, Call::Close(3, Err(CloseError::NoSuchInstance))),
    (2, Call::Close(2, Err(CloseError::ToItself))),
    (2, Call::HasEvents(0)),
];

#[test]
fn no_such_partner(rt: HostRuntime) {
    play(&rt, rt.alloc(), 2, 1, &NO_SUCH_PARTNER);
}
