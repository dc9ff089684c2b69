//! Tests of several messages in one call. Either all or none are sent. They are received in order with their races,
//! until something stops the receive.
use crate::tables::{Call, Missed, Turns, play, play_turns};
use board::{SendError, Stop, TakeError};

/// A number of instances, a number of slots, and the calls that are made on such a board.
type Played = (usize, usize, &'static [(usize, Call)]);

static PLAYED: [Played; 6] = [
    // All or none are sent, and at most a given number is received.
    (
        2,
        4,
        &[
            (1, Call::SendAll(2, b"xyz", Ok(&[1, 2, 3]))),
            (1, Call::SendAll(2, b"vw", Err(SendError::Full))),
            (2, Call::GetAll(1, 2, b"xy", &[], Stop::Asked)),
            (1, Call::SendAll(2, b"vw", Ok(&[4, 5]))),
            (2, Call::GetAll(1, 9, b"zvw", &[], Stop::NoMore)),
            (2, Call::Miss(1, Missed::Nothing)),
            (1, Call::SendAll(2, b"abcde", Err(SendError::TooMany))),
        ],
    ),
    // A send without messages makes no event, even if the lane is full.
    (
        2,
        4,
        &[
            (1, Call::SendAll(2, b"xyz", Ok(&[1, 2, 3]))),
            (2, Call::Gets(1, b"xyz", &[])),
            (1, Call::SendAll(2, b"", Ok(&[]))),
            (1, Call::SendAll(2, b"abcd", Ok(&[4, 5, 6, 7]))),
            (1, Call::SendAll(2, b"", Ok(&[]))),
            (1, Call::HasEvents(7)),
        ],
    ),
    // Two messages of one call each race with an earlier message from another sender.
    (
        3,
        2,
        &[
            (1, Call::SendAll(2, b"x", Ok(&[1]))),
            (3, Call::SendAll(2, b"yz", Ok(&[1, 2]))),
            (2, Call::Gets(1, b"x", &[])),
            (2, Call::Gets(3, b"yz", &[1])),
        ],
    ),
    // If several causes apply, the first of them is the answer. For an empty list only the first four apply.
    (
        2,
        1,
        &[
            (1, Call::Open(Ok(()))),
            (1, Call::SendAll(3, b"xy", Err(SendError::NoSuchInstance))),
            (1, Call::SendAll(1, b"xy", Err(SendError::ToItself))),
            (1, Call::SendAll(2, b"xy", Err(SendError::InCoregion))),
            (1, Call::Shut(Ok(()))),
            (1, Call::Open(Ok(()))),
            (1, Call::SendAll(3, b"", Err(SendError::NoSuchInstance))),
            (1, Call::SendAll(1, b"", Err(SendError::ToItself))),
            (1, Call::SendAll(2, b"", Err(SendError::InCoregion))),
            (1, Call::Shut(Ok(()))),
            (1, Call::SendAll(2, b"xy", Err(SendError::TooMany))),
            (1, Call::SendAll(2, b"x", Ok(&[1]))),
            (1, Call::SendAll(2, b"y", Err(SendError::Full))),
            (1, Call::SendAll(2, b"yz", Err(SendError::TooMany))),
            (1, Call::Close(2, Ok(()))),
            (1, Call::SendAll(2, b"yz", Err(SendError::Closed))),
            (1, Call::SendAll(2, b"", Err(SendError::Closed))),
            (1, Call::HasEvents(1)),
        ],
    ),
    // A receive stops at the given number of messages, or if no more wait. At the end of the lane nothing comes.
    (
        2,
        4,
        &[
            (1, Call::Sends(2, b"xyz")),
            (2, Call::GetAll(1, 2, b"xy", &[], Stop::Asked)),
            (2, Call::GetAll(1, 9, b"z", &[], Stop::NoMore)),
            (2, Call::MissAll(1, 9, Missed::Nothing)),
            (2, Call::Miss(1, Missed::Nothing)),
            (1, Call::Sends(2, b"u")),
            (1, Call::Close(2, Ok(()))),
            (2, Call::GetAll(1, usize::MAX, b"u", &[], Stop::NoMore)),
            (2, Call::MissAll(1, 1, Missed::Ended)),
            (2, Call::MissAll(2, 1, Missed::Refused(TakeError::ToItself))),
            (
                2,
                Call::MissAll(3, 1, Missed::Refused(TakeError::NoSuchInstance)),
            ),
        ],
    ),
    // Two messages from one sender each race with an earlier message from another sender.
    (
        3,
        2,
        &[
            (1, Call::Sends(2, b"x")),
            (3, Call::Sends(2, b"yz")),
            (2, Call::Gets(1, b"x", &[])),
            (2, Call::GetAll(3, 2, b"yz", &[1], Stop::Asked)),
        ],
    ),
];

#[test]
fn several_by_one_call(rt: HostRuntime) {
    for (instances, capacity, calls) in &PLAYED {
        play(&rt, rt.alloc(), *instances, *capacity, calls);
    }
}

static THREE: [(usize, Call); 2] = [
    (1, Call::SendsAll(2, b"xyz")),
    (2, Call::Gets(1, b"xyz", &[])),
];

static LAST_PLACE: [(usize, Call); 5] = [
    (1, Call::SendAll(2, b"vw", Err(SendError::LineFull))),
    (1, Call::SendAll(2, b"v", Ok(&[4096]))),
    (1, Call::SendAll(2, b"w", Err(SendError::LineFull))),
    (1, Call::SendAll(2, b"", Ok(&[]))),
    (2, Call::Gets(1, b"v", &[])),
];

/// A line of 4,095 events has room for one more event. It has no room for two, though the lane is full.
#[test]
fn several_fill_a_line(rt: HostRuntime) {
    let turns = Turns {
        first: &[],
        times: 1365,
        turn: &THREE,
        last: &LAST_PLACE,
    };
    play_turns(&rt, rt.alloc(), 2, 3, &turns);
}

static OWN_SEND: [(usize, Call); 1] = [(2, Call::Sends(1, b"w"))];

static TWO: [(usize, Call); 2] = [
    (1, Call::Sends(2, b"xy")),
    (2, Call::GetAll(1, 64, b"xy", &[1], Stop::NoMore)),
];

static STOPPED: [(usize, Call); 5] = [
    (1, Call::Sends(2, b"xy")),
    (
        2,
        Call::GetAll(1, 64, b"x", &[1], Stop::Refused(TakeError::LineFull)),
    ),
    (
        2,
        Call::MissAll(1, 64, Missed::Refused(TakeError::LineFull)),
    ),
    (2, Call::Miss(1, Missed::Refused(TakeError::LineFull))),
    (
        1,
        Call::MissAll(2, 64, Missed::Refused(TakeError::LineFull)),
    ),
];

/// The receiver's line has room for one of the two waiting messages. The other one stays the first of its lane. Both
/// race with the receiver's own send, which their sender doesn't know of.
#[test]
fn full_line_stops_several(rt: HostRuntime) {
    let turns = Turns {
        first: &OWN_SEND,
        times: 2047,
        turn: &TWO,
        last: &STOPPED,
    };
    play_turns(&rt, rt.alloc(), 2, 64, &turns);
}
