//! Tests of scripts, each with its end.
use crate::behaviours::calls::{Does, Driven, Says, drives};
use board::{Board, RegionError, SendError};
use instances::End;
use mailbox::Mailbox;

static SENDS: Driven = Driven {
    acts: &[Does::Send(2, b'x'), Does::Send(2, b'x'), Does::Close(2)],
    most: 9,
    trace: &[
        (1, Does::Send(2, b'x'), Says::Sent(1, 1)),
        (1, Does::Send(2, b'x'), Says::Sent(1, 2)),
        (1, Does::Close(2), Says::NowClosed),
        (1, Does::Stop, Says::Stopped),
    ],
    end: End::Stopped,
};

static RECEIVES: Driven = Driven {
    acts: &[
        Does::Open,
        Does::Receive(1),
        Does::Any,
        Does::Shut,
        Does::Shut,
        Does::Any,
        Does::Any,
    ],
    most: 9,
    trace: &[
        (1, Does::Open, Says::Marked),
        (1, Does::Receive(1), Says::Got(1, 2, 1)),
        (1, Does::Any, Says::Got(1, 2, 2)),
        (1, Does::Shut, Says::Marked),
        (1, Does::Shut, Says::Unmarked(RegionError::CoregionNotOpen)),
        (2, Does::Any, Says::Ended),
        (1, Does::Stop, Says::Stopped),
    ],
    end: End::Stopped,
};

#[test]
fn scripts_stop_at_their_ends(rt: HostRuntime) {
    let alloc = rt.alloc();
    let mut board = Board::new(alloc, 2, 4).expect(&rt, "a board");
    let mut posts = board.posts().expect(&rt, "posts").into_iter();
    for driven in [&SENDS, &RECEIVES] {
        let post = posts.next().expect(&rt, "a post");
        drives(&rt, alloc, Mailbox::new(post), driven);
    }
}

static SPENT: [Driven; 4] = [
    Driven {
        acts: &[Does::Send(2, b'x'), Does::Send(2, b'x')],
        most: 9,
        trace: &[
            (1, Does::Send(2, b'x'), Says::Sent(1, 1)),
            (8, Does::Send(2, b'x'), Says::Unsent(SendError::Full)),
        ],
        end: End::TurnsSpent,
    },
    Driven {
        acts: &[Does::Any, Does::Stop],
        most: 1_000_000,
        trace: &[(1_000_000, Does::Any, Says::Nothing)],
        end: End::TurnsSpent,
    },
    Driven {
        acts: &[Does::Stop, Does::Send(2, b'x')],
        most: 9,
        trace: &[(1, Does::Stop, Says::Stopped)],
        end: End::Stopped,
    },
    Driven {
        acts: &[],
        most: 0,
        trace: &[],
        end: End::TurnsSpent,
    },
];

/// One mailbox, driven by several scripts one after the other.
#[test]
fn scripts_spend_their_turns(rt: HostRuntime) {
    let alloc = rt.alloc();
    let mut board = Board::new(alloc, 2, 1).expect(&rt, "a board");
    let mut posts = board.posts().expect(&rt, "posts").into_iter();
    let mut mailbox = Mailbox::new(posts.next().expect(&rt, "a post"));
    for driven in &SPENT {
        mailbox = drives(&rt, alloc, mailbox, driven);
    }
}
