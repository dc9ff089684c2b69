//! Tests of a worked run of three boards: which messages wait on each lane, which lanes are closed, and which races are
//! reported.
ghost use Rattle.std.specs.Prelude.{◌≡◌, map};
ghost use Rattle.board.specs.Views.{BoardView};
ghost use Rattle.board.specs.Gathering.{left_view, closed_view};
ghost use Rattle.board.specs.LongRuns.CarriedHistories.{WereLeft};
ghost use Rattle.test_runtime.specs.LongRuns.Boards.{AreAt};

use crate::long_runs::boards::{carried, gathered, instance, message, name, nothing_left};
use board::{Board, ClosedLane, Left, Post, SendError, Taken};
use std::alloc::Global;
use std::process::Abort;

/// A call of a post with a partner, and its result.
#[derive(Clone, Copy)]
enum Deed {
    /// It sends a message with this name.
    Sends(u8),
    /// Its send is refused.
    Fails(SendError),
    /// It receives a message with this name, with these races on its line.
    Gets(u8, &'static [u32]),
    /// No message waits for it, and the lane is open.
    FindsNothing,
    /// No message waits for it, and the lane is closed.
    FindsEnd,
    /// It closes its lane.
    Closes,
}

fn gets(rt: &impl Abort, post: &mut Post, from: usize, letter: u8, races: &[u32])
    ensures { post.new.board ≡ post.old.board }
{
    match post.receive(instance(rt, from)) {
        Ok(Taken::Got(arrival)) => {
            assert!(rt; arrival.message.name() == name(rt, letter));
            assert_eq!(rt; arrival.report.earlier().len(), races.len());
            for (earlier, index) in arrival.report.earlier().iter().zip(races) {
                assert_eq!(rt; earlier.index, *index);
            }
        }
        _ => panic!(rt; "no message came"),
    }
}

fn does(rt: &impl Abort, alloc: Global, post: &mut Post, partner: usize, deed: &Deed)
    ensures { post.new.board ≡ post.old.board }
{
    let with = instance(rt, partner);
    match *deed {
        Deed::Sends(letter) => assert!(rt; post.send(with, message(rt, alloc, letter)).is_ok()),
        Deed::Fails(error) => match post.send(with, message(rt, alloc, b'f')) {
            Ok(_) => panic!(rt; "it was sent"),
            Err((_back, why)) => assert_eq!(rt; why, error),
        },
        Deed::Gets(letter, races) => gets(rt, post, partner, letter, races),
        Deed::FindsNothing => assert!(rt; matches!(post.receive(with), Ok(Taken::Nothing))),
        Deed::FindsEnd => assert!(rt; matches!(post.receive(with), Ok(Taken::Ended))),
        Deed::Closes => assert!(rt; post.close(with).is_ok()),
    }
}

/// The posts make these calls: each has its instance, its partner, and the deed.
fn do_all(rt: &impl Abort, alloc: Global, posts: &mut [Post], deeds: &[(usize, usize, Deed)])
    ensures { (board : BoardView) → AreAt board posts.old → AreAt board posts.new }
{
    for (by, with, deed) in deeds {
        let by = *by;
        assert!(rt; 1 <= by && by <= posts.len());
        does(rt, alloc, &mut posts[by - 1], *with, deed);
    }
}

/// At the end messages wait on three lanes, one of which is closed. A fourth lane is closed too, and no message waits
/// on it.
static FIRST: [(usize, usize, Deed); 8] = [
    (1, 2, Deed::Sends(b'x')),
    (1, 2, Deed::Sends(b'y')),
    (2, 1, Deed::Gets(b'x', &[])),
    (1, 2, Deed::Sends(b'v')),
    (1, 3, Deed::Sends(b'z')),
    (1, 3, Deed::Closes),
    (3, 1, Deed::Closes),
    (2, 3, Deed::Sends(b'w')),
];

/// The lanes are as they were. The receive of `y` has a race with the send of `w`, which comes before it on the new
/// board.
static SECOND: [(usize, usize, Deed); 11] = [
    (1, 3, Deed::Fails(SendError::Closed)),
    (3, 1, Deed::Fails(SendError::Closed)),
    (1, 2, Deed::Fails(SendError::Full)),
    (2, 1, Deed::Gets(b'y', &[1])),
    (2, 1, Deed::Gets(b'v', &[1])),
    (2, 1, Deed::FindsNothing),
    (3, 1, Deed::Gets(b'z', &[])),
    (3, 1, Deed::FindsEnd),
    (1, 3, Deed::FindsEnd),
    (1, 2, Deed::Sends(b'u')),
    (2, 1, Deed::Gets(b'u', &[1])),
];

/// One message is still left, and both closed lanes stay closed.
static THIRD: [(usize, usize, Deed); 5] = [
    (3, 2, Deed::Gets(b'w', &[])),
    (3, 2, Deed::FindsNothing),
    (3, 1, Deed::FindsEnd),
    (1, 3, Deed::Fails(SendError::Closed)),
    (3, 1, Deed::Fails(SendError::Closed)),
];

/// The next board of three takes over what the one before left, by these numbers of sends for each instance. It makes
/// these calls, and leaves what waits then.
fn next_board(
    rt: &impl Abort,
    alloc: Global,
    left: Vec<Left>,
    closed: Vec<ClosedLane>,
    sends: &[usize],
    deeds: &[(usize, usize, Deed)],
) -> (Vec<Left>, Vec<ClosedLane>)
    requires { WereLeft 3 2 (map left_view left.items) (map closed_view closed.items) }
    ensures { WereLeft 3 2 (map left_view result.0.items) (map closed_view result.1.items) }
{
    let mut board = Board::new(alloc, 3, 2).expect(rt, "a board");
    let mut posts = board.posts().expect(rt, "posts");
    let taking = posts.as_mut_slice();
    let counted = carried(rt, alloc, taking, left, closed.as_slice());
    assert_eq!(rt; counted.as_slice(), sends);
    do_all(rt, alloc, taking, deeds);
    gathered(rt, alloc, posts)
}

#[test]
fn three_boards(rt: HostRuntime) {
    let alloc = rt.alloc();
    let (left, closed) = nothing_left(alloc);
    let (left, closed) = next_board(&rt, alloc, left, closed, &[0, 0, 0], &FIRST);
    assert_eq!(rt; left.len(), 3);
    assert_eq!(rt; closed.len(), 2);
    let (left, closed) = next_board(&rt, alloc, left, closed, &[3, 1, 0], &SECOND);
    assert_eq!(rt; left.len(), 1);
    let (left, closed) = next_board(&rt, alloc, left, closed, &[0, 1, 0], &THIRD);
    assert_eq!(rt; left.len(), 0);
    assert_eq!(rt; closed.len(), 2);
}
