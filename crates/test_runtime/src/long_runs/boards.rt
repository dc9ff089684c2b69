//! Boards that are gathered, and new boards that take over what they left. Messages have names of one letter.
ghost use Rattle.std.specs.Prelude.{◌≡◌, ℕ, map};
ghost use Rattle.board.specs.Views.{BoardView};
ghost use Rattle.board.specs.Boards.{AreNewPosts};
ghost use Rattle.board.specs.Gathering.{left_view, closed_view};
ghost use Rattle.board.specs.LongRuns.CarriedHistories.{WereLeft};
ghost use Rattle.test_runtime.specs.LongRuns.Boards.{AreAt};

use board::long_runs::{CarryError, carry_over};
use board::{ClosedLane, GatherError, Gathered, Left, Post, gather};
use chart::{InstanceNo, Message, Name};
use closure::audit;
use std::alloc::Global;
use std::process::Abort;

pub fn instance(rt: &impl Abort, number: usize) -> InstanceNo {
    InstanceNo::new(number).expect(rt, "an instance")
}

pub fn name(rt: &impl Abort, letter: u8) -> Name {
    Name::new(&[letter]).expect(rt, "a name")
}

pub fn message(rt: &impl Abort, alloc: Global, letter: u8) -> Message {
    match Message::new(name(rt, letter), Vec::new(alloc)) {
        Ok(message) => message,
        Err(_) => panic!(rt; "a message"),
    }
}

/// The messages and closed lanes before the first board: none.
pub fn nothing_left(alloc: Global) -> (Vec<Left>, Vec<ClosedLane>)
    ensures { (n k : ℕ) → WereLeft n k (map left_view result.0.items) (map closed_view result.1.items) }
{
    (Vec::new(alloc), Vec::new(alloc))
}

/// What the board of these posts leaves: the lanes on which messages wait, and the closed lanes. An audit accepts its
/// chart and its reports.
pub fn gathered(rt: &impl Abort, alloc: Global, posts: Vec<Post>) -> (Vec<Left>, Vec<ClosedLane>)
    requires { (board : BoardView) × AreAt board posts.items }
    ensures { (board : BoardView) → AreAt board posts.entry.items → WereLeft board.size board.capacity
        (map left_view result.0.items) (map closed_view result.1.items) }
{
    match gather(alloc, posts) {
        Ok(
            Gathered {
                chart,
                reports,
                left,
                closed,
            },
        ) => {
            assert!(rt; audit(alloc, &chart, reports.as_slice()).is_ok());
            (left, closed)
        }
        Err(GatherError { posts: _, cause: _ }) => panic!(rt; "a gathered board"),
    }
}

/// The new posts take over these messages and closed lanes. It returns how many sends each of them carried.
pub fn carried(
    rt: &impl Abort,
    alloc: Global,
    posts: &mut [Post],
    left: Vec<Left>,
    closed: &[ClosedLane],
) -> Vec<usize>
    requires { (board : BoardView) × AreNewPosts board posts.old × WereLeft board.size board.capacity
        (map left_view left.items) (map closed_view closed.now) }
    ensures { (board : BoardView) → AreNewPosts board posts.old → AreAt board posts.new }
{
    match carry_over(alloc, posts, left, closed) {
        Ok(carried) => carried.sends,
        Err(CarryError { left: _, cause: _ }) => panic!(rt; "what was left, carried over"),
    }
}
