//! Carries over what a board left to posts that borrow nothing.
ghost use Rattle.std.specs.Prelude.{◌≡◌, List, map};
ghost use Rattle.board.specs.declared.gathering.ClosedLane.{ClosedLane};
ghost use Rattle.board.specs.declared.long_runs.carrying.CarryCause.TheVariants.{Memory};
ghost use Rattle.board.specs.Parked.{AreAtBoard};
ghost use Rattle.board.specs.Gathering.{left_view, closed_view};
ghost use Rattle.board.specs.Meeting.{AreOfOneBoard};
ghost use Rattle.board.specs.LongRuns.CarryingOver.{MayAllCarry};
ghost use Rattle.c_board.specs.Carrying.{CarriesParked};

use crate::away::park_into;
use board::long_runs::{Carried, CarryCause, CarryError, carry_over};
use board::{ClosedLane, Left, Parked, SharedTable, wake_all};
use std::alloc::{AllocError, Global};

/// Posts that came back, and the answer of carrying over.
#[derive(Drop)]
pub(crate) struct Borne {
    pub posts: Vec<Parked>,
    pub answer: Result<Carried, CarryError>,
}

/// Nothing is carried over, for lack of memory.
fn unborne(posts: Vec<Parked>, left: Vec<Left>, cause: CarryCause) -> Borne
    requires { cause ≡ Memory }
    ensures posts { result.posts.items ≡ posts.items }
    ensures left { (closed : List ClosedLane) → CarriesParked left.items closed posts.items result.answer posts.items }
{
    Borne {
        posts,
        answer: Err(CarryError { left, cause }),
    }
}

/// Carries over what a board left to these posts, with their board's words. F15 or F6 refuses it. Then the posts come
/// back as they were, except that they may have more room, and what was left comes back too.
pub(crate) fn bear(
    alloc: Global,
    words: &SharedTable,
    posts: Vec<Parked>,
    left: Vec<Left>,
    closed: &[ClosedLane],
) -> Borne
    requires at { AreAtBoard words.now.key words.now.table_id posts.items }
    requires board { AreOfOneBoard posts.items }
    requires may { MayAllCarry (map left_view left.items) (map closed_view closed.now) posts.items }
    ensures { CarriesParked left.items closed.now posts.items result.answer result.posts.items }
{
    let mut parked = match Vec::with_capacity(alloc, posts.len()) {
        Ok(parked) => parked,
        Err(AllocError) => return unborne(posts, left, CarryCause::Memory),
    };
    let mut awake = match wake_all(alloc, words, posts) {
        Ok(awake) => awake,
        Err((posts, AllocError)) => return unborne(posts, left, CarryCause::Memory),
    };
    let answer = carry_over(alloc, &mut awake, left, closed);
    park_into(&mut parked, awake);
    Borne {
        posts: parked,
        answer,
    }
}
