//! Seats whose posts are elsewhere.
ghost use Rattle.std.specs.Prelude.{◌≡◌, true};
ghost use Rattle.c_board.specs.declared.kept.Kept.TheVariants.{Post};
ghost use Rattle.c_board.specs.Chairs.{Fits, IsParted, is_post, seat_with};

use crate::board_number::BoardNumber;
use crate::came::Came;
use crate::kept::Kept;
use crate::naming::Known;
use crate::post_state::PostState;
use board::{BoardTable, Parked};
use chart::InstanceNo;
use std::mem;
use std::sync::Arc;

/// What remains of a seat while its post is elsewhere. It keeps the box too, so that the post comes back without
/// memory.
#[derive(Drop)]
pub(crate) struct Chair {
    kept: Box<Kept>,
    pub(crate) table: Arc<BoardTable>,
    pub(crate) board_number: BoardNumber,
    last: Option<InstanceNo>,
    came: Came,
}

/// Posts that were taken out of their seats, and the seats in the same order.
#[derive(Drop)]
pub(crate) struct Taken {
    pub chairs: Vec<Chair>,
    pub posts: Vec<Parked>,
}

impl Chair {
    /// Takes the post out of its seat.
    pub(crate) fn of(kept: Box<Kept>) -> (Chair, Parked)
        requires { is_post (Some kept.value) ≡ true }
        ensures { IsParted kept.value result.0 result.1 }
    {
        let mut kept = kept;
        match mem::replace(&mut *kept, Kept::Away) {
            Kept::Post(state) => {
                let PostState {
                    table,
                    board_number,
                    parked,
                    last,
                    came,
                    known: _,
                } = state;
                let chair = Chair {
                    kept,
                    table,
                    board_number,
                    last,
                    came,
                };
                (chair, parked)
            }
            _ => unreachable!(),
        }
    }

    /// Puts a post into the seat.
    pub(crate) fn state(self, post: Parked) -> Box<Kept>
        requires { Fits self post }
        ensures { result.value ≡ Post (seat_with self post) }
    {
        let Chair {
            kept,
            table,
            board_number,
            last,
            came,
        } = self;
        let mut kept = kept;
        kept.put_seat(PostState {
            table,
            board_number,
            parked: post,
            last,
            came,
            known: Known::any(),
        });
        kept
    }
}
