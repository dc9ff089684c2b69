//! Gathered boards in handles.

use board::Gathered;
use std::marker::Model;

/// The result of gathering a whole board, and how many slots its lanes had. What the board left may be carried over to
/// a board with as many instances, and with lanes of at least as many slots.
#[derive(Drop)]
pub struct WholeBoard {
    pub(crate) gathered: Gathered,
    pub(crate) capacity: usize,
}

impl Model for WholeBoard {
    ghost use Rattle.std.specs.Prelude.{length, map};
    ghost use Rattle.board.specs.Gathering.{left_view, closed_view};
    ghost use Rattle.board.specs.LongRuns.CarriedHistories.{WereLeft};
    ghost use Rattle.c_board.specs.Wholes.{WholeView};

    ghost Value = { WholeView };

    ghost view = { λ whole. record { gathered = whole.gathered; capacity = whole.capacity } };

    ghost invariant = { λ whole. WereLeft (length whole.gathered.chart) whole.capacity
        (map left_view whole.gathered.left.items) (map closed_view whole.gathered.closed.items) };
}

impl WholeBoard {
    ghost use Rattle.std.specs.Prelude.{◌≡◌, length, map};
    ghost use Rattle.board.specs.Gathering.{left_view, closed_view};
    ghost use Rattle.board.specs.LongRuns.CarriedHistories.{WereLeft};

    /// What the gathering of a board returned, whose lanes had this number of slots.
    pub(crate) fn of(gathered: Gathered, capacity: usize) -> WholeBoard
        requires { WereLeft (length gathered.chart) capacity (map left_view gathered.left.items)
            (map closed_view gathered.closed.items) }
        ensures { result ≡ record { gathered = gathered; capacity = capacity } }
    {
        WholeBoard { gathered, capacity }
    }
}
