//! The rule of a shelf's table, and what its steps guarantee.
ghost use Rattle.atomic_table.specs.Seated.{TableId};
ghost use Rattle.board_table.specs.declared.shape.Shape.{Shape};
ghost use Rattle.freed_posts.specs.Knowing.{unissued, first_issued, rest_unissued};
ghost use Rattle.freed_posts.specs.Plays.{Issues, KeepsAt, TakesAt, Hands};
ghost use Rattle.freed_posts.specs.Rule.{IsShelf, no_table};
ghost use Rattle.std.specs.Prelude.{[], ◌==◌};

use crate::knowledge::Knowledge;
use atomic_table::{Play, Split, Table, TableRule};
use board::{Parked, SharedTable};
use std::alloc::Global;
use std::marker::{Brand, PhantomData};

/// The rule: there is one list of changes with which all words, all places at home and everything that the seats know
/// agree.
pub(crate) struct ShelfRule;

impl TableRule<Option<Parked>, Knowledge, SharedTable> for ShelfRule {
    ghost holds = { λ board. IsShelf board.key board.table_id };

    ghost first = { λ board. unissued 0 board.key.instances [] };
}

/// The table of a shelf: for each post of the board a word, which is 1 while the post is on the shelf, and a slot.
pub(crate) type ShelfTable = Table<Option<Parked>, Knowledge, SharedTable, ShelfRule, Global>;

/// Its words and slots, as threads share them.
pub(crate) type Places = atomic_table::Shared<Option<Parked>, Knowledge, SharedTable, ShelfRule>;

/// A token of no bytes, with which a ticket makes its steps.
pub(crate) type Seat = atomic_table::Seat<Option<Parked>, Knowledge>;

/// The board of a step, only for the proof. A call at `Brand` picks it.
pub(crate) trait Site {
    ghost key: { Shape };

    ghost board: { TableId };
}

impl Site for Brand {
    ghost key = { record { instances = 0; capacity = 0 } };

    ghost board = { no_table };
}

/// Splits off a seat for the next place that is to be issued.
pub(crate) struct First;

impl Split<Knowledge> for First {
    ghost left = { rest_unissued };

    ghost right = { first_issued };
}

/// Takes the place of a ticket out.
pub(crate) struct Issue;

impl Play<Option<Parked>, Knowledge> for Issue {
    ghost then = { λ step m found w. Issues step.word m w };
}

/// Publishes a post that is kept.
pub(crate) struct Keep;

impl Play<Option<Parked>, Knowledge> for Keep {
    ghost then = { λ step m found w. KeepsAt step.word m w };
}

/// Takes a post out, if it is there.
pub(crate) struct Take<A>(PhantomData<A>);

impl<A: Site> Play<Option<Parked>, Knowledge> for Take<A> {
    ghost then = { λ step m found w. TakesAt A.key A.board step.word m (found == 1) w };
}

/// Gives the empty place of a taken post back, for a new ticket.
pub(crate) struct Hand;

impl Play<Option<Parked>, Knowledge> for Hand {
    ghost then = { λ step m found w. Hands step.word m w };
}
