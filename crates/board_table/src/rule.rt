//! The rule of a board's table, and what its steps guarantee.
ghost use Rattle.std.specs.Prelude.{ℕ, [], ◌∷◌};
ghost use Rattle.board_table.specs.Layout.{LaneView};
ghost use Rattle.board_table.specs.Knowing.{first_of, later_of, note_of};
ghost use Rattle.board_table.specs.Plays.{ClaimsAnew, ClaimsAgain, FindsAnew, FindsAgain, LooksAt, Publishes, Closes, Frees};
ghost use Rattle.board_table.specs.Plays.{PutsBack, MeetsBeside};
ghost use Rattle.board_table.specs.Leaving.{Leaves};
ghost use Rattle.board_table.specs.Rule.{Kept, new_helds};

use crate::{Held, Packet, Shape};
use atomic_table::{Join, Play, Split, TableRule};
use std::collections::LinkedList;
use std::marker::{Brand, PhantomData};

/// The rule: there is one legal history with which all words, all slots at home and everything that the seats know
/// agree.
pub struct BoardRule;

impl TableRule<Option<Packet>, LinkedList<Held>, Shape> for BoardRule {
    ghost holds = { λ shape. Kept shape.instances shape.capacity };

    ghost first = { λ shape. new_helds shape.instances shape.capacity 1 shape.instances };
}

/// A board's table, as threads share it.
pub type SharedTable = atomic_table::Shared<Option<Packet>, LinkedList<Held>, Shape, BoardRule>;

/// A token of no bytes, with which a post makes its steps. It has what the post knows.
pub type Seat = atomic_table::Seat<Option<Packet>, LinkedList<Held>>;

/// The place of a step, only for the proof: the lane, and the coregion of a free. A call at `Brand` picks them.
pub(crate) trait Site {
    ghost lane: { LaneView };

    ghost region: { ℕ };
}

impl Site for Brand {
    ghost lane = { record { instances = 0; capacity = 0; sender = 0; receiver = 0 } };

    ghost region = { 0 };
}

pub(crate) struct ClaimAnew<A>(PhantomData<A>);

impl<A: Site> Play<Option<Packet>, LinkedList<Held>> for ClaimAnew<A> {
    ghost then = { λ step m found w. ClaimsAnew A.lane m found w };
}

pub(crate) struct ClaimAgain<A>(PhantomData<A>);

impl<A: Site> Play<Option<Packet>, LinkedList<Held>> for ClaimAgain<A> {
    ghost then = { λ step m found w. ClaimsAgain A.lane m w };
}

pub(crate) struct FindAnew<A>(PhantomData<A>);

impl<A: Site> Play<Option<Packet>, LinkedList<Held>> for FindAnew<A> {
    ghost then = { λ step m found w. FindsAnew A.lane m found w };
}

pub(crate) struct LookAt<A>(PhantomData<A>);

impl<A: Site> Play<Option<Packet>, LinkedList<Held>> for LookAt<A> {
    ghost then = { λ step m found w. LooksAt A.lane m found w };
}

pub(crate) struct FindAgain<A>(PhantomData<A>);

impl<A: Site> Play<Option<Packet>, LinkedList<Held>> for FindAgain<A> {
    ghost then = { λ step m found w. FindsAgain A.lane m w };
}

pub(crate) struct Publish<A>(PhantomData<A>);

impl<A: Site> Play<Option<Packet>, LinkedList<Held>> for Publish<A> {
    ghost then = { λ step m found w. Publishes A.lane m w };
}

pub(crate) struct CloseLane<A>(PhantomData<A>);

impl<A: Site> Play<Option<Packet>, LinkedList<Held>> for CloseLane<A> {
    ghost then = { λ step m found w. Closes A.lane m w };
}

pub(crate) struct Free<A>(PhantomData<A>);

impl<A: Site> Play<Option<Packet>, LinkedList<Held>> for Free<A> {
    ghost then = { λ step m found w. Frees A.lane A.region m w };
}

pub(crate) struct PutBackFilling<A>(PhantomData<A>);

impl<A: Site> Play<Option<Packet>, LinkedList<Held>> for PutBackFilling<A> {
    ghost then = { λ step m found w. PutsBack m w };
}

pub(crate) struct PutBackEmptying<A>(PhantomData<A>);

impl<A: Site> Play<Option<Packet>, LinkedList<Held>> for PutBackEmptying<A> {
    ghost then = { λ step m found w. PutsBack m w };
}

/// Splits off a seat for the first post of several.
pub(crate) struct First;

impl Split<LinkedList<Held>> for First {
    ghost left = { later_of };

    ghost right = { λ view. first_of view ∷ [] };
}

/// Splits off a note of what a post has seen.
pub(crate) struct Copied;

impl Split<LinkedList<Held>> for Copied {
    ghost left = { λ view. view };

    ghost right = { λ view. note_of (first_of view) ∷ [] };
}

/// Joins the view of a post with that of a note after it.
pub(crate) struct Beside;

impl Join<LinkedList<Held>> for Beside {
    ghost both = { λ view note. first_of view ∷ first_of note ∷ [] };

    ghost spent = { [] };
}

/// A note leaves the post beside it.
pub(crate) struct Parted;

impl Split<LinkedList<Held>> for Parted {
    ghost left = { λ view. first_of view ∷ [] };

    ghost right = { later_of };
}

/// A post sees what the note beside it has seen, and the note sees what the post has seen.
pub(crate) struct Meet;

impl Play<Option<Packet>, LinkedList<Held>> for Meet {
    ghost then = { λ step m found w. MeetsBeside m w };
}

/// A post leaves, with the messages that wait for it.
pub(crate) struct Leave;

impl Play<Option<Packet>, LinkedList<Held>> for Leave {
    ghost then = { λ step m found w. Leaves m w };
}
