//! The posts of a board that were freed before the board is gathered: a shelf keeps them, without locks and without
//! waiting, until somebody takes them.
//!
//! A [`Shelf`] lies beside its board's table, and threads share it. It has a [`Ticket`] for each post of the board: the
//! right to keep the post on the shelf. [`Shelf::keep`] takes the post with its ticket, cannot be refused and needs no
//! memory. [`Shelf::take`] takes the post of some number from the shelf, and gives back its ticket. So a post that was
//! taken can be kept again.
//!
//! A ticket knows the changes of the shelf that it has seen, the newest first (`specs/Shelves.antt`). They are always
//! the first of all changes so far, in the one order in which the shelf changed. A post that is taken is the one that
//! was kept last.
#![tactic(auto)]

mod change;
mod issuing;
mod knowledge;
mod rule;
mod shelf;
mod taking;
mod ticket;

pub use change::Change;
pub use shelf::Shelf;
pub use ticket::{Receipt, Ticket};
