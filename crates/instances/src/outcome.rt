//! The result of a run of a whole board.
use crate::end::End;
use crate::trace::Trace;
use board::Gathered;

/// The result for all instances of a board, each driven in a thread.
#[derive(Drop)]
pub struct Run {
    pub gathered: Gathered,
    /// The trace of each post, in the order in which the posts were given.
    pub traces: Vec<Trace>,
    pub ends: Vec<End>,
}

/// Why a board isn't run, with posts `P` and behaviours `B`: the first of these that applies.
#[derive(Drop)]
pub enum RunError<P, B> {
    /// F25: the posts are not all of their board, there are more or fewer behaviours than posts, or there are no turns
    /// or more than [`crate::MAX_TURNS`]. Nothing was started, and posts and behaviours come back.
    InvalidInput(P, B),
    /// F6: a growth was refused.
    Memory,
}
