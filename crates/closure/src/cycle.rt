//! Cycles of the enforced order: why a chart is refused by F18.
//!
//! What is promised of [`shortest_cycle`], for any chart whose receives all have their sends: it returns a shortest
//! cycle of direct steps, or that there is none. In the cycle each event is directly before the next one, and the last
//! before the first. It begins with its least event. Memory is the only refusal.
//!
//! A shortest cycle has two kinds of steps in turn: from the send of a message to its receive, and from there to a
//! later send of this line. So the search is for messages that lead around ([`round`]).

mod finding;
mod hearing;
mod numbers;
mod passing;
mod receiving;
mod round;
mod shortest;

pub use shortest::shortest_cycle;
