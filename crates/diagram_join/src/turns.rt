//! The turns of another tool's diagram: whose event comes next, from the top.
//!
//! [`turns_in`] promises this. The turns are those of the messages of the diagram's chart, in the diagram's rows and in
//! the order of its text (`specs/Turns/Turns`, `specs/Turns/Diagrams`). Memory is the only refusal.

mod messages;
mod moments;
mod sends;

pub use messages::{messages_of, turns_in};
pub use moments::turns_of;
