//! Sequence diagrams of Mermaid, read statement by statement.
//!
//! [`read`] promises this: the result depends only on the text's bytes. It has the statements from the top, each with
//! its place, and the first fault, if there is one. Memory is refused only at a growth.
#![tactic(auto)]

mod arrow;
mod diagram;
mod meaning;
mod names;
mod note;
mod participant;
mod piece;
mod sign;
mod text;

pub use diagram::read;
