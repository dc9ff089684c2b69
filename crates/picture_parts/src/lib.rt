//! The parts of a picture: the places of its columns, and the elements of its text.
#![tactic(auto)]

pub mod columns;
pub mod elements;
