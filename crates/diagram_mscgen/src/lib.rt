//! Diagrams of mscgen: the grammar of texts, and the diagram of a text.
#![tactic(auto)]

pub mod grammar;
pub mod reading;
