//! Races as text: by the names of their messages, and with a verdict for each.
#![tactic(auto)]

pub mod judged;
pub mod named;
