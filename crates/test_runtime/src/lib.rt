//! Tests of lanes, handles, long runs and behaviours.
//!
//! They are in a crate of their own, since a crate with tests is proved twice.
#![tactic(auto)]

pub mod behaviours;
pub mod handles;
pub mod lanes;
pub mod long_runs;
