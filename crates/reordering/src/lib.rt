//! Other runs of a chart's events: those that reverse a pair, one such run as a list of steps, and the pairs that keep
//! their order if instances run to completion.
#![tactic(auto)]

pub mod completion;
pub mod other_runs;
pub mod witness;
