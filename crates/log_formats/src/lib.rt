//! Forms of logs beside the plain one: lines by an expression, and lines with vector time.
#![tactic(auto)]

pub mod clocks;
pub mod patterns;
