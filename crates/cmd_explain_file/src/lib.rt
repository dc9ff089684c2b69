//! What `mscview explain` does with the bytes of a file.
//!
//! What is promised of [`explain`]: the file's bytes determine the output's bytes, except for the choice among several
//! shortest cycles of a chart.
//!
//! - It reports the kind of the file and its first fault, which is the one that the readers return.
//! - The fault comes with its line, a caret under its place, and what may stand there. The place is a function of the
//!   line (`fault_places`).
//! - If events of a chart come before each other, it reports a shortest cycle (`fault_places`).
//! - If the file is refused as a text and has comments, and its exact text (`cmd_tidy`) has a fault, it reports that
//!   fault instead. The line is shown as in the exact text, with its number in the file.
//! - The exit status is 0 if there is no fault, 1 if one is reported, and 2 after a refusal. Nothing goes to the output
//!   before a refusal, unless a write fails (F24).
#![tactic(auto)]

mod adding;
mod explaining;
mod finding;
mod going_on;
mod judging;
mod kind;
mod saying;
mod undone;
mod verdict;
mod words;

pub use explaining::explain;
