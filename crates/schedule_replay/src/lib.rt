//! Replays a schedule's commands one after the other over running posts: the instances of a board, on one thread.
//!
//! What is promised ([`replay`]): the outcome is the meaning of the schedule. It has the chart of the history that the
//! commands make. It has exactly the report of each receive of this chart, by instance and index, and the notes by
//! line. The only refusal is F6. The accepted sends and receives are also returned as a run, step by step
//! ([`recorded_run`]).
//!
//! All posts meet before each command, so each has seen the whole history so far. The next meeting shows that only the
//! command's own post has gone on in between. So each answer is exact. At the end the board is gathered.
//!
//! [`notes`] lists the notes in the order of the commands, with the sends that came too late. [`reordered_runs`] finds
//! a run in which a receive comes first.
#![tactic(auto)]

mod commands;
pub mod notes;
mod recorded;
pub mod reordered_runs;
mod run;
mod steps;

pub use recorded::recorded_run;
pub use run::replay;
