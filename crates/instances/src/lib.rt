//! Instances that are driven by behaviours, and the record of their runs.
//!
//! [`drive`] passes a behaviour's acts to a mailbox and the mailbox's answers to the behaviour, turn by turn, until the
//! behaviour stops or its turns are spent. It returns a [`Trace`] of all turns. A [`Gate`] is called before each act.
//! [`run`] does this with all posts of a board, each in a thread, and gathers the board. `specs/Answering.antt` defines
//! what a mailbox may answer to an act, and `Driving` a run of a behaviour. `Traces` defines what a trace keeps, and
//! `Whole` the result of a board's run. An audit by the offline checker accepts this result ([`laws::accepted_law`]).
#![tactic(auto)]

mod acting;
mod driver;
mod end;
mod gate;
mod jobs;
pub mod laws;
mod outcome;
mod threads;
mod trace;
mod turn;

pub use driver::drive;
pub use end::End;
pub use gate::{Gate, Open};
pub use outcome::{Run, RunError};
pub use threads::{MAX_TURNS, run};
pub use trace::{Stretch, Trace};
pub use turn::Turn;
