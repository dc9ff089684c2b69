//! The tasks of the program `mscrun` with the bytes of a file, and their refusals.
//!
//! What is promised of [`perform`]: the bytes of the file, the task and its seed decide the output's bytes.
//!
//! - With status 0 or 1 exactly the text of the schedule's outcome was written, or exactly the races of the chart,
//!   which is possible. Status 1 means that there are races.
//! - With status 2 the refusal's line was written, or a beginning of it if standard error failed. Nothing was written
//!   to the output before that, unless a write failed (F24).
//! - If the instances of a schedule run on threads, the output is the outcome of a run of its own scripts
//!   ([`perform_on_threads`]). Each instance executes its own commands, in their order. The parts of this are public
//!   too: [`scripts`], [`run_schedule`] and [`show_run`], with which any run decides the output's bytes.
//! - [`turns_in`] reads exactly the words of digits alone whose number is one of turns that a run may have.
#![tactic(auto)]

mod checking;
mod replaying;
mod showing;
mod task;
mod turns;

pub use schedule_threads::scripts::scripts;
pub use schedule_threads::{run_schedule, run_scripts};
pub use showing::{perform_on_threads, show_run};
pub use task::{Task, perform};
pub use turns::turns_in;
