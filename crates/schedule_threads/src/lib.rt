//! The outcome of a run of a schedule on threads, in which each instance does its own commands, and the outcome's text.
//!
//! What is promised:
//!
//! - A schedule's instances run on a board of their own ([`run_schedule`]), with all that [`instances::run`] promises
//!   for it (`specs/OwnBoards.antt`).
//! - The scripts of a schedule's own commands run in the same way ([`run_scripts`], `specs/OwnScripts.antt`).
//! - A run has one outcome ([`RunOutcome::of`]). It has the chart and the reports that were gathered. By line, it has a
//!   note for each command that was refused or found its lane ended. It names the instances whose turns were spent.
//!   Turns with the answer full or nothing leave no note, since the script does its act again (`specs/RunNotes.antt`).
//!   The run has no other outcome ([`laws::one_run_outcome_law`]).
//! - A note belongs to the command that left it ([`laws::turns_law`]).
//! - If memory was refused in the run (F6), there is no outcome.
//! - An outcome's text is written whole, or with F24 a beginning of it ([`RunOutcome::write`]).
//!
//! [`scripts`] makes the script of each instance.
#![tactic(auto)]

pub mod laws;
mod notes;
mod own_scripts;
mod run_outcome;
mod running;
pub mod scripts;
mod text;

pub use own_scripts::run_scripts;
pub use run_outcome::RunOutcome;
pub use running::run_schedule;
