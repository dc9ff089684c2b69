//! Schedules: who does what, in which order, and what that means.
//!
//! `specs/Meaning.antt` defines what a schedule's commands do: a history, and a note for each command that is refused.
//! `specs/ScheduleText.antt` defines a schedule's text, and `specs/Reading.antt` the result of reading any text.
//!
//! What is promised, unless an allocation is refused ([`Schedule::read`]): a schedule that is read has this text, to
//! the byte, and is within the limits. Each such text is read. For any other text the answer is the first fault, in the
//! order of `docs/reference/schedules.md`. So no two schedules have the same text, and the first faulty line decides,
//! whatever follows it ([`laws`]). [`Schedule::write`] writes exactly this text, or with F24 a beginning of it.
//!
//! [`outcomes`] has the outcome of a schedule. [`interleaver`] draws an order of its commands. [`turns`] shows whose
//! turn it is in a run.
#![tactic(auto)]

mod action_line;
mod command;
mod first_lines;
pub mod interleaver;
mod keyword;
mod known_line;
pub mod laws;
pub mod outcomes;
mod reading;
mod schedule;
mod text;
pub mod turns;

pub use command::{Action, Command, Note, Word};
pub use schedule::{Capacity, Schedule};
