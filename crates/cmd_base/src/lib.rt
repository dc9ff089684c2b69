//! What the programs have in common: how the bytes of a file are read, and how a refusal is written.
//!
//! What is promised:
//!
//! - [`schedule_in`] and [`chart_in`] return the contents of the text, or its first fault. [`is_schedule`]
//!   distinguishes a schedule from a chart by the first word.
//! - [`closure_of`] accepts exactly the charts that some run has. It refuses any other chart by its first fault.
//! - [`refused`] and [`refused_by`] write a refusal's line, or a beginning of it, and return the exit status 2.
//! - [`Source::not_done`] returns how many commands of a schedule did nothing, and the line of the first one.
//!   [`print_not_done`] prints both. [`refused_strictly`] refuses a schedule with such commands.
//! - [`number_in`] accepts exactly the words that consist of digits only and whose number fits in 64 bits.
//!
//! [`named`] writes refusals that name an instance, [`columns`] reads which instances are shown, and [`pairs`] reads a
//! pair of events that a command line names.
#![tactic(auto)]

mod answer;
mod chart_part;
mod charts;
pub mod columns;
mod error;
mod kind;
pub mod named;
mod not_done;
mod number;
pub mod pairs;
mod refusal;
mod schedules;
mod source;
mod status;
mod strict;
mod text;

pub use answer::{Answer, answered, print_diagnostics};
pub use charts::{chart_in, closure_of};
pub use error::ProgramError;
pub use kind::is_schedule;
pub use not_done::{NotDone, print_not_done};
pub use number::number_in;
pub use refusal::{refused, refused_by};
pub use schedules::schedule_in;
pub use source::Source;
pub use status::Status;
pub use strict::refused_strictly;
pub use text::{NamedChart, Text};
