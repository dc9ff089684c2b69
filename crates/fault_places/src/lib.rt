//! Places in texts: where a line has its fault and what may be there, which line has an event, and the steps of a cycle
//! of events.
//!
//! Promises:
//!
//! - What may be at each place of a line is a definition (`specs/Wants`), and so is the place of a fault by its cause
//!   (`specs/Spots`): the first word that can't be where it is, or that has the fault. None of this takes memory.
//! - The steps of a cycle are those of a shortest cycle of the chart, from its least event on ([`steps_of`]). F6 is the
//!   only refusal.
//! - The text of a step is a function of the step ([`add_step`]). F24 is the only refusal.
#![tactic(auto)]

mod cutting;
pub mod laws;
mod lines;
mod parts;
mod seeking;
mod spot;
mod step;
mod want;
mod writing;

pub use lines::{Standing, count_of_lines, line_from, line_of_event, standing_at};
pub use spot::{Spot, spot_in};
pub use step::{NamedEvent, Step, steps_of};
pub use want::Want;
pub use writing::add_step;
