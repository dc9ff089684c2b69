//! Runs that reverse a race, with as few slots as possible.
//!
//! `reordering::witness` takes a run and its number of slots, and finds another run in which a receive overtakes an
//! event. This module has the runs with which it begins, and the search for the least number of slots. It also makes
//! the schedule of the run that is found.
//!
//! What is promised, unless an allocation is refused:
//!
//! - A chart's lines are run as they are drawn, over lanes of a given number of slots, exactly if this is possible.
//!   Each line goes on as long as it can, and then the first line that can ([`run_within`]).
//! - The step that makes an event is found from the event's number ([`step_of`]).
//! - For a receive and another event: a run in which the receive overtakes the event, with the least number of slots
//!   for which there is one. Otherwise no run with the same events and causes has it, whatever the slots
//!   ([`overtake_of_chart`], [`overtake_of_schedule`]). The steps that have to come with the receive come first, and
//!   then the others. Both are in the order of the run with which the search begins.
//! - A schedule shows that run: it means exactly this run, and leaves no note ([`show`]).

mod going;
mod overtaking;
mod running;
mod scheduling;
mod showing;
mod steps;
mod tries;

pub use crate::recorded_run;
pub use overtaking::{Reordered, overtake_of_chart, overtake_of_run, overtake_of_schedule};
pub use running::{LeastRun, least_run, run_within};
pub use scheduling::schedule_of;
pub use showing::{Shown, show};
pub use steps::{event_of, has_event, is_receive, step_of};
