//! Which races of a chart are shown: all of them, or some of them.
//!
//! [`Showing`] says which: only those whose earlier event is a receive, only those that remain with run to completion,
//! or only those that are both. [`shown_reports`] makes the reports of exactly these races, with a report for each
//! receive. Writers that take no memory ask for each event instead ([`is_kept`]).
#![tactic(auto)]

mod kept;
mod reports;
mod showing;

pub use kept::{event_at, is_kept};
pub use reports::shown_reports;
pub use showing::Showing;
