//! What `mscview races` writes for the bytes of a file, and its refusals.
//!
//! The bytes of the file, the names of instances and the form decide the output of [`races`].
//!
//! - With status 0 or 1 it wrote exactly the text of the selected races. They are from the reports of the receives of
//!   the file's chart, which some run has. They are those of the named instances, or of all, with the earlier events
//!   that are shown. With run to completion they are the races that are left when instances finish before they
//!   receive again. The status is 1 if a race is shown, and otherwise 0.
//! - With status 2 it wrote the refusal's line, or the beginning of it if standard error failed. Nothing was written
//!   to the output before, unless a write failed (F24).
//!
//! [`show_judged`] promises the same for a chart's races with the words of given verdicts, or for those that were luck
//! or may have been. [`show_unknown`] does if luck isn't known: it refuses `--luck` (G1), after a name that isn't the
//! chart's (F34).
//!
//! [`imports`] is for diagrams of other tools, [`logs`] for logs, and [`schedules`] for `--luck` with a schedule.
#![tactic(auto)]

pub mod imports;
mod judging;
pub mod logs;
pub mod schedules;
mod showing;
mod shown_file;

pub use judging::{LuckWanted, show_judged, show_unknown};
pub use showing::{Wanted, races, show_chart};
