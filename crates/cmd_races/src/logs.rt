//! What `mscview races --from log` writes for the bytes of a log, and its refusals.
//!
//! The bytes of the texts, the options, the names of instances and the form decide the output of [`races_of_log`].
//! This presupposes the matches of an expression and their groups.
//!
//! - With status 0, 1 or 3 it wrote exactly the races of the chart that `mscview import` writes for the same texts.
//!   If luck is known, each race has the word of its verdict, or only those of luck are there. Standard error has the
//!   warnings of an import. A further line states if each selected race is begun in the middle. The status is 1 if a
//!   race is shown. If none is, it is 3 if there are selected races and each is begun in the middle, since nothing is
//!   known then. Otherwise it is 0.
//! - A log with one end of each message is refused (F52): no receive takes a send of it.
//! - With status 2 it wrote the refusal's line, or the beginning of it if standard error failed. Nothing was written
//!   to the output before, unless a write failed (F24).

mod known;
mod showing;

pub use known::ShownRaces;
pub use showing::{RaceShowError, Shown, races_of_log};
