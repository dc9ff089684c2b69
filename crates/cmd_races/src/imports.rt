//! What `mscview races --from` writes for the bytes of another tool's text, and its refusals.
//!
//! The bytes of the text, the tool, the options, the names of instances and the form decide the output of
//! [`races_of`].
//!
//! - With status 0 or 1 it wrote exactly the output of `mscview races` for the chart that `mscview import` writes for
//!   the same text. Standard error has the warnings of an import: the skipped parts, and the names that differ from
//!   their labels.
//! - With status 2 it wrote the refusal's line, or the beginning of it if standard error failed. Nothing was written
//!   to the output before, unless a write failed (F24).

mod showing;

pub use showing::{RaceShowError, Shown, races_of};
