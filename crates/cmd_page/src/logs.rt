//! What `mscview page --from log` writes for the bytes of a log, and its refusals.
//!
//! The bytes of the texts, the options and a title decide the output of [`page_of_log`]. This presupposes the matches
//! of an expression and their groups.
//!
//! - With status 0 it wrote exactly the page that `mscview page` writes for the chart of `mscview import`. If luck is
//!   known, its races are those that `mscview races --from log` writes, with the same words. Standard error has the
//!   warnings of an import. A last line is that none of the races is claimed, if each is begun in the middle.
//! - A log with one end of each message is refused (F52): no receive takes a send of it.
//! - With status 2 it wrote the refusal's line, or the beginning of it if standard error failed. Nothing was written
//!   to the output before, unless a write failed (F24).

mod judged;
mod showing;

pub use showing::{PageError, ShownPage, page_of_log};
