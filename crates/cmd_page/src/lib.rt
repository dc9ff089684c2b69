//! What `mscview page` writes for the bytes of a file: the page of its chart, or a refusal.
//!
//! The bytes of the file and a title decide the output of [`write_page_of`].
//!
//! - With status 0 it wrote exactly the text of a page. Some run has the file's chart. The picture is the output of
//!   `mscview draw` for the file. The page lists each range of earlier events in each receive's report, by the names
//!   of its messages. Each has the events that must come before the receive. A race that is described in full has the
//!   output of `mscview why`, `mscview witness` and `mscview mend`. These are for the receive and the range's first
//!   event.
//! - With status 2 it wrote the refusal's line, or the beginning of it if standard error failed. Nothing was written
//!   to the output before, unless a write failed (F24).
//!
//! [`show_chart_text`] promises the same with the text of a chart in place of the file's bytes. If a [`Heading`] has
//! turns, the picture is the output of `mscview draw` for the chart in this order. If it has races with verdicts, the
//! page lists these, with the words of `mscview races --from log`.
//!
//! [`marks`] has the numbers that a page marks, [`text`] its text, and [`answers`] the explanation of each race.
//! [`imports`] and [`logs`] make pages of diagrams and of logs.
#![tactic(auto)]

pub mod answers;
pub mod imports;
pub mod logs;
pub mod marks;
mod races;
mod showing;
pub mod text;
mod text_page;

pub use marks::{MOST_BYTES, MOST_EXPLAINED};
pub use showing::{Heading, show_text, write_page_of};
pub use text_page::show_chart_text;
