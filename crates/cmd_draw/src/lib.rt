//! What `mscview draw` and `mscview export` write for a file, and what they report if they refuse it.
//!
//! The bytes of the file and the options in [`Wanted`] decide the bytes of the output of [`draw`]:
//!
//! - With status 0 it wrote exactly the text of a picture. The picture shows the chart in the file, which is possible.
//!   It is drawn from a layout of the chart, the other ends of its messages and the reports of its receives. It has the
//!   named columns, or all of them. In these it has the chosen events in the chosen rows, and the other ends of their
//!   messages.
//! - With status 2 it wrote the refusal's line, or a beginning of it if standard error failed. It wrote nothing to the
//!   output before that, unless a write failed (F24).
//! - [`events_in`] reads exactly the words that have two numbers, joined by two dots. The first number is at least 1
//!   and not above the second. [`file_name`] returns the part of a path after its last `/`.
//!
//! [`export`] promises the same, with the text of a tool in place of the picture. With status 0 standard error also
//! lists what such a text can't express. These are coregions, and a message that isn't level and for which the tool has
//! no arrow.
//!
//! [`witness`] draws, beside the chart, a run with a pair of its events in the other order. [`imports`] draws diagrams
//! of other tools.
#![tactic(auto)]

mod answering;
mod drawing;
mod error;
mod events;
mod exporting;
pub mod imports;
mod preparing;
mod target;
mod title;
mod windows;
pub mod witness;

pub use answering::refused_picture;
pub use drawing::{Wanted, draw, draw_chart};
pub use error::DrawError;
pub use events::{Events, events_in};
pub use exporting::export;
pub use preparing::{Prepared, Reports, prepare_by, turns_in};
pub use target::{Target, target_in, tool_in};
pub use title::file_name;
pub use windows::{Around, Rows, Window, window_in};
