//! What `mscview draw --from` writes for the bytes of another tool's text, and what it reports if it refuses them.
//!
//! The text, the tool, the options for reading, and what is wanted of the picture decide the bytes of the output of
//! [`draw_of`]:
//!
//! - With status 0 it wrote exactly the text of the picture of the chart that `mscview import` writes for the same
//!   text. `mscview draw` writes the same picture for this chart, with two exceptions. The events are in the order of
//!   the diagram's rows (`specs/Imports/Turns`). The notes and dividers of the diagram are in the margin
//!   (`diagram_import::margin`).
//! - With status 0 standard error also has the warnings of an import, except those about constructs that the picture
//!   has. They list the constructs that are missing, the messages that overtake another one, and each name that isn't
//!   the words of its label.
//! - With status 2 it wrote the refusal's line, or a beginning of it if standard error failed. It wrote nothing to the
//!   output before that, unless a write failed (F24).

mod diagnostics;
mod drawing;

pub use diagnostics::Diagnostics;
pub use drawing::{PictureError, draw_of, turns_of_text};
