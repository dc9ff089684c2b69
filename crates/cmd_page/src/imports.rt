//! What `mscview page --from` writes for the bytes of another tool's text, and its refusals.
//!
//! The bytes of the text, the tool, the options and a title decide the output of [`page_of_diagram`].
//!
//! - With status 0 it wrote the page that `mscview page` writes for the chart of `mscview import`, with one
//!   exception. The events of its picture are in the order of the diagram's rows, as in the picture of `mscview draw
//!   --from`. Standard error has the warnings of an import: the skipped parts, and the names that differ from their
//!   labels.
//! - With status 2 it wrote the refusal's line, or the beginning of it if standard error failed. Nothing was written
//!   to the output before, unless a write failed (F24).

mod diagram_pages;

pub use diagram_pages::{PageError, page_of_diagram};
