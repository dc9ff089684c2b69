//! The command `mscview import` for the bytes of a diagram: its chart, its warnings and its refusals.
//!
//! What is promised of [`import`]:
//!
//! - With status 0 exactly the text of the diagram's chart was written, and the chart is possible. Standard error has
//!   the warnings: the skipped constructs, in the order of their first places, the overtaking messages, and each name
//!   that differs from its label.
//! - With status 2 the refusal's line was written, or a beginning of it if standard error failed. Nothing was written
//!   to the output before that, unless a write failed (F24).
#![tactic(auto)]

mod diagnostics;
mod importing;
mod kind_words;
mod order;

pub use diagnostics::{add_left_out, add_overtaking, write_diagnostics};
pub use importing::{
    Diagnostics, ImportWriteError, ImportedDiagram, import, imported_diagram, refused_diagram,
};
pub use order::in_order;
