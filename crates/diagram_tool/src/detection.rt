//! The tool of a sequence diagram, detected from its text.
//!
//! [`detected_tool`] promises this: only the text's first word outside of comments decides. mscgen, PlantUML and
//! Mermaid have one such word each. Mermaid also has the line that begins a title block. For any other text the error
//! has the place of the first word, or states that there is none. Nothing here takes memory.

mod detection;
mod gaps;

pub use detection::{ToolError, detected_tool};
