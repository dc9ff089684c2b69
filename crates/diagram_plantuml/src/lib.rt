//! Texts of PlantUML's sequence diagrams, read line by line.
//!
//! [`read`] promises this: the result depends only on the text's bytes. It has the statements from the top, each with
//! its place, and the first fault, if there is one. Memory is refused only at a growth.
#![tactic(auto)]

mod comments;
mod diagram;
mod directives;
mod ends;
mod joints;
mod region;
mod standing;

pub use diagram::read;
pub use joints::joined_text;
