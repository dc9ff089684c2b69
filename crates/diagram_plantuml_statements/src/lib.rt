//! Statements of PlantUML's sequence diagrams.
//!
//! [`reading_of`] promises this: the meaning of a statement, and the block that it begins, depend only on its words.
//! The first of PlantUML's forms that it has decides. [`add_meaning`] adds the statements of a meaning, and memory is
//! refused only at a growth.
#![tactic(auto)]

mod life;
mod look;
mod meaning;
mod note;
mod participant;
mod statements;

pub use look::{Block, ends_with_brace};
pub use meaning::{Meaning, Reading, reading_of};
pub use participant::last_place;
pub use statements::{add_meaning, add_one};
