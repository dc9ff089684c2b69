//! Arrows of PlantUML's sequence diagrams, with the names, colours, links and texts of its statements.
//!
//! [`arrow_of`] promises this: a statement is an arrow exactly if its words have the form of one, and the arrow depends
//! only on them. The same holds for the parts that other statements share.
#![tactic(auto)]

mod arrow;
mod body;
mod names;
mod runs;
mod tails;
mod tips;

pub use arrow::{Found, arrow_of, behind_brace, row_at};
pub use names::{behind_gap, name_at, quoted_at};
pub use runs::{Class, behind_byte, behind_run, run_at, run_length};
pub use tails::{Tail, behind_colour, colon_tail, coloured_tail};
