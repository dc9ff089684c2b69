//! The result of a replay, by whichever means: an outcome and its text, or why there is none.
//!
//! What is promised:
//!
//! - A schedule has exactly one outcome ([`one_outcome_law`]), whose chart is possible ([`possible_outcome_law`]).
//! - Notes are sorted by line, and those of one line stay in the order in which they came ([`put_by_line`]).
//! - An outcome's text is written whole, or with F24 a beginning of it ([`Outcome::write`]).

mod error;
mod notes;
mod outcome;
mod text;

pub use error::ReplayError;
pub use notes::put_by_line;
pub use outcome::{Outcome, one_outcome_law, possible_outcome_law};
pub use text::add_outcome;
