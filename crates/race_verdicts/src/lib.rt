//! What a recording shows besides its chart: what each receive would have taken, when messages arrived, and for each
//! race whether it was luck.
//!
//! The reader of a recording lends the values of these types. [`luck`] defines their meaning, and gives each race its
//! verdict.
#![tactic(auto)]

pub mod luck;
mod recording;
mod verdict;

pub use recording::{Arrival, LineWords, Pattern, Recording, Taken};
pub use verdict::{Verdict, VerdictRun};
