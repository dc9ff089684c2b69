//! The differences of two recordings of one system, and what `mscview compare` does with the bytes of two files.
//!
//! What is promised of [`compared`]: for each line exactly the pairs of events that are in the opposite order in the
//! other recording, and the events that only one of the two has. Each pair has its verdict in both recordings.
//!
//! What is promised of [`compare`]: the bytes of the two files, and whether JSON is wanted, determine the output's
//! bytes.
//!
//! - With status 0 both recordings have the same order of any two events that both have. With status 1 some pair is in
//!   opposite orders. In both cases exactly these pairs were written, line by line, and the events that only one
//!   recording has. Each pair has its verdict in both recordings.
//! - With status 2 the refusal's line was written, or a beginning of it if standard error failed. Nothing went to the
//!   output before the refusal, unless a write failed (F24). F40: the two have different instances.
#![tactic(auto)]

mod answering;
mod comparison;
mod comparison_text;
mod error;
mod fronts;
mod json;
mod lane_end;
mod matching;
mod naming;
mod pairs;
mod part;
mod plain;
mod showing;
mod verdict;
mod word;

pub use comparison::{LineComparison, Recordings, compared};
pub use error::CompareError;
pub use fronts::Ordered;
pub use naming::counterparts;
pub use pairs::{Difference, Pair};
pub use showing::{Form, compare};
pub use verdict::{Verdict, event_at};
