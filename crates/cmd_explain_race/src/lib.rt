//! What `mscview why` and `mscview witness` do with the bytes of a file, and their refusals.
//!
//! What is promised of [`why`]: the bytes of the file, an instance's name and the numbers of two events determine the
//! output's bytes.
//!
//! - With status 0 the enforced order puts the event before the receive. Exactly a shortest chain of direct steps was
//!   written, each with its rule.
//! - With status 1 the order doesn't put it there. Exactly the events that have to come before the receive were
//!   written, line by line. Then come the receive's line as it was and, beside it, the line as it may be. No other such
//!   lines exist ([`one_explanation_law`]).
//! - With status 2 the refusal's line was written, or a beginning of it if standard error failed. Nothing went to the
//!   output before the refusal, unless a write failed (F24).
//!
//! What is promised of [`witness`], which looks for the other order of the two. Here a run is one with the same events
//! and causes.
//!
//! - With status 0 no run has the receive before the event, with any number of slots, and nothing was written to the
//!   output.
//! - With status 1 exactly the text of a schedule was written, which refuses no command and describes such a run. It
//!   has the fewest slots that allow one, among those over which the chart itself is possible. For a schedule these
//!   begin at its own capacity, and for a chart at 1. The events that have to come with the receive are first, and then
//!   come the others. For a schedule both have the order of its run. For a chart they have the order of the run of its
//!   lines in which each instance continues as long as it can.
//! - With status 2 the same holds as above. A pair that needs more than 64 slots is refused, with their number (F33).
#![tactic(auto)]

mod answering;
mod explained;
mod explaining;
mod file_pairs;
mod finding;
mod verdict;
mod witnessing;

pub use explained::one_explanation_law;
pub use file_pairs::{why, why_of_source};
pub use finding::{Found, found_in, judged};
pub use verdict::{Explained, Verdict, Witnessed};
pub use witnessing::{witness, witness_of_source};
