//! The parts of a log besides its messages: what each receive would have taken, and when messages arrived.
//!
//! What is promised, unless an allocation is refused: these parts are a function of the log's bytes
//! ([`read_observed`]). The words of its lines are a function of the bytes too ([`words_in`]). An arrival belongs to
//! the stream of the lines with its lane and its id or name ([`arrivals_in`]).

mod arrivals;
mod key;
mod messages;
mod observations;
mod patterns;
mod reading;

pub use arrivals::arrivals_in;
pub use key::Key;
pub use messages::{keys_in, words_in};
pub use observations::{Arrived, Observations};
pub use reading::read_observed;
