//! A pair of events that a command line names, its refusals, and the lines that explain it.
//!
//! What is promised:
//!
//! - [`pair_in`] finds exactly the receive and the earlier event of its line that the words name, or refuses the words
//!   (F31, F32).
//! - [`refused`] prints the refusal's line, or a beginning of it if standard error fails.
//! - [`write_sayings`] and [`write_chain`] write exactly their lines, unless a write fails (F24). Nothing here takes
//!   memory.

mod answering;
mod error;
mod pair;
mod saying;

pub use answering::refused;
pub use error::PairError;
pub use pair::{Asked, Pair, pair_in};
pub use saying::{Saying, hidden_text, write_chain, write_sayings};
