//! Drawn interleavings: a schedule's commands in an order that a seed decides.
//!
//! What is promised ([`drawn`]): the generator's words determine the order of the commands
//! (`specs/Interleaver/Interleavings.antt`). Each command keeps its line of the text, and each instance executes the
//! same commands in the same order. The only refusal is F6.

mod drawing;
mod error;
mod queue;

pub use drawing::drawn;
pub use error::Memory;
