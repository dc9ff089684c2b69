//! Parts of which several texts are built: pieces of bytes and numbers, and races in words.
//!
//! What is promised: each call adds exactly the text that its contract states. If a put fails (F24), a beginning of it
//! was put. Nothing here takes memory.

mod pieces;
mod race_words;

pub use pieces::{Piece, add_pieces};
pub use race_words::{add_amount, add_range, add_ranges};
