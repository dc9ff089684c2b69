//! The bytes of other tools' texts: their kinds, case-insensitive words, and places.
//!
//! What is promised: each function returns what its definition states (`specs/Bytes/Classes`, `specs/Bytes/Words`,
//! `specs/Bytes/Lines`, `specs/Bytes/Places`), for any bytes. Nothing here takes memory.

mod classes;
mod lines;
mod place;
mod words;

pub use classes::{is_blank, is_white_space, is_word_byte, printable};
pub use lines::line_length;
pub use place::{Place, START};
pub use words::{begins, is_spelled};
