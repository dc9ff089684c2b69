//! Texts, read and written: outputs, lines, words, and the instances that they name.
//!
//! What is promised:
//!
//! - A text goes to an [`Out`] through a buffer of a fixed size ([`TextBuffer`]), without memory. If a put fails, a
//!   beginning of the text was put, exactly one put failed, and none was tried after it.
//! - A text is cut into its lines and words ([`next_line`], [`words_in`], [`next_word`]). A line's fault is reported
//!   with its number ([`at_line`]).
//! - Words at the beginning and the end of bytes are those of a definition ([`stripped`], [`place_of`], `specs/Words`).
//!
//! [`reading`] reads long texts quickly. [`bytes`] handles the bytes of other tools' texts. [`pieces`] builds texts
//! from parts. [`digits`] reads numbers.
#![tactic(auto)]

pub mod bytes;
pub mod digits;
mod fault;
mod held;
mod instances;
mod lines;
mod out;
pub mod pieces;
pub mod reading;
mod retrying;
mod text_buffer;
mod word;
mod words;

pub use fault::{Cause, Fault, TextError};
pub use held::{BUFFERED, Held};
pub use instances::{add_name, at_line, fault_at, known_in, named};
pub use lines::next_line;
pub use out::{MemoryOut, Out, OutFault, StreamOut};
pub use text_buffer::{TextBuffer, WriteError};
pub use word::{Words, name_in, next_word, words_in};
pub use words::{
    begins, begins_blank, begins_with, behind_blanks, behind_keyword, behind_keyword_of,
    behind_word, blank_length, end_stripped, ends_word, first_place, is_comma, place_of, skip_word,
    stripped,
};
