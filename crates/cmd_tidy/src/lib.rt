//! Texts of schedules and charts as people type them: their exact texts, and the command `mscview tidy`.
//!
//! What is promised of [`exact_text`], unless an allocation is refused: the exact text is that of a definition over the
//! typed one (`specs/Typing`). Comments from `#` on, lines without a word, and blanks that aren't between words are
//! dropped. One space is between words, and a line feed ends each line. The short forms `a -> b m` and `b <- a` are
//! written out. The result also has the numbers of the typed lines that stay, and of those whose comments are dropped.
//! A text that is already exact stays as it is ([`laws`]).
//!
//! What is promised of [`tidy`]: the bytes of the file decide the output's bytes.
//!
//! - With status 0 exactly the exact text of the typed one was written, and it is a schedule or a chart. Standard error
//!   reports the number of dropped comments.
//! - With status 2 the refusal's line was written, with the number of the typed line, or a beginning of it if standard
//!   error failed. Nothing was written to the output before that, unless a write failed (F24).
#![tactic(auto)]

mod comments;
mod exact;
pub mod laws;
mod line;
mod tidying;

pub use exact::{ExactText, exact_text};
pub use tidying::{tidy, typed_line};
