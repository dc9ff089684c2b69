//! The explanation of a race on a page: the output of `mscview why`, `mscview witness` and `mscview mend` for its two
//! events, and the rows of it that are shown.
//!
//! Unless an allocation is refused, [`answers_of`] returns the output of each command for the file's bytes. The rows
//! that are shown are those round the two events.

mod answers;
mod collected;
mod left;
mod rows;

pub use answers::{Subject, answers_of};
pub use collected::Collected;
pub use left::Left;
pub use rows::name_bytes;
