//! Charts from sequence diagrams of other tools.
//!
//! [`import_text`] promises this, unless an allocation is refused. The chart, the skipped constructs and the reported
//! names depend only on the text's bytes and on the options (`specs/Importing`). If a text has no chart, the result is
//! its first refusal. Skipped lines become blanks before anything is read. A strict import refuses the first construct
//! that would be skipped.
//!
//! The diagram of a text depends only on them too ([`diagram_of_text`], `specs/Reading`). Other readers also use the
//! text without skipped lines and byte order mark ([`blanked`], [`behind_mark`]), and find a place in it
//! ([`without_lines`], [`from_column`]).
//!
//! [`margin`] has the notes and dividers in a picture's margin.
#![tactic(auto)]

mod error;
mod importing;
pub mod margin;
mod places;
mod read_text;
mod reading;
mod skipping;

pub use error::ImportError;
pub use importing::{Options, behind_mark, import_text};
pub use places::{from_column, without_lines};
pub use read_text::diagram_of_text;
pub use skipping::{Skip, blanked};
