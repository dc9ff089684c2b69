//! Sequence diagrams of mscgen 0.20.
//!
//! [`read`] promises this: the diagram, or the first fault, depends only on the text's bytes. Each entity is a
//! participant, and its first statement counts. Each message between two of them is an arrow in its row, and a message
//! to all others is an arrow to each. A note with a text at one participant stays a note.
//!
//! Other arcs and repeated entities are skipped and counted, each kind with its first place. A spacer without a label
//! isn't counted. Memory is refused only at a growth.

mod arcs;
mod entities;
mod error;
mod quoted;
mod reading;

pub use error::{Fault, ReadError};
pub use reading::read;
