//! The diagram of the statements of a PlantUML or Mermaid text.
//!
//! [`diagram_of`] promises this: the diagram depends only on the statements. Its participants are in the order in which
//! they are first named. In branches that are taken, it has an item, with its row, for each message between two
//! participants. It also has one for each note with a text at one participant. It has each kind of skipped constructs,
//! with its count and its first place. If a branch or an end is outside of a group, the first of them is the fault.
//! Memory is refused only at a growth.

mod act;
mod activations;
mod drawing;
mod fold;
mod frames;
mod labels;
mod participants;
mod rows;

pub use fold::diagram_of;
pub use labels::Breaks;
