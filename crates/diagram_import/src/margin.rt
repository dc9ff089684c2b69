//! The notes and dividers of another tool's diagram, and their places among its messages.
//!
//! [`notes_of_text`] promises this. The notes are those of the text that are neither sends nor receives. Each note and
//! each divider has its own words and the number of messages above it in the text (`specs/Margin/Texts`,
//! `specs/Margin/Placing`). Memory is the only refusal.

mod arcs;
mod notes;
mod order;
mod own;
mod placing;
mod plain;
mod remark;
mod source;
mod statements;

pub use notes::notes_of_text;
