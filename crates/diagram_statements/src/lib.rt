//! Statements of PlantUML and Mermaid diagrams, shared by the readers of both.
//!
//! What is promised: a line, its text and its length are those of a definition, for any bytes (`specs/Lines`).
//! [`to_diagram`] has the diagram of the statements.
#![tactic(auto)]

mod line;
mod reading;
mod statement;
pub mod to_diagram;

pub use line::{Line, behind_line, first_line, line_length};
pub use reading::ReadText;
pub use statement::{
    Arrow, ArrowForm, Element, End, Fault, Group, NoteAt, Place, ReadError, Statement,
};
