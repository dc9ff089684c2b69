//! The statements of a text, as they are read.
use crate::statement::{Fault, Statement};

/// The statements of a text from the top, up to its first fault, if it has one.
#[derive(Debug, Drop)]
pub struct ReadText<'a> {
    pub statements: Vec<Statement<'a>>,
    pub fault: Option<Fault>,
}
