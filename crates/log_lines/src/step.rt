//! The meaning of a line that may include lines after it.
use crate::event::LineSays;

/// The meaning of a line, and how many of the lines after it belong to it.
#[derive(Clone, Copy, Debug)]
pub struct Step<'a> {
    pub says: LineSays<'a>,
    pub takes: usize,
}
