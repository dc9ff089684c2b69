//! The size of a board.

/// How many instances a board has, and how many slots each of its lanes has.
#[derive(Clone, Copy, Debug, PartialEq, Eq)]
pub struct Shape {
    pub instances: usize,
    pub capacity: usize,
}
