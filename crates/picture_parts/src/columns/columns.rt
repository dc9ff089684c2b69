//! Columns of a picture.
use chart::InstanceNo;

/// The free space beside a line, in pixels, and the places of its brackets.
#[derive(Clone, Copy, Debug, PartialEq, Eq)]
pub struct Room {
    /// On its left.
    pub left: u32,
    /// On its right.
    pub right: u32,
    /// The distance between neighbouring brackets.
    pub step: u32,
    /// Whether brackets are on its right, and numbers on its left.
    pub mirrored: bool,
}

/// A column: the place of an instance's line.
#[derive(Clone, Copy, Debug, PartialEq, Eq)]
pub struct Column {
    pub instance: InstanceNo,
    /// Its number, from 1 on the left.
    pub number: usize,
    /// The place of the line, in pixels from the picture's left edge.
    pub x: u32,
    pub room: Room,
}
