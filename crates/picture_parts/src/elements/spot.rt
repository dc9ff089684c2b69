//! Points of a picture.

/// A point of a picture, in pixels from its upper left corner.
#[derive(Clone, Copy)]
pub struct Spot {
    pub x: u64,
    pub y: u64,
}
