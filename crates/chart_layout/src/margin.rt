//! The margin of a picture, beside its rows.

/// A text beside a row of a picture.
#[derive(Debug, Drop)]
pub struct MarginNote {
    /// The number of messages that are sent above it. It is beside the row of the next one, or below the last row.
    pub above: usize,
    /// Arbitrary bytes.
    pub text: Vec<u8>,
    /// Whether it separates the rows above it from those below it.
    pub divides: bool,
}
