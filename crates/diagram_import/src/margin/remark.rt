//! Remarks: the notes and dividers of a text beside its messages.

/// A note or a divider of a text.
#[derive(Debug, Drop)]
pub(crate) struct Remark {
    /// The line in which it begins, from 1.
    pub line: u64,
    pub text: Vec<u8>,
    /// Whether it divides the rows above it from those below it.
    pub divides: bool,
}
