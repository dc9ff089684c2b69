//! The keys that the lines of a message share.

/// A lane, and an id, in words of the log. If messages have no ids, it has a name instead.
#[derive(Clone, Copy, Debug, PartialEq, Eq, Hash)]
pub struct Key<'a> {
    pub sender: &'a [u8],
    pub receiver: &'a [u8],
    /// Whether the word is an id. Otherwise it is a name.
    pub has_id: bool,
    pub word: &'a [u8],
}
