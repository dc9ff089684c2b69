//! Relations between two entities.

/// The meaning of a sign or a word between two entities.
#[derive(Clone, Copy, Debug, PartialEq, Eq)]
pub enum Relation {
    /// A message to the entity after the sign.
    To,
    /// A message from the entity after the sign.
    From,
    /// A message to the entity after the sign, which never receives it.
    LostTo,
    /// A message from the entity after the sign, which is never received.
    LostFrom,
    /// An arrow with two heads.
    Both,
    /// A line without a head.
    Line,
    /// A box around two entities and those between them.
    Box,
    /// A note at two entities and those between them.
    Note,
}
