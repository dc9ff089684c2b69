//! How a run ends.

/// Why a run of a behaviour ended.
#[derive(Clone, Copy, Debug, PartialEq, Eq)]
pub enum End {
    /// The behaviour stopped.
    Stopped,
    /// The behaviour had all its turns, and didn't stop.
    TurnsSpent,
    /// F6: a growth of the trace was refused, and the behaviour wasn't asked again.
    Memory,
}
