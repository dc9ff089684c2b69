//! Numbers of boards.

/// What tells a board from others. Whoever opens a board gives it such a number, which all its posts have.
///
/// Callers number boards apart if each has an origin of its own, such as the address of its counter, and counts its
/// boards.
#[derive(Clone, Copy)]
pub struct BoardNumber {
    /// Who counts.
    pub origin: u64,
    /// The number of the board among those of this origin.
    pub count: u64,
}

impl BoardNumber {
    ghost use Rattle.std.specs.Prelude.{◌≡◌, ◌≢◌, true, false};

    /// Whether both are one number.
    pub(crate) fn is(self, other: BoardNumber) -> bool
        ensures yes { result ≡ true → self ≡ other }
        ensures no { result ≡ false → self ≢ other }
    {
        self.origin == other.origin && self.count == other.count
    }
}
