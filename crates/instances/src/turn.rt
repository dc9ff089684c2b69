//! Turns of a run.
ghost use Rattle.std.specs.Prelude.{◌≡◌, ◌↔◌, IsTrue};

use behaviour::{BareAct, BareAnswer};

/// A turn of a run: the behaviour's act, and the answer to it. Stopping has no answer.
#[derive(Clone, Copy, Debug, PartialEq, Eq)]
pub struct Turn {
    pub act: BareAct,
    pub answer: Option<BareAnswer>,
}

impl Turn {
    /// Whether the two turns are equal.
    pub(crate) fn is(&self, other: &Turn) -> bool
        ensures { IsTrue result ↔ (self.now ≡ other.now) }
    {
        self.act.is(&other.act)
            && match (&self.answer, &other.answer) {
                (Some(answer), Some(same)) => answer.is(same),
                (None, None) => true,
                _ => false,
            }
    }
}
