//! The summary of the races of a query.
ghost use Rattle.std.specs.Prelude.{◌≡◌};
ghost use Rattle.races_text.specs.Judged.Summaries.{is_claimed, summary_of_none, summary_with, summary_of_both, claims_none};

use crate::named::either;
use race_verdicts::Verdict;

/// The summary of the races of a query.
#[derive(Clone, Copy, Debug, PartialEq, Eq)]
pub struct RaceSummary {
    /// Whether one is shown.
    pub shown: bool,
    /// Whether there is one, even if it isn't shown.
    pub any: bool,
    /// Whether one is claimed, which means that it isn't begun in the middle.
    pub claimed: bool,
}

/// Whether a race with this verdict is claimed, which means that it isn't begun in the middle.
fn is_claimed(verdict: Verdict) -> bool
    ensures { result ≡ is_claimed verdict }
{
    !matches!(verdict, Verdict::BegunInTheMiddle)
}

impl RaceSummary {
    /// The summary of no race.
    pub fn none() -> RaceSummary
        ensures { result ≡ summary_of_none }
    {
        RaceSummary {
            shown: false,
            any: false,
            claimed: false,
        }
    }

    /// The summary with one more range of this verdict. `shows` is whether the range is shown.
    pub fn more(&self, shows: bool, verdict: Verdict) -> RaceSummary
        ensures { result ≡ summary_with self.now shows verdict }
    {
        RaceSummary {
            shown: either(self.shown, shows),
            any: true,
            claimed: either(self.claimed, is_claimed(verdict)),
        }
    }

    /// The summary of the races of both summaries.
    pub(crate) fn either(&self, other: &RaceSummary) -> RaceSummary
        ensures { result ≡ summary_of_both self.now other.now }
    {
        RaceSummary {
            shown: either(self.shown, other.shown),
            any: either(self.any, other.any),
            claimed: either(self.claimed, other.claimed),
        }
    }

    /// Whether there are races, and none of them is claimed: each is begun in the middle.
    pub fn claims_none(&self) -> bool
        ensures { result ≡ claims_none self.now }
    {
        self.any && !self.claimed
    }
}
