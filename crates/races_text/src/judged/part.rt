//! Neighbouring events of a line that have one verdict.
ghost use Rattle.std.specs.Prelude.{◌≡◌, true, false};
ghost use Rattle.chart.specs.Ranges.{IsRange, is_followed_by};
ghost use Rattle.races_text.specs.Judged.Parts.{part_of, joined_part, AreApart};

use crate::named::goes_on;
use chart::{EventNo, EventRange};
use race_verdicts::Verdict;

/// Neighbouring earlier events of a receive, with the verdict that all of their races have.
#[derive(Clone, Copy, Debug, PartialEq, Eq)]
pub struct Part {
    pub range: EventRange,
    pub verdict: Verdict,
}

impl Part {
    /// The part of a single event.
    pub fn of(event: &EventNo, verdict: Verdict) -> Part
        ensures { result ≡ part_of event.now verdict }
    {
        Part {
            range: EventRange::of(*event),
            verdict,
        }
    }

    /// Whether the next part begins where this one ends, and has the same verdict.
    pub(crate) fn goes_on(&self, next: &Part) -> bool
        requires { IsRange self.now.range }
        ensures joins { result ≡ true → (self.now.verdict ≡ next.now.verdict)
            × (is_followed_by self.now.range next.now.range ≡ true) }
        ensures apart { result ≡ false → AreApart self.now next.now }
    {
        if self.verdict == next.verdict {
            goes_on(&self.range, next.range.first)
        } else {
            false
        }
    }

    /// Joins this part and the next one.
    pub(crate) fn with(&self, next: &Part) -> Part
        requires range { IsRange self.now.range }
        requires next { IsRange next.now.range }
        requires follows { is_followed_by self.now.range next.now.range ≡ true }
        ensures { result ≡ joined_part self.now next.now }
    {
        Part {
            range: EventRange {
                first: self.range.first,
                count: self.range.count + next.range.count,
            },
            verdict: self.verdict,
        }
    }
}
