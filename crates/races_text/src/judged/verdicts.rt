//! The verdicts on races, and their words.
ghost use Rattle.std.specs.Prelude.{◌≡◌, All};
ghost use Rattle.chart.specs.declared.instance.EventNo.{EventNo};
ghost use Rattle.chart.specs.Ranges.{IsRange, events_of};
ghost use Rattle.race_verdicts.specs.declared.verdict.Verdict.{Verdict};
ghost use Rattle.races_text.specs.Judged.PartsLeft.{IsFirstPart};
ghost use Rattle.races_text.specs.Judged.Words.{verdict_text, may_be_luck};

use crate::judged::part::Part;
use chart::{EventNo, EventRange};
use race_verdicts::Verdict;

/// Gives each race its verdict.
pub trait Verdicts {
    /// Whether a receive and an earlier event of its line are a race.
    ghost is_race: { Self → EventNo → EventNo → Type 0 };

    /// Whether this is the verdict of the race.
    ghost is_verdict: { Self → EventNo → EventNo → Verdict → Type 0 };

    /// The verdict of the race of the receive with the first of these neighbouring events of its line. The result also
    /// has the events, from the first on, that are known to have the same verdict. It takes no memory.
    fn verdict_of_first(&self, receive: &EventNo, earlier: &EventRange) -> Part
        requires range { IsRange earlier.now }
        requires races { All (is_race self.now receive.now) (events_of earlier.now) }
        ensures { IsFirstPart (is_verdict self.now receive.now) earlier.now result };
}

/// The word of a verdict.
#[tactic(auto, unfolding(crate::specs::Judged::Words::verdict_text))]
pub(crate) fn word_of(verdict: &Verdict) -> &[u8]
    ensures { result.now ≡ verdict_text verdict.now }
{
    match verdict {
        Verdict::Luck => b"luck",
        Verdict::EarlierIsSend => b"the earlier is a send",
        Verdict::BegunInTheMiddle => b"begun in the middle",
        Verdict::OrderedByLeftOut => b"ordered by what is left out",
        Verdict::WouldNotTake => b"it would not take it",
        Verdict::PassedOver => b"passed over",
        Verdict::BehindAnother => b"behind another",
        Verdict::Any => b"any",
    }
}

/// Whether a race with this verdict was luck, or may have been: of `any` it isn't decided.
pub(crate) fn may_be_luck(verdict: Verdict) -> bool
    ensures { result ≡ may_be_luck verdict }
{
    matches!(verdict, Verdict::Luck | Verdict::Any)
}
