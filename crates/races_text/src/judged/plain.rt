//! The races of a receive with their words, as lines.
ghost use Rattle.std.specs.Prelude.{◌≡◌};
ghost use Rattle.chart.specs.Ranges.{IsRange};
ghost use Rattle.texts.specs.Writing.{Adds};
ghost use Rattle.races_text.specs.Judged.PlainText.{why_text, race_text, line_text};

use crate::judged::part::Part;
use crate::judged::verdicts::word_of;
use crate::named;
use crate::named::{Word, add_word};
use chart::{Event, EventNo, Names};
use race_verdicts::Verdict;
use texts::{Out, TextBuffer, WriteError};

/// Adds `; WORD`.
#[tactic(auto, unfolding(crate::specs::Judged::PlainText::why_text))]
fn add_why<W: Out>(text: &mut TextBuffer<'_, W>, verdict: &Verdict) -> Result<(), WriteError>
    ensures { Adds W.sink text.old text.new result (why_text verdict.now) }
{
    text.add_all(&[b"; ", word_of(verdict)])
}

/// Adds a range of a receive's races, `INSTANCE: RECEIVE may come before RANGE; WORD`. `events` are the events of the
/// receive's line. F24: a put failed.
#[tactic(auto, using(texts::proofs::Writes::joining), unfolding(crate::specs::Judged::PlainText::race_text))]
pub fn add_race<W: Out>(
    text: &mut TextBuffer<'_, W>,
    names: &Names,
    events: &[Event],
    receive: &EventNo,
    part: &Part,
) -> Result<(), WriteError>
    requires { IsRange part.now.range }
    ensures { Adds W.sink text.old text.new result (race_text names.now events.now receive.now part.now) }
{
    named::add_race(text, names, events, receive, &part.range)?;
    add_why(text, &part.verdict)
}

/// Adds the same as a line.
#[tactic(auto, using(texts::proofs::Writes::joining), unfolding(crate::specs::Judged::PlainText::line_text))]
pub(crate) fn add_line<W: Out>(
    text: &mut TextBuffer<'_, W>,
    names: &Names,
    events: &[Event],
    receive: &EventNo,
    part: &Part,
) -> Result<(), WriteError>
    requires { IsRange part.now.range }
    ensures { Adds W.sink text.old text.new result (line_text names.now events.now receive.now part.now) }
{
    add_race(text, names, events, receive, part)?;
    add_word(text, Word::End)
}
