//! The races of a receive with their words as JSON.
ghost use Rattle.std.specs.Prelude.{◌≡◌};
ghost use Rattle.chart.specs.Ranges.{IsRange};
ghost use Rattle.texts.specs.Writing.{Adds};
ghost use Rattle.races_text.specs.Judged.JsonText.{why_text, part_text, front_text, next_text};

use crate::judged::part::Part;
use crate::judged::verdicts::word_of;
use crate::named::{
    Word, add_message_and_sender, add_messages, add_number, add_range_front, add_word, event_at,
    last_of,
};
use chart::{Event, EventNo, Names};
use race_verdicts::Verdict;
use texts::{Out, TextBuffer, WriteError};

/// Adds the end of a range, after its messages.
#[tactic(auto, unfolding(crate::specs::Judged::JsonText::why_text))]
fn add_why<W: Out>(text: &mut TextBuffer<'_, W>, verdict: &Verdict) -> Result<(), WriteError>
    ensures { Adds W.sink text.old text.new result (why_text verdict.now) }
{
    text.add_all(&[b"],\"why\":\"", word_of(verdict), b"\"}"])
}

/// Adds a range: its numbers, its messages and its word.
#[tactic(auto, using(texts::proofs::Writes::joining), unfolding(crate::specs::Judged::JsonText::part_text))]
fn add_part<W: Out>(
    text: &mut TextBuffer<'_, W>,
    events: &[Event],
    part: &Part,
) -> Result<(), WriteError>
    requires { IsRange part.now.range }
    ensures { Adds W.sink text.old text.new result (part_text events.now part.now) }
{
    add_range_front(text, part.range.first.index, last_of(&part.range))?;
    add_messages(text, events, &part.range)?;
    add_why(text, &part.verdict)
}

/// Adds the beginning of a receive's object, up to its first range and with it.
#[tactic(auto, using(texts::proofs::Writes::joining), unfolding(crate::specs::Judged::JsonText::front_text))]
pub(crate) fn add_front<W: Out>(
    text: &mut TextBuffer<'_, W>,
    names: &Names,
    events: &[Event],
    receive: &EventNo,
    part: &Part,
) -> Result<(), WriteError>
    requires { IsRange part.now.range }
    ensures { Adds W.sink text.old text.new result (front_text names.now events.now receive.now part.now) }
{
    add_number(text, names, receive)?;
    add_message_and_sender(text, names, &event_at(events, receive.index as usize))?;
    add_part(text, events, part)
}

/// Adds a range after another one.
#[tactic(auto, using(texts::proofs::Writes::joining), unfolding(crate::specs::Judged::JsonText::next_text))]
pub(crate) fn add_next<W: Out>(
    text: &mut TextBuffer<'_, W>,
    events: &[Event],
    part: &Part,
) -> Result<(), WriteError>
    requires { IsRange part.now.range }
    ensures { Adds W.sink text.old text.new result (next_text events.now part.now) }
{
    add_word(text, Word::Next)?;
    add_part(text, events, part)
}
