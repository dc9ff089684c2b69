//! The races of a receive in words.
ghost use Rattle.std.specs.Prelude.{◌≡◌, IfOk};
ghost use Rattle.chart.specs.Events.{ith};
ghost use Rattle.chart.specs.Ranges.{IsRange};
ghost use Rattle.texts.specs.Writing.{Adds};
ghost use Rattle.races_text.specs.Named.PlainText.{last_of, numbers_text, between, several_text, range_text, race_text, line_text};
ghost use Rattle.races_text.specs.Named.PlainText.{lines_text};
ghost use Rattle.races_text.specs.Named.Listing.{has_ranges};

use crate::named::kept::KeptRanges;
use crate::named::words::{Word, add_event_at, add_message_at, add_name, add_word};
use chart::{Event, EventNo, EventRange, Names};
use itoa::Buffer;
use shown_races::event_at;
use texts::{Out, TextBuffer, WriteError};

/// The number of a range's last event.
pub fn last_of(range: &EventRange) -> u32
    requires { IsRange range.now }
    ensures { result ≡ last_of range.now }
{
    range.event(range.count - 1).index
}

/// Adds `events FIRST to LAST (`.
#[tactic(auto, unfolding(crate::specs::Named::PlainText::numbers_text))]
fn add_numbers<W: Out>(
    text: &mut TextBuffer<'_, W>,
    first: u32,
    last: u32,
) -> Result<(), WriteError>
    ensures { Adds W.sink text.old text.new result (numbers_text first last) }
{
    let mut front = Buffer::new();
    let mut back = Buffer::new();
    text.add_all(&[
        b"events ",
        front.format(first).as_bytes(),
        b" to ",
        back.format(last).as_bytes(),
        b" (",
    ])
}

/// The word between the first and the last of this number of messages.
fn between(count: usize) -> Word
    ensures { result ≡ between count }
{
    if count == 2 { Word::Comma } else { Word::Dots }
}

/// Adds `events FIRST to LAST (MESSAGE, .., MESSAGE)`.
#[tactic(auto, using(texts::proofs::Writes::joining), unfolding(crate::specs::Named::PlainText::several_text))]
fn add_several<W: Out>(
    text: &mut TextBuffer<'_, W>,
    events: &[Event],
    range: &EventRange,
) -> Result<(), WriteError>
    requires { IsRange range.now }
    ensures { Adds W.sink text.old text.new result (several_text events.now range.now) }
{
    let first = range.first.index;
    let last = last_of(range);
    add_numbers(text, first, last)?;
    add_message_at(text, &event_at(events, first as usize))?;
    add_word(text, between(range.count))?;
    add_message_at(text, &event_at(events, last as usize))?;
    add_word(text, Word::Close)
}

/// Adds the events of a range: its single event, or its first and its last. F24: a put failed.
pub fn add_range<W: Out>(
    text: &mut TextBuffer<'_, W>,
    names: &Names,
    events: &[Event],
    range: &EventRange,
) -> Result<(), WriteError>
    requires { IsRange range.now }
    ensures { Adds W.sink text.old text.new result (range_text names.now events.now range.now) }
{
    if range.count == 1 {
        let index = range.first.index;
        add_event_at(text, names, index, &event_at(events, index as usize))
    } else {
        add_several(text, events, range)
    }
}

/// Adds a range of a receive's races, `INSTANCE: RECEIVE may come before RANGE`. `events` are the events of the
/// receive's line. F24: a put failed.
#[tactic(auto, using(texts::proofs::Writes::joining), unfolding(crate::specs::Named::PlainText::race_text))]
pub fn add_race<W: Out>(
    text: &mut TextBuffer<'_, W>,
    names: &Names,
    events: &[Event],
    receive: &EventNo,
    range: &EventRange,
) -> Result<(), WriteError>
    requires { IsRange range.now }
    ensures { Adds W.sink text.old text.new result (race_text names.now events.now receive.now range.now) }
{
    let index = receive.index;
    add_name(text, names, receive.instance)?;
    add_word(text, Word::Colon)?;
    add_event_at(text, names, index, &event_at(events, index as usize))?;
    add_word(text, Word::MayCome)?;
    add_range(text, names, events, range)
}

/// Adds the same as a line. F24: a put failed.
#[tactic(auto, using(texts::proofs::Writes::joining), unfolding(crate::specs::Named::PlainText::line_text))]
pub fn add_line<W: Out>(
    text: &mut TextBuffer<'_, W>,
    names: &Names,
    events: &[Event],
    receive: &EventNo,
    range: &EventRange,
) -> Result<(), WriteError>
    requires { IsRange range.now }
    ensures { Adds W.sink text.old text.new result (line_text names.now events.now receive.now range.now) }
{
    add_race(text, names, events, receive, range)?;
    add_word(text, Word::End)
}

/// Adds a line for each of these ranges. It returns whether there is one.
pub(crate) fn add_lines<W: Out>(
    text: &mut TextBuffer<'_, W>,
    names: &Names,
    events: &[Event],
    receive: &EventNo,
    ranges: KeptRanges<'_>,
) -> Result<bool, WriteError>
    ensures lines { Adds W.sink text.old text.new result (lines_text names.now events.now receive.now ranges.entry) }
    ensures has { IfOk result (λ has. has ≡ has_ranges ranges.entry) }
{
    let mut ranges = ranges;
    let mut has = false;
    while let Some(range) = ranges.next_range() {
        add_line(text, names, events, receive, &range)?;
        has = true;
    }
    Ok(has)
}
