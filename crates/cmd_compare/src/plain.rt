//! The differences of two recordings in words.
ghost use Rattle.std.specs.Prelude.{◌≡◌};
ghost use Rattle.chart.specs.Events.{ith};
ghost use Rattle.texts.specs.Writing.{Adds};
ghost use Rattle.cmd_compare.specs.PlainText.{side_text, place_front, place_text, there_text, both_text, events_text, verdicts_text};
ghost use Rattle.cmd_compare.specs.PlainText.{plain_difference, plain_only};

use crate::pairs::Difference;
use crate::part::{Part, add_name_and, add_parts, add_word, add_word_and_name, message_part};
use crate::verdict::event_at;
use crate::word::{Word, verdict_word};
use chart::{Event, InstanceNo, Names};
use texts::{Out, TextBuffer, WriteError};

/// `, to NAME` or `, from NAME`.
fn add_side<W: Out>(
    text: &mut TextBuffer<'_, W>,
    names: &Names,
    event: &Option<Event>,
) -> Result<(), WriteError>
    ensures { Adds W.sink text.old text.new result (side_text names.now event.now) }
{
    match event {
        Some(Event::Send { to, .. }) => { add_word_and_name(text, Word::To, names, *to) }
        Some(Event::Receive { from, .. }) => { add_word_and_name(text, Word::From, names, *from) }
        None => add_parts(text, &[]),
    }
}

/// `MESSAGE (INDEX`.
#[tactic(auto, unfolding(crate::specs::PlainText::place_front))]
fn add_place_front<W: Out>(
    text: &mut TextBuffer<'_, W>,
    event: &Option<Event>,
    index: usize,
) -> Result<(), WriteError>
    ensures { Adds W.sink text.old text.new result (place_front event.now index) }
{
    let open = Part::Word(Word::Open);
    let number = Part::Number(index as u64);
    add_parts(text, &[message_part(event), open, number])
}

/// `MESSAGE (INDEX, from NAME`.
#[tactic(auto, using(texts::proofs::Writes::joining), unfolding(crate::specs::PlainText::place_text))]
fn add_place<W: Out>(
    text: &mut TextBuffer<'_, W>,
    names: &Names,
    event: &Option<Event>,
    index: usize,
) -> Result<(), WriteError>
    ensures { Adds W.sink text.old text.new result (place_text names.now event.now index) }
{
    add_place_front(text, event, index)?;
    add_side(text, names, event)
}

/// `; INDEX in B)`.
#[tactic(auto, unfolding(crate::specs::PlainText::there_text))]
fn add_there<W: Out>(text: &mut TextBuffer<'_, W>, there: usize) -> Result<(), WriteError>
    ensures { Adds W.sink text.old text.new result (there_text there) }
{
    let close = Part::Word(Word::CloseThere);
    let number = Part::Number(there as u64);
    add_parts(text, &[Part::Word(Word::There), number, close])
}

/// `MESSAGE (INDEX, from NAME; INDEX in B)`.
#[tactic(auto, using(texts::proofs::Writes::joining), unfolding(crate::specs::PlainText::both_text))]
fn add_both<W: Out>(
    text: &mut TextBuffer<'_, W>,
    names: &Names,
    events: &[Event],
    index: usize,
    there: usize,
) -> Result<(), WriteError>
    ensures { Adds W.sink text.old text.new result (both_text names.now events.now index there) }
{
    add_place(text, names, &event_at(events, index), index)?;
    add_there(text, there)
}

/// The two events of a pair.
#[tactic(auto, using(texts::proofs::Writes::joining), unfolding(crate::specs::PlainText::events_text))]
fn add_events<W: Out>(
    text: &mut TextBuffer<'_, W>,
    names: &Names,
    events: &[Event],
    difference: &Difference,
) -> Result<(), WriteError>
    ensures { Adds W.sink text.old text.new result (events_text names.now events.now difference.now) }
{
    let pair = &difference.pair;
    add_both(text, names, events, pair.later, pair.later_there)?;
    add_word(text, Word::Before)?;
    add_both(text, names, events, pair.earlier, pair.earlier_there)
}

/// The verdicts on the pair in both recordings.
#[tactic(auto, unfolding(crate::specs::PlainText::verdicts_text))]
fn add_verdicts<W: Out>(
    text: &mut TextBuffer<'_, W>,
    difference: &Difference,
) -> Result<(), WriteError>
    ensures { Adds W.sink text.old text.new result (verdicts_text difference.now) }
{
    add_parts(
        text,
        &[
            Part::Word(Word::InSecond),
            Part::Word(verdict_word(difference.here)),
            Part::Word(Word::InFirst),
            Part::Word(verdict_word(difference.there)),
            Part::Word(Word::InSecondEnd),
        ],
    )
}

/// `NAME: EVENT comes before EVENT in B: VERDICT in A, VERDICT in B`.
#[tactic(auto, using(texts::proofs::Writes::joining), unfolding(crate::specs::PlainText::plain_difference))]
pub(crate) fn add_plain_difference<W: Out>(
    text: &mut TextBuffer<'_, W>,
    names: &Names,
    events: &[Event],
    difference: &Difference,
) -> Result<(), WriteError>
    ensures { Adds W.sink text.old text.new result (plain_difference names.now events.now difference.now) }
{
    add_name_and(text, names, difference.instance, Word::Colon)?;
    add_events(text, names, events, difference)?;
    add_verdicts(text, difference)
}

/// `NAME: only A has MESSAGE (INDEX, from NAME)`.
#[tactic(auto, using(texts::proofs::Writes::joining), unfolding(crate::specs::PlainText::plain_only))]
pub(crate) fn add_plain_only<W: Out>(
    text: &mut TextBuffer<'_, W>,
    owner: Word,
    names: &Names,
    events: &[Event],
    instance: InstanceNo,
    index: usize,
) -> Result<(), WriteError>
    ensures { Adds W.sink text.old text.new result (plain_only owner names.now events.now instance index) }
{
    add_name_and(text, names, instance, owner)?;
    add_place(text, names, &event_at(events, index), index)?;
    add_word(text, Word::Close)
}
