//! The differences of two recordings as JSON.
ghost use Rattle.std.specs.Prelude.{◌≡◌};
ghost use Rattle.chart.specs.Events.{ith};
ghost use Rattle.texts.specs.Writing.{Adds};
ghost use Rattle.cmd_compare.specs.JsonText.{numbers_text, earlier_text, later_text, verdicts_object};
ghost use Rattle.cmd_compare.specs.JsonText.{json_difference, json_only};

use crate::pairs::Difference;
use crate::part::{
    Part, add_parts, add_word_and_message, add_word_and_name, message_part, name_part,
};
use crate::verdict::event_at;
use crate::word::{Word, verdict_word};
use chart::{Event, InstanceNo, Names};
use texts::{Out, TextBuffer, WriteError};

/// An event's number in the first recording after one word, and its number in the second after another word.
#[tactic(auto, unfolding(crate::specs::JsonText::numbers_text))]
fn add_numbers<W: Out>(
    text: &mut TextBuffer<'_, W>,
    word: Word,
    index: usize,
    there_word: Word,
    there: usize,
) -> Result<(), WriteError>
    ensures { Adds W.sink text.old text.new result (numbers_text word index there_word there) }
{
    let number = Part::Number(index as u64);
    let there_number = Part::Number(there as u64);
    add_parts(
        text,
        &[
            Part::Word(word),
            number,
            Part::Word(there_word),
            there_number,
        ],
    )
}

/// The earlier event of a pair.
#[tactic(auto, using(texts::proofs::Writes::joining), unfolding(crate::specs::JsonText::earlier_text))]
fn add_earlier<W: Out>(
    text: &mut TextBuffer<'_, W>,
    events: &[Event],
    difference: &Difference,
) -> Result<(), WriteError>
    ensures { Adds W.sink text.old text.new result (earlier_text events.now difference.now) }
{
    let pair = &difference.pair;
    add_numbers(
        text,
        Word::Earlier,
        pair.earlier,
        Word::EarlierThere,
        pair.earlier_there,
    )?;
    add_word_and_message(text, Word::EarlierMessage, &event_at(events, pair.earlier))
}

/// The later event of a pair.
#[tactic(auto, using(texts::proofs::Writes::joining), unfolding(crate::specs::JsonText::later_text))]
fn add_later<W: Out>(
    text: &mut TextBuffer<'_, W>,
    events: &[Event],
    difference: &Difference,
) -> Result<(), WriteError>
    ensures { Adds W.sink text.old text.new result (later_text events.now difference.now) }
{
    let pair = &difference.pair;
    add_numbers(
        text,
        Word::Later,
        pair.later,
        Word::LaterThere,
        pair.later_there,
    )?;
    add_word_and_message(text, Word::LaterMessage, &event_at(events, pair.later))
}

/// The verdicts on the pair in both recordings.
#[tactic(auto, unfolding(crate::specs::JsonText::verdicts_object))]
fn add_verdicts<W: Out>(
    text: &mut TextBuffer<'_, W>,
    difference: &Difference,
) -> Result<(), WriteError>
    ensures { Adds W.sink text.old text.new result (verdicts_object difference.now) }
{
    add_parts(
        text,
        &[
            Part::Word(Word::First),
            Part::Word(verdict_word(difference.here)),
            Part::Word(Word::Second),
            Part::Word(verdict_word(difference.there)),
            Part::Word(Word::EndObject),
        ],
    )
}

/// An object for two events in opposite orders.
#[tactic(auto, using(texts::proofs::Writes::joining), unfolding(crate::specs::JsonText::json_difference))]
pub(crate) fn add_json_difference<W: Out>(
    text: &mut TextBuffer<'_, W>,
    names: &Names,
    events: &[Event],
    difference: &Difference,
) -> Result<(), WriteError>
    ensures { Adds W.sink text.old text.new result (json_difference names.now events.now difference.now) }
{
    add_word_and_name(text, Word::Instance, names, difference.instance)?;
    add_earlier(text, events, difference)?;
    add_later(text, events, difference)?;
    add_verdicts(text, difference)
}

/// An object for an event that only one recording has.
#[tactic(auto, unfolding(crate::specs::JsonText::json_only))]
pub(crate) fn add_json_only<W: Out>(
    text: &mut TextBuffer<'_, W>,
    owner: Word,
    names: &Names,
    events: &[Event],
    instance: InstanceNo,
    index: usize,
) -> Result<(), WriteError>
    ensures { Adds W.sink text.old text.new result (json_only owner names.now events.now instance index) }
{
    add_parts(
        text,
        &[
            Part::Word(owner),
            name_part(names, instance),
            Part::Word(Word::Event),
            Part::Number(index as u64),
            Part::Word(Word::Message),
            message_part(&event_at(events, index)),
            Part::Word(Word::EndObject),
        ],
    )
}
