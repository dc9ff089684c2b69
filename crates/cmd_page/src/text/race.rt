//! A race on a page: its numbers, its line, and its explanation.
ghost use Rattle.std.specs.Prelude.{◌≡◌};
ghost use Rattle.std.specs.List.{flat_map};
ghost use Rattle.texts.specs.Writing.{Adds};
ghost use Rattle.cmd_page.specs.Text.RaceText.{behind_space, numbers_text, id_text, explained_text, short_text, answers_text, race_text};

use crate::text::excerpt::{Excerpt, add_escaped, add_excerpt};
use crate::text::word::{Word, add_word};
use chart::EventNo;
use texts::{Out, TextBuffer, WriteError};

/// A receive, and neighbouring earlier events of its line that it may come before.
#[derive(Drop)]
pub struct Race {
    pub receive: EventNo,
    /// The number of the first of the earlier events.
    pub first: u64,
    /// The number of the last of the earlier events.
    pub last: u64,
    /// For each line, the number of first events that must come before the receive.
    pub before: Vec<u64>,
    /// The other events of its own line that must.
    pub also: Vec<u64>,
    /// The race by the names of its messages, with its word if its verdict is known.
    pub line: Vec<u8>,
    /// The explanation, if the race is described in full.
    pub answers: Option<Answers>,
}

/// The explanation of a race.
#[derive(Drop)]
pub struct Answers {
    /// The reason why it is one.
    pub why: Excerpt,
    /// Another order.
    pub witness: Excerpt,
    /// The message that removes it.
    pub mend: Excerpt,
}

/// Adds a space and a number.
#[tactic(auto, using(texts::proofs::Writes::joining), unfolding(crate::specs::Text::RaceText::behind_space))]
fn add_behind_space<W: Out>(text: &mut TextBuffer<'_, W>, number: u64) -> Result<(), WriteError>
    ensures { Adds W.sink text.old text.new result (behind_space number) }
{
    add_word(text, Word::Space)?;
    text.add_number(number)
}

/// Adds numbers, with a space before each.
fn add_numbers<W: Out>(text: &mut TextBuffer<'_, W>, numbers: &[u64]) -> Result<(), WriteError>
    ensures { Adds W.sink text.old text.new result (flat_map behind_space numbers.now) }
{
    for number in numbers {
        add_behind_space(text, *number)?;
    }
    Ok(())
}

/// Adds the numbers of a race's id.
#[tactic(auto, using(texts::proofs::Writes::joining), unfolding(crate::specs::Text::RaceText::id_text))]
fn add_id<W: Out>(text: &mut TextBuffer<'_, W>, race: &Race) -> Result<(), WriteError>
    ensures { Adds W.sink text.old text.new result (id_text race.now) }
{
    add_word(text, Word::RaceStart)?;
    text.add_number(race.receive.instance.number() as u64)?;
    add_word(text, Word::Dash)?;
    text.add_number(u64::from(race.receive.index))?;
    add_word(text, Word::Dash)?;
    text.add_number(race.first)
}

/// Adds the other numbers of a race.
#[tactic(auto, using(texts::proofs::Writes::joining), unfolding(crate::specs::Text::RaceText::numbers_text))]
fn add_race_numbers<W: Out>(text: &mut TextBuffer<'_, W>, race: &Race) -> Result<(), WriteError>
    ensures { Adds W.sink text.old text.new result (numbers_text race.now) }
{
    add_word(text, Word::Last)?;
    text.add_number(race.last)?;
    add_word(text, Word::Before)?;
    add_numbers(text, race.before.as_slice())?;
    add_word(text, Word::Also)?;
    add_numbers(text, race.also.as_slice())?;
    add_word(text, Word::NumbersEnd)
}

/// Adds the line of a race and its explanation.
#[tactic(auto, using(texts::proofs::Writes::joining), unfolding(crate::specs::Text::RaceText::explained_text))]
fn add_explained<W: Out>(
    text: &mut TextBuffer<'_, W>,
    line: &[u8],
    answers: &Answers,
) -> Result<(), WriteError>
    ensures { Adds W.sink text.old text.new result (explained_text line.now answers.now) }
{
    add_word(text, Word::SummaryStart)?;
    add_escaped(text, line)?;
    add_word(text, Word::Why)?;
    add_excerpt(text, &answers.why)?;
    add_word(text, Word::Witness)?;
    add_excerpt(text, &answers.witness)?;
    add_word(text, Word::Mend)?;
    add_excerpt(text, &answers.mend)?;
    add_word(text, Word::SummaryEnd)
}

/// Adds the line of a race without an explanation.
#[tactic(auto, using(texts::proofs::Writes::joining), unfolding(crate::specs::Text::RaceText::short_text))]
fn add_short<W: Out>(text: &mut TextBuffer<'_, W>, line: &[u8]) -> Result<(), WriteError>
    ensures { Adds W.sink text.old text.new result (short_text line.now) }
{
    add_word(text, Word::ShortStart)?;
    add_escaped(text, line)?;
    add_word(text, Word::ShortEnd)
}

fn add_answers<W: Out>(
    text: &mut TextBuffer<'_, W>,
    line: &[u8],
    answers: &Option<Answers>,
) -> Result<(), WriteError>
    ensures { Adds W.sink text.old text.new result (answers_text line.now answers.now) }
{
    match answers {
        Some(answers) => add_explained(text, line, answers),
        None => add_short(text, line),
    }
}

/// Adds a race.
#[tactic(auto, using(texts::proofs::Writes::joining), unfolding(crate::specs::Text::RaceText::race_text))]
pub(crate) fn add_race<W: Out>(text: &mut TextBuffer<'_, W>, race: &Race) -> Result<(), WriteError>
    ensures { Adds W.sink text.old text.new result (race_text race.now) }
{
    add_id(text, race)?;
    add_race_numbers(text, race)?;
    add_answers(text, race.line.as_slice(), &race.answers)
}
