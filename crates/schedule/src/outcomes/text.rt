//! Outcomes as text.
ghost use Rattle.std.specs.Prelude.{◌≡◌, ◌<◌};
ghost use Rattle.std.specs.List.{flat_map};
ghost use Rattle.texts.specs.Writing.{Wrote, Adds};
ghost use Rattle.schedule.specs.Outcomes.OutcomeText.{word_text, note_text, outcome_text};

use crate::outcomes::outcome::Outcome;
use crate::{Note, Word};
use itoa::Buffer;
use msc_text::{add_chart, add_races};
use texts::{Out, TextBuffer, WriteError};

#[tactic(auto, unfolding(crate::specs::Outcomes::OutcomeText::word_text))]
fn word_of(word: &Word) -> &[u8]
    ensures { result.now ≡ word_text word.now }
{
    match word {
        Word::Full => b"full",
        Word::Nothing => b"nothing",
        Word::Ended => b"ended",
        Word::Closed => b"closed",
        Word::LineFull => b"linefull",
        Word::Open => b"open",
        Word::NotOpen => b"notopen",
        Word::InCoregion => b"incoregion",
    }
}

#[tactic(auto, unfolding(crate::specs::Outcomes::OutcomeText::note_text))]
fn add_note<W: Out>(text: &mut TextBuffer<'_, W>, note: &Note) -> Result<(), WriteError>
    ensures { Adds W.sink text.old text.new result (note_text note.now) }
{
    let mut buffer = Buffer::new();
    let line = buffer.format(note.line).as_bytes();
    text.add_all(&[b"note ", line, b" ", word_of(&note.word), b"\n"])
}

fn add_notes<W: Out>(text: &mut TextBuffer<'_, W>, notes: &[Note]) -> Result<(), WriteError>
    ensures { Adds W.sink text.old text.new result (flat_map note_text notes.now) }
{
    for note in notes {
        add_note(text, note)?;
    }
    Ok(())
}

/// Adds an outcome's text to a text that is being written. It takes no memory.
#[tactic(auto, using(texts::proofs::Writes::joining), unfolding(crate::specs::Outcomes::OutcomeText::outcome_text))]
pub fn add_outcome<W: Out>(
    text: &mut TextBuffer<'_, W>,
    outcome: &Outcome<'_>,
) -> Result<(), WriteError>
    ensures { Adds W.sink text.old text.new result (outcome_text outcome.now) }
{
    let names = outcome.names();
    let chart = outcome.chart();
    let reports = outcome.reports();
    let notes = outcome.notes();
    prove!(names.len() == chart.lines().len());
    add_chart(text, names, chart)?;
    add_races(text, names, reports)?;
    add_notes(text, notes)
}

impl Outcome<'_> {
    /// Writes the outcome's text: the chart's, and then a line for each race and for each note. It takes no memory. If
    /// a put fails (F24), a beginning of the text was written, and no further put is tried.
    #[tactic(auto, using(texts::proofs::Writes::joining))]
    pub fn write<W: Out>(&self, out: &mut W) -> Result<(), WriteError>
        ensures { Wrote W.sink out.old out.new result (outcome_text self.now) }
    {
        let mut text = TextBuffer::new(out);
        add_outcome(&mut text, self)?;
        text.finish()
    }
}
