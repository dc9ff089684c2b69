//! A page, as HTML text.
ghost use Rattle.std.specs.Prelude.{◌≡◌};
ghost use Rattle.std.specs.List.{flat_map};
ghost use Rattle.texts.specs.Writing.{Adds, Wrote};
ghost use Rattle.cmd_page.specs.Text.PageText.{policy, style, controls, script, head_text, race_word, some_explained, explained_text};
ghost use Rattle.cmd_page.specs.Text.PageText.{counts_text, top_text, page_text};
ghost use Rattle.cmd_page.specs.Text.RaceText.{race_text};

use crate::text::excerpt::add_escaped;
use crate::text::fixed::{CONTROLS, POLICY, SCRIPT, STYLE};
use crate::text::race::{Race, add_race};
use crate::text::word::{Word, add_word};
use texts::{Out, TextBuffer, WriteError};

/// The contents of a page.
#[derive(Clone, Copy)]
pub struct Page<'a> {
    /// Any bytes.
    pub title: &'a [u8],
    /// An SVG text. It is put as it is.
    pub picture: &'a [u8],
    pub races: &'a [Race],
    /// The number of races that are described in full.
    pub explained: u64,
}

/// Adds the page's policy: it may show itself, and run its own script.
#[tactic(auto, unfolding(crate::specs::Text::PageText::policy))]
fn add_policy<W: Out>(text: &mut TextBuffer<'_, W>) -> Result<(), WriteError>
    ensures { Adds W.sink text.old text.new result policy }
{
    text.add(POLICY)
}

#[tactic(auto, unfolding(crate::specs::Text::PageText::style))]
fn add_style<W: Out>(text: &mut TextBuffer<'_, W>) -> Result<(), WriteError>
    ensures { Adds W.sink text.old text.new result style }
{
    text.add(STYLE)
}

#[tactic(auto, unfolding(crate::specs::Text::PageText::controls))]
fn add_controls<W: Out>(text: &mut TextBuffer<'_, W>) -> Result<(), WriteError>
    ensures { Adds W.sink text.old text.new result controls }
{
    text.add(CONTROLS)
}

#[tactic(auto, unfolding(crate::specs::Text::PageText::script))]
fn add_script<W: Out>(text: &mut TextBuffer<'_, W>) -> Result<(), WriteError>
    ensures { Adds W.sink text.old text.new result script }
{
    text.add(SCRIPT)
}

/// Adds the text before the body.
#[tactic(auto, using(texts::proofs::Writes::joining), unfolding(crate::specs::Text::PageText::head_text))]
fn add_head<W: Out>(text: &mut TextBuffer<'_, W>, title: &[u8]) -> Result<(), WriteError>
    ensures { Adds W.sink text.old text.new result (head_text title.now) }
{
    add_word(text, Word::PageStart)?;
    add_policy(text)?;
    add_escaped(text, title)?;
    add_word(text, Word::StyleStart)?;
    add_style(text)
}

/// The word for this number of races.
fn race_word(races: u64) -> Word
    ensures { result ≡ race_word races }
{
    if races == 1 {
        Word::OneRace
    } else {
        Word::Races
    }
}

/// Adds the number of races that are described in full.
#[tactic(auto, using(texts::proofs::Writes::joining), unfolding(crate::specs::Text::PageText::some_explained))]
fn add_some_explained<W: Out>(
    text: &mut TextBuffer<'_, W>,
    explained: u64,
) -> Result<(), WriteError>
    ensures { Adds W.sink text.old text.new result (some_explained explained) }
{
    add_word(text, Word::ExplainedStart)?;
    text.add_number(explained)?;
    add_word(text, Word::ExplainedEnd)
}

/// Adds this number, if not all races are.
fn add_explained<W: Out>(
    text: &mut TextBuffer<'_, W>,
    races: u64,
    explained: u64,
) -> Result<(), WriteError>
    ensures { Adds W.sink text.old text.new result (explained_text races explained) }
{
    if explained < races {
        add_some_explained(text, explained)
    } else {
        text.add(b"")
    }
}

/// Adds the number of races, and the number of those that are described in full if not all are.
#[tactic(auto, using(texts::proofs::Writes::joining), unfolding(crate::specs::Text::PageText::counts_text))]
fn add_counts<W: Out>(
    text: &mut TextBuffer<'_, W>,
    races: u64,
    explained: u64,
) -> Result<(), WriteError>
    ensures { Adds W.sink text.old text.new result (counts_text races explained) }
{
    add_word(text, Word::CountStart)?;
    text.add_number(races)?;
    add_word(text, race_word(races))?;
    add_explained(text, races, explained)?;
    add_controls(text)
}

/// Adds the head of the page.
#[tactic(auto, using(texts::proofs::Writes::joining), unfolding(crate::specs::Text::PageText::top_text))]
fn add_top<W: Out>(text: &mut TextBuffer<'_, W>, page: &Page<'_>) -> Result<(), WriteError>
    ensures { Adds W.sink text.old text.new result (top_text page.now) }
{
    add_word(text, Word::HeadStart)?;
    add_escaped(text, page.title)?;
    add_counts(text, page.races.len() as u64, page.explained)?;
    add_word(text, Word::PictureStart)?;
    text.add(page.picture)?;
    add_word(text, Word::RacesStart)
}

fn add_races<W: Out>(text: &mut TextBuffer<'_, W>, races: &[Race]) -> Result<(), WriteError>
    ensures { Adds W.sink text.old text.new result (flat_map race_text races.now) }
{
    for race in races {
        add_race(text, race)?;
    }
    Ok(())
}

#[tactic(auto, using(texts::proofs::Writes::joining), unfolding(crate::specs::Text::PageText::page_text))]
fn add_page<W: Out>(text: &mut TextBuffer<'_, W>, page: &Page<'_>) -> Result<(), WriteError>
    ensures { Adds W.sink text.old text.new result (page_text page.now) }
{
    add_head(text, page.title)?;
    add_top(text, page)?;
    add_races(text, page.races)?;
    add_word(text, Word::ScriptStart)?;
    add_script(text)?;
    add_word(text, Word::PageEnd)
}

/// Writes a page. It allocates no memory. If a put fails (F24), the beginning of the text was written, and no other
/// put is tried.
#[tactic(auto, using(texts::proofs::Writes::joining))]
pub fn write_page<W: Out>(page: &Page<'_>, out: &mut W) -> Result<(), WriteError>
    ensures { Wrote W.sink out.old out.new result (page_text page.now) }
{
    let mut text = TextBuffer::new(out);
    add_page(&mut text, page)?;
    text.finish()
}
