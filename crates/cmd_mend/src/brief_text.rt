//! The brief report of a message that mends a race, as text.
ghost use Rattle.std.specs.Prelude.{◌≡◌, All};
ghost use Rattle.std.specs.List.{flat_map};
ghost use Rattle.chart.specs.Ranges.{IsRange};
ghost use Rattle.texts.specs.Writing.{Wrote, Adds};
ghost use Rattle.cmd_mend.specs.Brief.{word_of, lines_of, shown_text, counts_text, lines_text};

use crate::brief::{Brief, Counts, Fate, Shown};
use crate::change_text::{add_message, add_race};
use crate::word::{Word, add_word};
use chart::line_events::events_of;
use chart::{Line, Names};
use repair::Message;
use texts::{Out, TextBuffer, WriteError};

fn word_of(fate: Fate) -> Word
    ensures { result ≡ word_of fate }
{
    match fate {
        Fate::Goes => Word::Goes,
        Fate::Comes => Word::Comes,
    }
}

fn lines_of<'a>(old: &'a [Line], new: &'a [Line], fate: Fate) -> &'a [Line]
    ensures { result.now ≡ lines_of old.now new.now fate }
{
    match fate {
        Fate::Goes => old,
        Fate::Comes => new,
    }
}

/// A range of a receive's races behind its word.
#[tactic(auto, unfolding(crate::specs::Brief::shown_text))]
fn add_shown<V: Out>(
    text: &mut TextBuffer<'_, V>,
    names: &Names,
    old: &[Line],
    new: &[Line],
    one: &Shown,
) -> Result<(), WriteError>
    requires { IsRange one.now.range }
    ensures { Adds V.sink text.old text.new result (shown_text names.now old.now new.now one.now) }
{
    let lines = lines_of(old, new, one.fate);
    let events = events_of(lines, one.receive.instance);
    add_race(
        text,
        word_of(one.fate),
        names,
        events,
        &one.receive,
        &one.range,
    )
}

fn add_all_shown<V: Out>(
    text: &mut TextBuffer<'_, V>,
    names: &Names,
    old: &[Line],
    new: &[Line],
    shown: &[Shown],
) -> Result<(), WriteError>
    requires { All (λ one. IsRange one.range) shown.now }
    ensures { Adds V.sink text.old text.new result (flat_map (shown_text names.now old.now new.now) shown.now) }
{
    for one in shown {
        add_shown(text, names, old, new, one)?;
    }
    Ok(())
}

/// `race pairs: COUNT go, COUNT stay, COUNT come`.
#[tactic(auto, using(texts::proofs::Writes::joining), unfolding(crate::specs::Brief::counts_text))]
fn add_counts<V: Out>(text: &mut TextBuffer<'_, V>, counts: &Counts) -> Result<(), WriteError>
    ensures { Adds V.sink text.old text.new result (counts_text counts.now) }
{
    add_word(text, Word::Pairs)?;
    text.add_number(counts.going as u64)?;
    add_word(text, Word::Go)?;
    text.add_number(counts.staying as u64)?;
    add_word(text, Word::Stay)?;
    text.add_number(counts.coming as u64)?;
    add_word(text, Word::Come)
}

#[tactic(auto, using(texts::proofs::Writes::joining), unfolding(crate::specs::Brief::lines_text))]
fn add_brief<V: Out>(
    text: &mut TextBuffer<'_, V>,
    names: &Names,
    old: &[Line],
    new: &[Line],
    message: &Message,
    brief: &Brief,
) -> Result<(), WriteError>
    requires { All (λ one. IsRange one.range) brief.now.shown.items }
    ensures { Adds V.sink text.old text.new result
        (lines_text names.now old.now new.now message.now brief.now.shown.items brief.now.counts) }
{
    add_message(text, names, message)?;
    add_all_shown(text, names, old, new, brief.shown.as_slice())?;
    add_counts(text, &brief.counts)
}

/// Writes where the message is, the first ranges of races that go or come, and how many race pairs go, stay and come.
#[tactic(auto, using(texts::proofs::Writes::joining))]
pub(crate) fn write_brief<V: Out>(
    names: &Names,
    old: &[Line],
    new: &[Line],
    message: &Message,
    brief: &Brief,
    out: &mut V,
) -> Result<(), WriteError>
    requires { All (λ one. IsRange one.range) brief.now.shown.items }
    ensures { Wrote V.sink out.old out.new result
        (lines_text names.now old.now new.now message.now brief.now.shown.items brief.now.counts) }
{
    let mut text = TextBuffer::new(out);
    add_brief(&mut text, names, old, new, message, brief)?;
    text.finish()
}
