//! Messages that mend races, and the races that go, stay and come, as text.
ghost use Rattle.std.specs.Prelude.{◌≡◌, All};
ghost use Rattle.std.specs.List.{flat_map};
ghost use Rattle.chart.specs.Ranges.{IsRange};
ghost use Rattle.texts.specs.Writing.{Wrote, Adds};
ghost use Rattle.cmd_mend.specs.ChangeText.{ends_text, message_text, race_line, report_text, reports_text, change_text};
ghost use Rattle.cmd_mend.specs.ChangeText.{pair_text, addition_text, additions_text, stopped_text, mended_text};

use crate::change::Change;
use crate::word::{Word, add_word};
use chart::line_events::events_of;
use chart::{Event, EventNo, EventRange, Line, Names, Report};
use races_text::named::{add_line, add_name};
use repair::{Addition, MendedChart, Message, RacePair};
use texts::{Out, TextBuffer, WriteError};

/// `NAME from SENDER to RECEIVER`.
#[tactic(auto, using(texts::proofs::Writes::joining), unfolding(crate::specs::ChangeText::ends_text))]
fn add_ends<V: Out>(
    text: &mut TextBuffer<'_, V>,
    names: &Names,
    message: &Message,
) -> Result<(), WriteError>
    ensures { Adds V.sink text.old text.new result (ends_text names.now message.now) }
{
    text.add(message.name.as_bytes())?;
    add_word(text, Word::From)?;
    add_name(text, names, message.sender)?;
    add_word(text, Word::To)?;
    add_name(text, names, message.receiver)
}

/// Where a message is: `NAME from SENDER to RECEIVER: sent behind event COUNT, received behind event COUNT`.
#[tactic(auto, using(texts::proofs::Writes::joining), unfolding(crate::specs::ChangeText::message_text))]
pub(crate) fn add_message<V: Out>(
    text: &mut TextBuffer<'_, V>,
    names: &Names,
    message: &Message,
) -> Result<(), WriteError>
    ensures { Adds V.sink text.old text.new result (message_text names.now message.now) }
{
    add_ends(text, names, message)?;
    add_word(text, Word::Sent)?;
    text.add_number(message.sent as u64)?;
    add_word(text, Word::Received)?;
    text.add_number(message.received as u64)?;
    add_word(text, Word::End)
}

/// A range of a receive's races behind a word.
#[tactic(auto, using(texts::proofs::Writes::joining), unfolding(crate::specs::ChangeText::race_line))]
pub(crate) fn add_race<V: Out>(
    text: &mut TextBuffer<'_, V>,
    word: Word,
    names: &Names,
    events: &[Event],
    receive: &EventNo,
    range: &EventRange,
) -> Result<(), WriteError>
    requires { IsRange range.now }
    ensures { Adds V.sink text.old text.new result (race_line word names.now events.now receive.now range.now) }
{
    add_word(text, word)?;
    add_line(text, names, events, receive, range)
}

fn add_ranges<V: Out>(
    text: &mut TextBuffer<'_, V>,
    word: Word,
    names: &Names,
    events: &[Event],
    receive: &EventNo,
    ranges: &[EventRange],
) -> Result<(), WriteError>
    requires { All IsRange ranges.now }
    ensures { Adds V.sink text.old text.new result
        (flat_map (race_line word names.now events.now receive.now) ranges.now) }
{
    for range in ranges {
        add_race(text, word, names, events, receive, range)?;
    }
    Ok(())
}

/// The races of a receive behind a word.
fn add_report<V: Out>(
    text: &mut TextBuffer<'_, V>,
    word: Word,
    names: &Names,
    lines: &[Line],
    report: &Report,
) -> Result<(), WriteError>
    ensures { Adds V.sink text.old text.new result (report_text word names.now lines.now report.now) }
{
    let receive = report.receive();
    let events = events_of(lines, receive.instance);
    let earlier = report.earlier();
    add_ranges(text, word, names, events, &receive, earlier.as_slice())
}

fn add_reports<V: Out>(
    text: &mut TextBuffer<'_, V>,
    word: Word,
    names: &Names,
    lines: &[Line],
    reports: &[Report],
) -> Result<(), WriteError>
    ensures { Adds V.sink text.old text.new result (reports_text word names.now lines.now reports.now) }
{
    for report in reports {
        add_report(text, word, names, lines, report)?;
    }
    Ok(())
}

/// The message, and the races that go, stay and come.
#[tactic(auto, using(texts::proofs::Writes::joining), unfolding(crate::specs::ChangeText::change_text))]
fn add_change<V: Out>(
    text: &mut TextBuffer<'_, V>,
    names: &Names,
    old: &[Line],
    new: &[Line],
    message: &Message,
    change: &Change,
) -> Result<(), WriteError>
    ensures { Adds V.sink text.old text.new result (change_text names.now old.now new.now message.now change.now) }
{
    add_message(text, names, message)?;
    add_reports(text, Word::Goes, names, old, change.gone.as_slice())?;
    add_reports(text, Word::Stays, names, new, change.staying.as_slice())?;
    add_reports(text, Word::Comes, names, new, change.coming.as_slice())
}

/// Writes where the message is, and the races that go, stay and come.
#[tactic(auto, using(texts::proofs::Writes::joining))]
pub(crate) fn write_change<V: Out>(
    names: &Names,
    old: &[Line],
    new: &[Line],
    message: &Message,
    change: &Change,
    out: &mut V,
) -> Result<(), WriteError>
    ensures { Wrote V.sink out.old out.new result (change_text names.now old.now new.now message.now change.now) }
{
    let mut text = TextBuffer::new(out);
    add_change(&mut text, names, old, new, message, change)?;
    text.finish()
}

/// `race INSTANCE EARLIER RECEIVE: `.
#[tactic(auto, using(texts::proofs::Writes::joining), unfolding(crate::specs::ChangeText::pair_text))]
fn add_pair<V: Out>(
    text: &mut TextBuffer<'_, V>,
    names: &Names,
    pair: &RacePair,
) -> Result<(), WriteError>
    ensures { Adds V.sink text.old text.new result (pair_text names.now pair.now) }
{
    add_word(text, Word::Race)?;
    add_name(text, names, pair.receive.instance)?;
    add_word(text, Word::Space)?;
    text.add_number(u64::from(pair.earlier.index))?;
    add_word(text, Word::Space)?;
    text.add_number(u64::from(pair.receive.index))?;
    add_word(text, Word::Colon)
}

/// The race pair that is mended, and the message.
#[tactic(auto, using(texts::proofs::Writes::joining), unfolding(crate::specs::ChangeText::addition_text))]
fn add_addition<V: Out>(
    text: &mut TextBuffer<'_, V>,
    names: &Names,
    addition: &Addition,
) -> Result<(), WriteError>
    ensures { Adds V.sink text.old text.new result (addition_text names.now addition.now) }
{
    add_pair(text, names, &addition.pair)?;
    add_message(text, names, &addition.message)
}

fn add_additions<V: Out>(
    text: &mut TextBuffer<'_, V>,
    names: &Names,
    additions: &[Addition],
) -> Result<(), WriteError>
    ensures { Adds V.sink text.old text.new result (additions_text names.now additions.now) }
{
    for addition in additions {
        add_addition(text, names, addition)?;
    }
    Ok(())
}

/// `stopped after COUNT: COUNT races are left`.
#[tactic(auto, using(texts::proofs::Writes::joining), unfolding(crate::specs::ChangeText::stopped_text))]
fn add_stopped<V: Out>(
    text: &mut TextBuffer<'_, V>,
    tried: usize,
    left: usize,
) -> Result<(), WriteError>
    ensures { Adds V.sink text.old text.new result (stopped_text tried left) }
{
    add_word(text, Word::StoppedAfter)?;
    text.add_number(tried as u64)?;
    add_word(text, Word::Colon)?;
    text.add_number(left as u64)?;
    add_word(text, Word::AreLeft)
}

/// A line for each message that was added, and one where it stopped.
#[tactic(auto, using(texts::proofs::Writes::joining), unfolding(crate::specs::ChangeText::mended_text))]
fn add_mended<V: Out>(
    text: &mut TextBuffer<'_, V>,
    names: &Names,
    mended: &MendedChart,
) -> Result<(), WriteError>
    ensures { Adds V.sink text.old text.new result (mended_text names.now mended.now) }
{
    add_additions(text, names, mended.additions.as_slice())?;
    if mended.is_stopped {
        return add_stopped(text, mended.tried, mended.left);
    }
    Ok(())
}

/// Writes a line for each message that was added, and one where it stopped.
#[tactic(auto, using(texts::proofs::Writes::joining))]
pub(crate) fn write_mended<V: Out>(
    names: &Names,
    mended: &MendedChart,
    out: &mut V,
) -> Result<(), WriteError>
    ensures { Wrote V.sink out.old out.new result (mended_text names.now mended.now) }
{
    let mut text = TextBuffer::new(out);
    add_mended(&mut text, names, mended)?;
    text.finish()
}
