//! The text of a log.
ghost use Rattle.std.specs.Prelude.{◌≡◌, option_map};
ghost use Rattle.std.specs.List.{flat_map};
ghost use Rattle.texts.specs.Writing.{Wrote, Adds};
ghost use Rattle.diagram_export.specs.ExportText.{counted};
ghost use Rattle.diagram_export.specs.LogText.{log_start, entry_in, entry_text, next_entry, other_entry, clock_text};
ghost use Rattle.diagram_export.specs.LogText.{races_text, races_of, sent_text, in_text, received_text, event_text, log_line, log_text};

use crate::earlier::add_ranges;
use crate::export::Export;
use crate::log::{Log, Stamped};
use crate::part::{Part, add_one, add_parts, name_of};
use crate::word::Word;
use chart::{Event, InstanceNo, Line, Name, Report};
use clock::Clock;
use texts::pieces::add_amount;
use texts::{Out, TextBuffer, WriteError};

/// The parser's expression, and an empty line.
#[tactic(auto, unfolding(crate::specs::LogText::log_start))]
fn log_start() -> &'static [u8]
    ensures { result.now ≡ log_start }
{
    b"(?<host>\\S*) (?<clock>{.*}) (?<event>.*)\n\n"
}

/// The entry of an instance, if the clock has one.
fn entry_in(clock: &Clock, instance: InstanceNo) -> u32
    ensures { result ≡ entry_in clock.now instance }
{
    if instance.number() <= clock.len() {
        clock.entry(instance)
    } else {
        0
    }
}

/// Adds an entry of a clock.
#[tactic(auto, unfolding(crate::specs::LogText::entry_text))]
fn add_entry<W: Out>(
    text: &mut TextBuffer<'_, W>,
    export: &Export<'_>,
    clock: &Clock,
    instance: InstanceNo,
) -> Result<(), WriteError>
    ensures { Adds W.sink text.old text.new result (entry_text export.now clock.now instance) }
{
    let name = Part::Quoted(export.names().name(instance));
    let entry = Part::Number(u64::from(entry_in(clock, instance)));
    add_parts(text, &[name, Part::Word(Word::Colon), entry])
}

#[tactic(auto, using(texts::proofs::Writes::joining), unfolding(crate::specs::LogText::next_entry))]
fn add_next_entry<W: Out>(
    text: &mut TextBuffer<'_, W>,
    export: &Export<'_>,
    clock: &Clock,
    instance: InstanceNo,
) -> Result<(), WriteError>
    ensures { Adds W.sink text.old text.new result (next_entry export.now clock.now instance) }
{
    text.add(Word::Comma.as_bytes())?;
    add_entry(text, export, clock, instance)
}

/// Adds the entry of another instance, if some of its events are known.
fn add_other_entry<W: Out>(
    text: &mut TextBuffer<'_, W>,
    export: &Export<'_>,
    stamped: &Stamped,
    line: &Line,
) -> Result<(), WriteError>
    ensures { Adds W.sink text.old text.new result (other_entry export.now stamped.now line.now) }
{
    let instance = line.instance();
    if instance == stamped.event.instance || entry_in(&stamped.clock, instance) == 0 {
        return text.add(b"");
    }
    add_next_entry(text, export, &stamped.clock, instance)
}

fn add_other_entries<W: Out>(
    text: &mut TextBuffer<'_, W>,
    export: &Export<'_>,
    stamped: &Stamped,
    lines: &[Line],
) -> Result<(), WriteError>
    ensures { Adds W.sink text.old text.new result
        (flat_map (other_entry export.now stamped.now) lines.now) }
{
    for line in lines {
        add_other_entry(text, export, stamped, line)?;
    }
    Ok(())
}

/// Adds an event's clock: its instance's own entry, and those of the others.
#[tactic(auto, using(texts::proofs::Writes::joining), unfolding(crate::specs::LogText::clock_text))]
fn add_clock<W: Out>(
    text: &mut TextBuffer<'_, W>,
    export: &Export<'_>,
    stamped: &Stamped,
) -> Result<(), WriteError>
    ensures { Adds W.sink text.old text.new result (clock_text export.now stamped.now) }
{
    text.add(Word::ClockStart.as_bytes())?;
    add_entry(text, export, &stamped.clock, stamped.event.instance)?;
    add_other_entries(text, export, stamped, export.lines())?;
    text.add(Word::ClockEnd.as_bytes())
}

/// Adds the earlier events that a receive may come before.
#[tactic(auto, using(texts::proofs::Writes::joining), unfolding(crate::specs::LogText::races_text))]
fn add_races_text<W: Out>(
    text: &mut TextBuffer<'_, W>,
    export: &Export<'_>,
    report: &Report,
) -> Result<(), WriteError>
    ensures { Adds W.sink text.old text.new result
        (races_text export.now report.now (counted report.now)) }
{
    let earlier = report.earlier();
    text.add(Word::Comma.as_bytes())?;
    text.add(Word::MayComeBefore.as_bytes())?;
    add_amount(text, earlier.len())?;
    add_ranges(text, export, earlier.as_slice())
}

/// Adds the earlier events of a report, if there is one.
fn add_races_of<W: Out>(
    text: &mut TextBuffer<'_, W>,
    export: &Export<'_>,
    report: Option<&Report>,
) -> Result<(), WriteError>
    ensures { Adds W.sink text.old text.new result
        (races_of export.now (option_map (λ r. r.now) report.entry)) }
{
    match report {
        Some(report) => add_races_text(text, export, report),
        None => text.add(b""),
    }
}

#[tactic(auto, unfolding(crate::specs::LogText::sent_text))]
fn add_sent<W: Out>(
    text: &mut TextBuffer<'_, W>,
    export: &Export<'_>,
    to: InstanceNo,
    name: &Name,
) -> Result<(), WriteError>
    ensures { Adds W.sink text.old text.new result (sent_text export.now to name.now) }
{
    add_parts(
        text,
        &[
            Part::Word(Word::Out),
            Part::Name(Some(*name)),
            Part::Word(Word::To),
            Part::Name(export.names().name(to)),
        ],
    )
}

#[tactic(auto, unfolding(crate::specs::LogText::in_text))]
fn add_in<W: Out>(
    text: &mut TextBuffer<'_, W>,
    export: &Export<'_>,
    from: InstanceNo,
    name: &Name,
) -> Result<(), WriteError>
    ensures { Adds W.sink text.old text.new result (in_text export.now from name.now) }
{
    add_parts(
        text,
        &[
            Part::Word(Word::In),
            Part::Name(Some(*name)),
            Part::Word(Word::From),
            Part::Name(export.names().name(from)),
        ],
    )
}

#[tactic(auto, using(texts::proofs::Writes::joining), unfolding(crate::specs::LogText::received_text))]
fn add_received<W: Out>(
    text: &mut TextBuffer<'_, W>,
    export: &Export<'_>,
    stamped: &Stamped,
    from: InstanceNo,
    name: &Name,
) -> Result<(), WriteError>
    ensures { Adds W.sink text.old text.new result
        (received_text export.now stamped.now from name.now) }
{
    add_in(text, export, from, name)?;
    add_races_of(text, export, export.note_of(&stamped.event))
}

/// Adds the words of an event.
fn add_event<W: Out>(
    text: &mut TextBuffer<'_, W>,
    export: &Export<'_>,
    stamped: &Stamped,
    event: Option<Event>,
) -> Result<(), WriteError>
    ensures { Adds W.sink text.old text.new result (event_text export.now stamped.now event) }
{
    let Some(event) = event else {
        return text.add(b"");
    };
    match event {
        Event::Send { to, .. } => add_sent(text, export, to, &event.name()),
        Event::Receive { from, .. } => add_received(text, export, stamped, from, &event.name()),
    }
}

/// Adds a line of the log.
#[tactic(auto, using(texts::proofs::Writes::joining), unfolding(crate::specs::LogText::log_line))]
fn add_log_line<W: Out>(
    text: &mut TextBuffer<'_, W>,
    export: &Export<'_>,
    stamped: &Stamped,
) -> Result<(), WriteError>
    ensures { Adds W.sink text.old text.new result (log_line export.now stamped.now) }
{
    add_one(
        text,
        Part::Name(name_of(export.names(), stamped.event.instance)),
    )?;
    add_clock(text, export, stamped)?;
    add_event(text, export, stamped, export.event_of(&stamped.event))?;
    text.add(Word::LineEnd.as_bytes())
}

fn add_log_lines<W: Out>(
    text: &mut TextBuffer<'_, W>,
    export: &Export<'_>,
    log: &[Stamped],
) -> Result<(), WriteError>
    ensures { Adds W.sink text.old text.new result (flat_map (log_line export.now) log.now) }
{
    for stamped in log {
        add_log_line(text, export, stamped)?;
    }
    Ok(())
}

/// Adds the whole text.
#[tactic(auto, using(texts::proofs::Writes::joining), unfolding(crate::specs::LogText::log_text))]
fn add_log<W: Out>(
    text: &mut TextBuffer<'_, W>,
    export: &Export<'_>,
    log: &Log,
) -> Result<(), WriteError>
    ensures { Adds W.sink text.old text.new result (log_text export.now log.now) }
{
    text.add(log_start())?;
    add_log_lines(text, export, log.entries())
}

/// Writes the log's text, as ShiViz reads it, and nothing else. It takes no memory. If a put fails (F24), a beginning
/// of the text was written, and no other put is tried.
#[tactic(auto, using(texts::proofs::Writes::joining))]
pub fn write_log<W: Out>(export: &Export<'_>, log: &Log, out: &mut W) -> Result<(), WriteError>
    ensures { Wrote W.sink out.old out.new result (log_text export.now log.now) }
{
    let mut text = TextBuffer::new(out);
    add_log(&mut text, export, log)?;
    text.finish()
}
