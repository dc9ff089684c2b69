//! The report of a pair that was to be mended, and of messages that were added.
ghost use Rattle.std.specs.Prelude.{◌≡◌, IfOk};
ghost use Rattle.std.specs.List.{flat_map};
ghost use Rattle.chart.specs.Charts.{chart_lines};
ghost use Rattle.chart.specs.Reports.{AreReports};
ghost use Rattle.repair.specs.Mends.{IsMadeOf};
ghost use Rattle.texts.specs.Writing.{Wrote, Adds};
ghost use Rattle.cmd_base.specs.Pairs.SayingText.{step_text};
ghost use Rattle.cmd_mend.specs.ChangeText.{mended_text};
ghost use Rattle.cmd_mend.specs.Outcomes.{none_text, IsNone, IsOutcome, IsOutcomeOfAll, IsChangeText, status_left};
ghost use Rattle.cmd_base.specs.Pairs.Pairs.{IsPair};

use crate::answering::{Outcome, Status};
use crate::brief::brief_of;
use crate::brief_text::write_brief;
use crate::change::changed_by;
use crate::change_text::{write_change, write_mended};
use crate::showing::Detail;
use crate::word::{Word, add_word};
use chart::line_events::events_of;
use chart::{Chart, Event, EventNo, InstanceNo, Line, Names, Report};
use closure::Closure;
use closure::chain::Link;
use cmd_base::pairs::{Pair, hidden_text, write_chain};
use races_text::named::{add_event_at, add_name, event_at};
use repair::{MendedChart, Mending, Message};
use std::alloc::{AllocError, Global};
use texts::{MemoryOut, Out, TextBuffer, WriteError};

/// An event that is in the way of a message from its instance to another one.
#[derive(Clone, Copy)]
struct InTheWay {
    sender: InstanceNo,
    receiver: InstanceNo,
    index: u32,
    event: Option<Event>,
    why: Word,
}

/// `no message from NAME to NAME does: EVENT ..`.
#[tactic(auto, using(texts::proofs::Writes::joining), unfolding(crate::specs::Outcomes::none_text))]
fn add_none<V: Out>(
    text: &mut TextBuffer<'_, V>,
    names: &Names,
    way: &InTheWay,
) -> Result<(), WriteError>
    ensures { Adds V.sink text.old text.new result
        (none_text names.now way.now.sender way.now.receiver way.now.index way.now.event way.now.why) }
{
    add_word(text, Word::NoMessage)?;
    add_name(text, names, way.sender)?;
    add_word(text, Word::To)?;
    add_name(text, names, way.receiver)?;
    add_word(text, Word::Does)?;
    add_event_at(text, names, way.index, &way.event)?;
    add_word(text, way.why)
}

#[tactic(auto, using(texts::proofs::Writes::joining))]
fn write_none<V: Out>(names: &Names, way: &InTheWay, out: &mut V) -> Result<(), WriteError>
    ensures { Wrote V.sink out.old out.new result
        (none_text names.now way.now.sender way.now.receiver way.now.index way.now.event way.now.why) }
{
    let mut text = TextBuffer::new(out);
    add_none(&mut text, names, way)?;
    text.finish()
}

fn none_bytes(alloc: Global, names: &Names, way: &InTheWay) -> Result<Vec<u8>, AllocError>
    ensures { IfOk result (λ bytes. bytes.items
        ≡ none_text names.now way.now.sender way.now.receiver way.now.index way.now.event way.now.why) }
{
    let mut out = MemoryOut::new(alloc);
    match write_none(names, way, &mut out) {
        Ok(()) => Ok(out.into_bytes()),
        Err(_) => Err(AllocError),
    }
}

fn chain_bytes(alloc: Global, names: &Names, links: &[Link]) -> Result<Vec<u8>, AllocError>
    ensures { IfOk result (λ bytes. bytes.items ≡ flat_map (step_text names.now) links.now) }
{
    let mut out = MemoryOut::new(alloc);
    match write_chain(names, links, &mut out) {
        Ok(()) => Ok(out.into_bytes()),
        Err(_) => Err(AllocError),
    }
}

fn mended_bytes(alloc: Global, names: &Names, mended: &MendedChart) -> Result<Vec<u8>, AllocError>
    ensures { IfOk result (λ bytes. bytes.items ≡ mended_text names.now mended.now) }
{
    let mut out = MemoryOut::new(alloc);
    match write_mended(names, mended, &mut out) {
        Ok(()) => Ok(out.into_bytes()),
        Err(_) => Err(AllocError),
    }
}

/// Where the message is, the first ranges of races that go or come, and how many race pairs go, stay and come.
fn brief_bytes(
    alloc: Global,
    names: &Names,
    closure: &Closure<'_>,
    message: &Message,
    chart: &Chart,
    news: &[Report],
) -> Result<Vec<u8>, AllocError>
    requires { AreReports chart.now news.now }
    ensures { IfOk result (λ bytes. IsChangeText Detail.Brief names.now closure.now chart.now message.now bytes.items) }
{
    // (a call states what each chart keeps)
    let _ = closure.len();
    let _ = chart.lines();
    let olds = closure.races()?;
    let brief = brief_of(alloc, message, olds.as_slice(), news)?;
    let mut out = MemoryOut::new(alloc);
    match write_brief(
        names,
        closure.lines(),
        chart.lines(),
        message,
        &brief,
        &mut out,
    ) {
        Ok(()) => Ok(out.into_bytes()),
        Err(_) => Err(AllocError),
    }
}

/// Where the message is, and which races go, stay and come.
fn change_bytes(
    alloc: Global,
    names: &Names,
    closure: &Closure<'_>,
    message: &Message,
    chart: &Chart,
    news: &[Report],
) -> Result<Vec<u8>, AllocError>
    requires { AreReports chart.now news.now }
    ensures { IfOk result (λ bytes. IsChangeText Detail.Full names.now closure.now chart.now message.now bytes.items) }
{
    let olds = closure.races()?;
    let change = changed_by(alloc, message, olds.as_slice(), news)?;
    let mut out = MemoryOut::new(alloc);
    match write_change(
        names,
        closure.lines(),
        chart.lines(),
        message,
        &change,
        &mut out,
    ) {
        Ok(()) => Ok(out.into_bytes()),
        Err(_) => Err(AllocError),
    }
}

/// That no message does, because of this event.
fn none_outcome(
    alloc: Global,
    names: &Names,
    lines: &[Line],
    pair: &Pair,
    event: &EventNo,
    why: Word,
) -> Result<Outcome, AllocError>
    requires { IsPair (chart_lines lines.now) pair.now }
    ensures { IfOk result (IsNone (names.now, lines.now) pair.now event.now why) }
{
    let events = events_of(lines, pair.receive.instance);
    let receiver = events[pair.receive.index as usize - 1].partner();
    let theirs = events_of(lines, event.instance);
    let way = InTheWay {
        sender: pair.receive.instance,
        receiver,
        index: event.index,
        event: event_at(theirs, event.index as usize),
        why,
    };
    Ok(Outcome {
        status: Status::Undone,
        diagnostics: none_bytes(alloc, names, &way)?,
    })
}

/// The report of a pair of a chart.
pub(crate) fn outcome_of(
    alloc: Global,
    names: &Names,
    closure: &Closure<'_>,
    pair: &Pair,
    detail: Detail,
    mending: &Mending,
) -> Result<Outcome, AllocError>
    requires pair { IsPair (chart_lines closure.now) pair.now }
    requires made { IsMadeOf closure.now mending.now }
    ensures { IfOk result (IsOutcome (names.now, closure.now) detail pair.now mending.now) }
{
    let diagnostics = match mending {
        Mending::Enforced(links) => chain_bytes(alloc, names, links.as_slice())?,
        Mending::Hidden => Vec::from_slice(alloc, hidden_text())?,
        Mending::Crossed(event) => {
            return none_outcome(alloc, names, closure.lines(), pair, event, Word::Crossed);
        }
        Mending::OnItsWay(event) => {
            return none_outcome(alloc, names, closure.lines(), pair, event, Word::OnItsWay);
        }
        Mending::Mended(message, chart, news) => match detail {
            Detail::Brief => brief_bytes(alloc, names, closure, message, chart, news.as_slice())?,
            Detail::Full => change_bytes(alloc, names, closure, message, chart, news.as_slice())?,
        },
    };
    Ok(Outcome {
        status: Status::Done,
        diagnostics,
    })
}

fn status_left(left: usize) -> Status
    ensures { result ≡ status_left left }
{
    if left == 0 {
        Status::Done
    } else {
        Status::Undone
    }
}

/// The report of messages that were added.
pub(crate) fn additions_outcome(
    alloc: Global,
    names: &Names,
    mended: &MendedChart,
) -> Result<Outcome, AllocError>
    ensures { IfOk result (IsOutcomeOfAll names.now mended.now) }
{
    Ok(Outcome {
        status: status_left(mended.left),
        diagnostics: mended_bytes(alloc, names, mended)?,
    })
}
