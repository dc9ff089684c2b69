//! Which races go, stay and come where a chart gets one message more.
ghost use Rattle.std.specs.Prelude.{◌≡◌, ◌+◌, ◌-◌, ◌==◌, ◌&&◌, ◌∷◌, [], map, nat_le, nat_lt, IfOk, MatchOption};
ghost use Rattle.std.specs.List.{list_any};
ghost use Rattle.chart.specs.Ranges.{events_of, events_in};
ghost use Rattle.repair.specs.Growing.{message_of};
ghost use Rattle.repair.specs.Marks.{is_at, AreMarks};
ghost use Rattle.cmd_mend.specs.Changes.{is_new, gone_of, all_gone, old_receives, kept_of};
ghost use Rattle.cmd_mend.specs.Changes.{has_new, is_kept, changed_by};

use chart::{EventNo, EventRange, InstanceNo, Report};
use repair::{Message, marked, new_index};
use std::alloc::{AllocError, Global};
use std::marker::Model;

/// The races that go by a message, in the old chart's numbers, and those that stay and that come, in the new chart's. A
/// contract sees the lists.
#[derive(Drop)]
pub(crate) struct Change {
    pub gone: Vec<Report>,
    pub staying: Vec<Report>,
    pub coming: Vec<Report>,
}

impl Model for Change {
    ghost use Rattle.cmd_mend.specs.Changes.{Changed};

    ghost Value = { Changed };

    ghost view = { λ c. record { gone = c.gone.items; staying = c.staying.items; coming = c.coming.items } };
}

/// Whether this is the number of the event behind so many.
fn is_behind(index: u32, count: usize) -> bool
    ensures { result ≡ (index == count + 1) }
{
    let index = index as usize;
    count < index && index - count == 1
}

/// Whether it is the message's send or its receive, in the new chart.
fn is_new(message: &Message, event: &EventNo) -> bool
    ensures { result ≡ is_new (message_of message.now) event.now }
{
    (event.instance == message.sender && is_behind(event.index, message.sent))
        || (event.instance == message.receiver && is_behind(event.index, message.received))
}

/// Whether the number is that of one of so many events from the first on.
fn is_within(first: usize, count: usize, index: usize) -> bool
    ensures { result ≡ (nat_le first index && nat_lt (index - first) count) }
{
    first <= index && index - first < count
}

/// Whether the range is of this instance, and has the number.
fn is_in_range(range: &EventRange, instance: InstanceNo, index: usize) -> bool
    ensures { result ≡ ((range.now.first.instance == instance)
        && (nat_le range.now.first.index index && nat_lt (index - range.now.first.index) range.now.count)) }
{
    range.first.instance == instance && is_within(range.first.index as usize, range.count, index)
}

/// Whether the range has the event of this number.
fn has_event(range: &EventRange, instance: InstanceNo, index: usize) -> bool
    ensures { result ≡ list_any (is_at instance index) (events_of range.now) }
{
    is_in_range(range, instance, index)
}

fn one_has_event(ranges: &[EventRange], instance: InstanceNo, index: usize) -> bool
    ensures { result ≡ list_any (λ r. list_any (is_at instance index) (events_of r)) ranges.now }
{
    ranges.iter().any(|range| has_event(range, instance, index))
}

/// Whether one of the ranges has the event of this number.
fn have_event(ranges: &[EventRange], instance: InstanceNo, index: usize) -> bool
    ensures { result ≡ list_any (is_at instance index) (events_in ranges.now) }
{
    one_has_event(ranges, instance, index)
}

/// The same where the numbers of an instance's events among them are marked.
fn have_marked(
    marks: &[bool],
    marked: InstanceNo,
    ranges: &[EventRange],
    instance: InstanceNo,
    index: usize,
) -> bool
    requires { AreMarks marked (events_in ranges.now) marks.now }
    ensures { result ≡ list_any (is_at instance index) (events_in ranges.now) }
{
    if instance == marked && index < marks.len() {
        return marks[index];
    }
    have_event(ranges, instance, index)
}

/// Of an old receive's report the races that go, by its report in the new chart.
fn gone_of(
    alloc: Global,
    message: &Message,
    report: &Report,
    other: &Report,
) -> Result<Report, AllocError>
    ensures { IfOk result (λ gone. gone ≡ gone_of (message_of message.now) report.now other.now) }
{
    let instance = report.receive().instance;
    let ranges = other.earlier().as_slice();
    let others = other.earlier().listed(alloc)?;
    let marks = marked(alloc, instance, others.as_slice())?;
    let earlier = report.earlier().listed(alloc)?;
    let mut gone = Vec::new(alloc);
    for event in earlier.as_slice() {
        let index = new_index(message, event);
        if !have_marked(marks.as_slice(), instance, ranges, event.instance, index) {
            gone.push(*event)?;
        }
    }
    Report::of(alloc, report.receive(), gone.as_slice())
}

/// The first report of an old receive, and those behind it.
fn next_old<'a>(message: &Message, reports: &'a [Report]) -> Option<(&'a Report, &'a [Report])>
    ensures { MatchOption result (old_receives (message_of message.now) reports.now ≡ [])
        (λ next. old_receives (message_of message.now) reports.now
        ≡ next.0.now ∷ old_receives (message_of message.now) next.1.now) }
{
    let mut rest = reports;
    while let Some((report, others)) = rest.split_first() {
        if !is_new(message, &report.receive()) {
            return Some((report, others));
        }
        rest = others;
    }
    None
}

/// The races that go.
pub(crate) fn all_gone(
    alloc: Global,
    message: &Message,
    olds: &[Report],
    news: &[Report],
) -> Result<Vec<Report>, AllocError>
    ensures { IfOk result (λ gone. gone.items
        ≡ all_gone (message_of message.now) olds.now (old_receives (message_of message.now) news.now)) }
{
    let mut gone = Vec::new(alloc);
    let mut rest = news;
    for report in olds {
        let Some((other, others)) = next_old(message, rest) else {
            break;
        };
        gone.push(gone_of(alloc, message, report, other)?)?;
        rest = others;
    }
    Ok(gone)
}

fn has_new(message: &Message, receive: &EventNo, event: &EventNo) -> bool
    ensures { result ≡ has_new (message_of message.now) receive.now event.now }
{
    is_new(message, receive) || is_new(message, event)
}

fn is_kept(coming: bool, message: &Message, receive: &EventNo, event: &EventNo) -> bool
    ensures { result ≡ is_kept coming (message_of message.now) receive.now event.now }
{
    if coming {
        has_new(message, receive, event)
    } else {
        !has_new(message, receive, event)
    }
}

/// Of a report of the new chart the races that come, or those that stay.
fn kept_of(
    alloc: Global,
    coming: bool,
    message: &Message,
    report: &Report,
) -> Result<Report, AllocError>
    ensures { IfOk result (λ kept. kept ≡ kept_of coming (message_of message.now) report.now) }
{
    let receive = report.receive();
    let earlier = report.earlier().listed(alloc)?;
    let mut kept = Vec::new(alloc);
    for event in earlier.as_slice() {
        if is_kept(coming, message, &receive, event) {
            kept.push(*event)?;
        }
    }
    Report::of(alloc, receive, kept.as_slice())
}

/// The races of the new chart that come, or those that stay.
pub(crate) fn all_kept(
    alloc: Global,
    coming: bool,
    message: &Message,
    news: &[Report],
) -> Result<Vec<Report>, AllocError>
    ensures { IfOk result (λ kept. kept.items ≡ map (kept_of coming (message_of message.now)) news.now) }
{
    let mut kept = Vec::new(alloc);
    for report in news {
        kept.push(kept_of(alloc, coming, message, report)?)?;
    }
    Ok(kept)
}

/// Which races of a chart with these reports go by the message, and which of those of the new chart stay and come.
pub(crate) fn changed_by(
    alloc: Global,
    message: &Message,
    olds: &[Report],
    news: &[Report],
) -> Result<Change, AllocError>
    ensures { IfOk result (λ change. change ≡ changed_by (message_of message.now) olds.now news.now) }
{
    Ok(Change {
        gone: all_gone(alloc, message, olds, news)?,
        staying: all_kept(alloc, false, message, news)?,
        coming: all_kept(alloc, true, message, news)?,
    })
}
