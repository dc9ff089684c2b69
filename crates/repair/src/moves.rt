//! Where the events of a chart are in the chart with a message more.
ghost use Rattle.std.specs.Prelude.{◌≡◌, ◌+◌, ◌≤◌, map, All, IfOk};
ghost use Rattle.chart.specs.declared.line.TheConstants.{MAX_EVENTS};
ghost use Rattle.repair.specs.Growing.{message_of};
ghost use Rattle.repair.specs.Messages.{moved_index};
ghost use Rattle.repair.specs.Moves.{new_index, moved_event, moved_report, moved_counted, HasNumbers};

use crate::counted::Counted;
use crate::message::Message;
use chart::{EventNo, Report};
use std::alloc::{AllocError, Global};

fn moved_index(kept: usize, index: u32) -> usize
    ensures number { result ≡ moved_index kept index }
    ensures near { result ≤ index + 1 }
{
    let index = index as usize;
    if index <= kept { index } else { index + 1 }
}

/// The number of an event of a chart in the chart with the message.
pub fn new_index(message: &Message, event: &EventNo) -> usize
    ensures number { result ≡ new_index (message_of message.now) event.now }
    ensures near { result ≤ event.now.index + 1 }
{
    if event.instance == message.sender {
        moved_index(message.sent, event.index)
    } else if event.instance == message.receiver {
        moved_index(message.received, event.index)
    } else {
        event.index as usize
    }
}

/// The event in the chart with the message.
fn moved_event(message: &Message, event: &EventNo) -> EventNo
    requires { event.now.index ≤ MAX_EVENTS }
    ensures { result ≡ moved_event (message_of message.now) event.now }
{
    EventNo {
        instance: event.instance,
        index: new_index(message, event) as u32,
    }
}

fn moved_events(
    alloc: Global,
    message: &Message,
    events: &[EventNo],
) -> Result<Vec<EventNo>, AllocError>
    requires { All (λ e. e.index ≤ MAX_EVENTS) events.now }
    ensures { IfOk result (λ moved. moved.items ≡ map (moved_event (message_of message.now)) events.now) }
{
    let mut moved = Vec::new(alloc);
    for event in events {
        moved.push(moved_event(message, event))?;
    }
    Ok(moved)
}

fn moved_report(alloc: Global, message: &Message, report: &Report) -> Result<Report, AllocError>
    requires { HasNumbers report.now }
    ensures { IfOk result (λ moved. moved ≡ moved_report (message_of message.now) report.now) }
{
    let receive = moved_event(message, &report.receive());
    let earlier = report.earlier().listed(alloc)?;
    let moved = moved_events(alloc, message, earlier.as_slice())?;
    Report::of(alloc, receive, moved.as_slice())
}

fn moved_reports(
    alloc: Global,
    message: &Message,
    reports: &[Report],
) -> Result<Vec<Report>, AllocError>
    requires { All HasNumbers reports.now }
    ensures { IfOk result (λ moved. moved.items ≡ map (moved_report (message_of message.now)) reports.now) }
{
    let mut moved = Vec::new(alloc);
    for report in reports {
        moved.push(moved_report(alloc, message, report)?)?;
    }
    Ok(moved)
}

/// The races that count in the chart with the message. If only those of luck do, these are the pairs of the same two
/// events.
pub(crate) fn moved_counted(
    alloc: Global,
    message: &Message,
    counted: &Counted,
) -> Result<Counted, AllocError>
    requires { All HasNumbers counted.now.luck }
    ensures { IfOk result (λ moved. moved ≡ moved_counted (message_of message.now) counted.now) }
{
    let luck = moved_reports(alloc, message, counted.luck.as_slice())?;
    Ok(Counted {
        showing: counted.showing,
        only_luck: counted.only_luck,
        luck,
    })
}
