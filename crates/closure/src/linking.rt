//! The partner of each event: the n-th receive on a lane belongs to the n-th send.
ghost use Rattle.std.specs.Prelude.{◌≡◌, ◌<◌, ◌≤◌, ◌↔◌, suc, length, count_by, IsTrue, MatchOption, IfOk, OnOk, IfErr};
ghost use Rattle.chart.specs.Events.{is_send_to, tally};
ghost use Rattle.chart.specs.Charts.{at, chart_lines, IsChart};
ghost use Rattle.closure.specs.Faults.{Refuses};
ghost use Rattle.closure.specs.Rows.{IsRow, AreRows};
ghost use Rattle.closure.specs.Links.{IsPartner, IsNextSend, HasPassed, IsFaultOf, refusal_of, RefusesLine};

use crate::error::ChartError;
use crate::numbers::Numbers;
use crate::partner::Partner;
use crate::row::Row;
use chart::line_events::{event_at, events_at, len_of};
use chart::{Event, EventNo, InstanceNo, Line, Name};
use std::alloc::Global;

/// What is wrong with a receive.
#[derive(Clone, Copy)]
enum Fault {
    NoSend,
    OtherName,
}

fn is_send_to(event: &Event, receiver: InstanceNo) -> bool
    ensures { result ≡ is_send_to receiver event.now }
{
    match event {
        Event::Send { to, .. } => *to == receiver,
        Event::Receive { .. } => false,
    }
}

fn are_same(name: Name, other: Name) -> bool
    ensures { IsTrue result ↔ (name ≡ other) }
{
    name == other
}

/// The index of the next send to the receiver after the first `passed` events.
fn next_send(events: &[Event], passed: usize, receiver: InstanceNo) -> Option<usize>
    requires { passed ≤ length events.now }
    ensures { MatchOption result
        (count_by (is_send_to receiver) events.now ≡ tally (is_send_to receiver) events.now passed)
        (λ index. IsNextSend events.now receiver passed index) }
{
    let mut index = passed;
    while index < events.len() {
        let is_next = is_send_to(&events[index], receiver);
        index += 1;
        if is_next {
            return Some(index);
        }
    }
    None
}

/// The other end of the message of the event at this place. For each sender's line, `passed` is the number of events
/// looked at, up to the send of the last receive.
fn link_event(
    lines: &[Line],
    passed: &mut Numbers,
    line: usize,
    place: usize,
) -> Result<Partner, Fault>
    requires chart { IsChart lines.now }
    requires line { line < length lines.now }
    requires place { place < length (chart_lines lines.now (suc line)) }
    requires passed { HasPassed (chart_lines lines.now) (length lines.now) line place passed.old }
    ensures ok { IfOk result (IsPartner lines.now (at (suc line) (suc place))) }
    ensures next { OnOk result (HasPassed (chart_lines lines.now) (length lines.now) line (suc place) passed.new) }
    ensures fault { IfErr result (IsFaultOf (chart_lines lines.now) (at (suc line) (suc place))) }
{
    let (sender, name) = match event_at(lines, line, place) {
        Event::Send { to, .. } => {
            return Ok(Partner::Receiver {
                line: to.place() as u8,
            });
        }
        Event::Receive { from, name, .. } => (from.place(), name),
    };
    let events = events_at(lines, sender);
    let Some(index) = next_send(events, passed.at(sender), InstanceNo::at_place(line)) else {
        return Err(Fault::NoSend);
    };
    if !are_same(events[index - 1].name(), name) {
        return Err(Fault::OtherName);
    }
    passed.set(sender, index);
    Ok(Partner::Sender {
        line: sender as u8,
        index: index as u16,
    })
}

/// The refusal of a chart in which this receive has the fault.
fn refusal(fault: Fault, receive: EventNo) -> ChartError
    ensures { result ≡ refusal_of fault receive }
{
    match fault {
        Fault::NoSend => ChartError::ReceiveWithoutSend(receive),
        Fault::OtherName => ChartError::NameMismatch(receive),
    }
}

/// The partner of each event of a line.
fn link_line(alloc: Global, lines: &[Line], line: usize) -> Result<Row<Partner>, ChartError>
    requires chart { IsChart lines.now }
    requires line { line < length lines.now }
    ensures ok { IfOk result
        (IsRow (IsPartner lines.now) (suc line) (length (chart_lines lines.now (suc line)))) }
    ensures err { IfErr result (RefusesLine (chart_lines lines.now) (suc line)) }
{
    let mut passed = Numbers::zeros(alloc, lines.len())?;
    let mut row = Row::new(alloc);
    for place in 0..len_of(lines, line) {
        match link_event(lines, &mut passed, line, place) {
            Ok(partner) => row.push(partner)?,
            Err(fault) => {
                let receive = EventNo {
                    instance: InstanceNo::at_place(line),
                    index: place as u32 + 1,
                };
                return Err(refusal(fault, receive));
            }
        }
    }
    Ok(row)
}

/// The partner of each event: for each line a row with those of its events. The first receive without a send, or with
/// another name than its send, is refused.
pub fn partners_of(alloc: Global, lines: &[Line]) -> Result<Vec<Row<Partner>>, ChartError>
    requires { IsChart lines.now }
    ensures ok { IfOk result
        (λ partners. AreRows (IsPartner lines.now) (chart_lines lines.now) (length lines.now) partners.items) }
    ensures err { IfErr result (Refuses (chart_lines lines.now)) }
{
    let mut partners = Vec::new(alloc);
    for line in 0..lines.len() {
        match link_line(alloc, lines, line) {
            Ok(row) => partners.push(row)?,
            Err(error) => return Err(error),
        }
    }
    Ok(partners)
}
