//! Lines and charts with a message more.
ghost use Rattle.std.specs.Prelude.{◌≡◌, ◌≢◌, ◌<◌, ◌≤◌, ◌+◌, ◌++◌, ◌∷◌, [], ℕ, map, take, length, slice_get, Some, IfOk, IfErr, OnOk};
ghost use Rattle.std.specs.List.{insert};
ghost use Rattle.chart.specs.declared.event.Event.{Event};
ghost use Rattle.chart.specs.declared.line.TheConstants.{MAX_EVENTS};
ghost use Rattle.chart.specs.Events.{MayHaveRegion, partner_of, region_of};
ghost use Rattle.chart.specs.Charts.{IsChart};
ghost use Rattle.repair.specs.Growing.{message_of, line_with, CanInsert, CanHave, AllCanHave};

use crate::error::MendError;
use crate::message::Message;
use chart::{Chart, Event, Line, LineError};
use std::alloc::{AllocFailed, Global};

/// Adds an event for which the line has a place.
fn add(line: &mut Line, event: Event) -> Result<(), MendError>
    requires may { MayHaveRegion line.old.events (region_of event) }
    requires partner { partner_of event ≢ line.old.instance }
    requires room { length line.old.events < MAX_EVENTS }
    ensures ok { OnOk result (line.new ≡ record line.old { events = line.old.events ++ event ∷ [] }) }
    ensures err { IfErr result (λ e. e ≡ MendError.Memory) }
{
    match line.push(event) {
        Ok(()) => Ok(()),
        Err(LineError::Memory) => Err(MendError::Memory),
        Err(_) => unreachable!(),
    }
}

/// Adds these events, for which the line has a place.
fn add_all(line: &mut Line, events: &[Event]) -> Result<(), MendError>
    requires may { (i : ℕ) (m : Event) → slice_get events.now i ≡ Some m
        → MayHaveRegion (line.old.events ++ take i events.now) (region_of m) }
    requires partners { (i : ℕ) (m : Event) → slice_get events.now i ≡ Some m → partner_of m ≢ line.old.instance }
    requires room { length line.old.events + length events.now ≤ MAX_EVENTS }
    ensures ok { OnOk result (line.new ≡ record line.old { events = line.old.events ++ events.now }) }
    ensures err { IfErr result (λ e. e ≡ MendError.Memory) }
{
    for event in events {
        match add(line, *event) {
            Ok(()) => {}
            Err(error) => return Err(error),
        }
    }
    Ok(())
}

/// A copy of the line.
fn copied_line(alloc: Global, line: &Line) -> Result<Line, MendError>
    ensures ok { IfOk result (λ copy. copy ≡ line.now) }
    ensures err { IfErr result (λ e. e ≡ MendError.Memory) }
{
    let mut copy = Line::new(alloc, line.instance());
    match add_all(&mut copy, line.events()) {
        Ok(()) => Ok(copy),
        Err(error) => Err(error),
    }
}

/// The line with the event behind its first so many.
fn inserted(alloc: Global, line: &Line, behind: usize, event: Event) -> Result<Line, MendError>
    requires { CanInsert line.now behind event }
    ensures ok { IfOk result (λ longer. longer
        ≡ record line.now { events = insert line.now.events behind event }) }
    ensures err { IfErr result (λ e. e ≡ MendError.Memory) }
{
    let events = line.events();
    let mut longer = Line::new(alloc, line.instance());
    match add_all(&mut longer, &events[..behind]) {
        Ok(()) => {}
        Err(error) => return Err(error),
    }
    match add(&mut longer, event) {
        Ok(()) => {}
        Err(error) => return Err(error),
    }
    match add_all(&mut longer, &events[behind..]) {
        Ok(()) => Ok(longer),
        Err(error) => Err(error),
    }
}

/// The line with the message's send, with its receive, or as it is.
fn line_with(alloc: Global, line: &Line, message: &Message) -> Result<Line, MendError>
    requires { CanHave (message_of message.now) line.now }
    ensures ok { IfOk result (λ longer. longer ≡ line_with (message_of message.now) line.now) }
    ensures err { IfErr result (λ e. e ≡ MendError.Memory) }
{
    if line.instance() == message.sender {
        let send = Event::Send {
            to: message.receiver,
            name: message.name,
        };
        return inserted(alloc, line, message.sent, send);
    }
    if line.instance() == message.receiver {
        let receive = Event::Receive {
            from: message.sender,
            name: message.name,
            region: 0,
        };
        return inserted(alloc, line, message.received, receive);
    }
    copied_line(alloc, line)
}

/// The lines with the message.
fn lines_with(alloc: Global, lines: &[Line], message: &Message) -> Result<Vec<Line>, MendError>
    requires { AllCanHave (message_of message.now) lines.now }
    ensures ok { IfOk result (λ longer. longer.items ≡ map (line_with (message_of message.now)) lines.now) }
    ensures err { IfErr result (λ e. e ≡ MendError.Memory) }
{
    let mut longer = Vec::new(alloc);
    for line in lines {
        match line_with(alloc, line, message) {
            Ok(line) => match longer.push(line) {
                Ok(()) => {}
                Err(AllocFailed { .. }) => return Err(MendError::Memory),
            },
            Err(error) => return Err(error),
        }
    }
    Ok(longer)
}

/// The chart with the message.
pub(crate) fn chart_with(
    alloc: Global,
    lines: &[Line],
    message: &Message,
) -> Result<Chart, MendError>
    requires chart { IsChart lines.now }
    requires sender { message.now.sender ≤ length lines.now }
    requires receiver { message.now.receiver ≤ length lines.now }
    requires have { AllCanHave (message_of message.now) lines.now }
    ensures ok { IfOk result (λ chart. chart ≡ map (line_with (message_of message.now)) lines.now) }
    ensures err { IfErr result (λ e. e ≡ MendError.Memory) }
{
    match lines_with(alloc, lines, message) {
        Ok(lines) => match Chart::new(lines) {
            Ok(chart) => Ok(chart),
            Err(_) => unreachable!(),
        },
        Err(error) => Err(error),
    }
}

fn copied_lines(alloc: Global, lines: &[Line]) -> Result<Vec<Line>, MendError>
    ensures ok { IfOk result (λ copies. copies.items ≡ lines.now) }
    ensures err { IfErr result (λ e. e ≡ MendError.Memory) }
{
    let mut copies = Vec::new(alloc);
    for line in lines {
        match copied_line(alloc, line) {
            Ok(copy) => match copies.push(copy) {
                Ok(()) => {}
                Err(AllocFailed { .. }) => return Err(MendError::Memory),
            },
            Err(error) => return Err(error),
        }
    }
    Ok(copies)
}

/// A copy of the chart.
///
/// F6: it fails only where there is no memory.
pub fn copied(alloc: Global, chart: &Chart) -> Result<Chart, MendError>
    ensures ok { IfOk result (λ copy. copy ≡ chart.now) }
    ensures err { IfErr result (λ e. e ≡ MendError.Memory) }
{
    match copied_lines(alloc, chart.lines()) {
        Ok(lines) => match Chart::new(lines) {
            Ok(copy) => Ok(copy),
            Err(_) => unreachable!(),
        },
        Err(error) => Err(error),
    }
}
