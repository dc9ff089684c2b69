//! For each event of a line, the last sends that handle only certain receives up to it.
ghost use Rattle.std.specs.Prelude.{◌≡◌, ◌<◌, ◌≤◌, ℕ, suc, length, All, Some, IfOk, IsTrue, ◌↔◌};
ghost use Rattle.chart.specs.Charts.{IsLine};
ghost use Rattle.chart.specs.Events.{ith, partner_of};
ghost use Rattle.reordering.specs.Completion.Handling.{IsReceiveAt, IsSendAt};
ghost use Rattle.reordering.specs.Completion.Tables.{IsRunEnd, HasOneSender, IsFrom, HasPassed, AreLastSends, IsRowOf};

use crate::completion::row::Row;
use chart::{Event, GrowingLine, InstanceNo};
use closure::Numbers;
use std::alloc::{AllocError, Global};

/// The last sends of an event of a line, each 0 if there is none.
#[derive(Clone, Copy, Debug)]
pub struct LastSends {
    /// The line's last send that handles only receives up to this event.
    pub within: u32,
    /// The line's last send that handles only earlier receives from this event's sender.
    pub same_sender: u32,
}

/// The last sends of the passed events of a line.
#[derive(Drop)]
pub struct Passed {
    /// The line's last send that handles only passed receives.
    all: usize,
    /// For each sender, the last send that handles only passed receives from it.
    by_sender: Numbers,
}

/// The event at a place of a line.
fn event_at(line: &GrowingLine, place: usize) -> Event
    requires { place < length line.now.line.events }
    ensures event { ith line.now.line.events (suc place) ≡ Some result }
    ensures line { IsLine line.now.line }
{
    line.event(place)
}

/// Whether the event at a place is a send.
fn sends_at(line: &GrowingLine, place: usize) -> bool
    requires { place < length line.now.line.events }
    ensures { IsTrue result ↔ IsSendAt line.now.line.events (suc place) }
{
    match event_at(line, place) {
        Event::Send { .. } => true,
        Event::Receive { .. } => false,
    }
}

/// The index of the last send in the run of sends directly after this number of first events of a line. It is this
/// number if there are no such sends.
fn run_end(line: &GrowingLine, first: usize) -> usize
    requires { first ≤ length line.now.line.events }
    ensures { IsRunEnd line.now.line.events first result }
{
    for place in first..line.len() {
        if !sends_at(line, place) {
            return place;
        }
    }
    line.len()
}

/// Whether all earlier receives of a receive's coregion are from its sender.
fn has_one_sender(line: &GrowingLine, index: usize) -> bool
    requires within { index ≤ length line.now.line.events }
    requires receive { IsReceiveAt line.now.line.events index }
    ensures { IsTrue result ↔ HasOneSender line.now.line.events index }
{
    line.event(index - 1).region() == 0 || line.run_start(index) <= line.region_start(index)
}

/// Passes the receive at a place, which comes from this sender.
fn pass_receive(line: &GrowingLine, place: usize, from: InstanceNo, passed: &mut Passed)
    requires place { place < length line.now.line.events }
    requires line { IsLine line.now.line }
    requires receive { IsFrom line.now.line.events from (suc place) }
    requires sender { from ≤ length passed.old.by_sender }
    requires passed { HasPassed line.now.line.events place passed.old.all passed.old.by_sender }
    ensures passed { HasPassed line.now.line.events (suc place) passed.new.all passed.new.by_sender }
    ensures senders { length passed.new.by_sender ≡ length passed.old.by_sender }
{
    let index = place + 1;
    let end = run_end(line, index);
    if end == index {
        return;
    }
    passed.all = end;
    if !has_one_sender(line, index) {
        return;
    }
    passed.by_sender.set(from.place(), end);
}

/// Passes the event at a place, and returns its last sends.
fn pass(line: &GrowingLine, place: usize, passed: &mut Passed) -> LastSends
    requires place { place < length line.now.line.events }
    requires senders { All (λ m. partner_of m ≤ length passed.old.by_sender) line.now.line.events }
    requires passed { HasPassed line.now.line.events place passed.old.all passed.old.by_sender }
    ensures value { AreLastSends line.now.line.events place result }
    ensures passed { HasPassed line.now.line.events (suc place) passed.new.all passed.new.by_sender }
    ensures senders { length passed.new.by_sender ≡ length passed.old.by_sender }
{
    match event_at(line, place) {
        Event::Send { .. } => LastSends {
            within: passed.all as u32,
            same_sender: 0,
        },
        Event::Receive { from, .. } => {
            let same_sender = passed.by_sender.at(from.place());
            pass_receive(line, place, from, passed);
            LastSends {
                within: passed.all as u32,
                same_sender: same_sender as u32,
            }
        }
    }
}

/// The last sends of each event of a line, whose partners are among the first `instances` instances.
pub fn last_sends_of(alloc: Global, line: &GrowingLine, instances: usize) -> Result<Row, AllocError>
    requires { All (λ m. partner_of m ≤ instances) line.now.line.events }
    ensures { IfOk result (IsRowOf line.now.line.events) }
{
    let by_sender = Numbers::zeros(alloc, instances)?;
    let mut passed = Passed { all: 0, by_sender };
    let mut row = Row::new(alloc);
    for place in 0..line.len() {
        let next = pass(line, place, &mut passed);
        row.push(next)?;
    }
    Ok(row)
}
