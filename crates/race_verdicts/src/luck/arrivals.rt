//! The arrivals of messages, in order.
ghost use Rattle.std.specs.Prelude.{◌≡◌, ◌<◌, ◌+◌, ◌↔◌, length, None, Some, replicate, slice_get, IfOk, MatchOption, IsTrue};
ghost use Rattle.log_chart.specs.declared.item.MessageNo.{MessageNo};
ghost use Rattle.log_chart.specs.Items.{message_of, naming_line};
ghost use Rattle.log_chart.specs.declared.matching.LogLine.{LogLine};
ghost use Rattle.race_verdicts.specs.Luck.Arrivals.{IsArrivalOf, CameFirst};
ghost use Rattle.race_verdicts.specs.Luck.ArrivalTables.{arrival_in, AreArrived, IsPut};
ghost use Rattle.race_verdicts.specs.Luck.LineTables.{AreTakers};
ghost use Rattle.race_verdicts.specs.Luck.QueueTables.{AreWaiting};
ghost use Rattle.race_verdicts.specs.Luck.Recorded.{IsLog};
ghost use Rattle.race_verdicts.specs.Recordings.{recording_view};

use crate::luck::queues::{Queues, left_of, received_of};
use crate::luck::tables::Table;
use crate::{Arrival, Recording};
use log_chart::{LogLine, MessageNo, message_of};
use std::alloc::{AllocError, Global};
use std::marker::Model;

/// The message of the line with this number.
fn message_at(lines: &[LogLine], number: usize) -> MessageNo
    requires { number < length lines.now }
    ensures { (x : LogLine) → slice_get lines.now number ≡ Some x → result ≡ message_of x }
{
    message_of(&lines[number])
}

/// The messages of each stream that wait for their arrival.
#[derive(Drop)]
struct Waiting {
    /// The messages that a line receives, by their receives.
    received: Queues,
    /// The messages that no line receives, by their sends.
    left: Queues,
}

impl Waiting {
    /// The message of the next arrival: the first message of its stream that waits. Afterwards it doesn't wait any
    /// more.
    fn message_arrived(
        &mut self,
        lines: &[LogLine],
        arrivals: &[Arrival],
        place: usize,
    ) -> Option<MessageNo>
        requires log { IsLog lines.now }
        requires place { place < length arrivals.now }
        requires waiting { AreWaiting lines.now arrivals.now place self.old.received.first self.old.received.next self.old.left.first self.old.left.next }
        ensures waiting { AreWaiting lines.now arrivals.now (place + 1) self.new.received.first self.new.received.next self.new.left.first self.new.left.next }
        ensures message { MatchOption result ((m : MessageNo) → IsArrivalOf lines.now arrivals.now m place → ⊥)
            (λ m. IsArrivalOf lines.now arrivals.now m place × (naming_line m < length lines.now)) }
    {
        let arrival = &arrivals[place];
        self.received.leave_above(arrival.stream, arrival.at);
        if let Some(number) = self.received.take_first(arrival.stream) {
            return Some(message_at(lines, number));
        }
        match self.left.take_first(arrival.stream) {
            Some(number) => Some(message_at(lines, number)),
            None => None,
        }
    }
}

/// For each message, the place of its first arrival, if the log records one. One table is for messages that a line
/// sends, and the other one for the rest.
#[derive(Drop)]
struct Arrived {
    sent: Table,
    begun: Table,
}

impl Arrived {
    /// No arrivals, for a log with this number of lines.
    fn none(alloc: Global, count: usize) -> Result<Arrived, AllocError>
        ensures sent { IfOk result (λ arrived. arrived.sent ≡ replicate count None) }
        ensures begun { IfOk result (λ arrived. arrived.begun ≡ replicate count None) }
    {
        Ok(Arrived {
            sent: Table::none(alloc, count)?,
            begun: Table::none(alloc, count)?,
        })
    }

    /// The place of a message's first arrival.
    fn at(&self, message: MessageNo) -> Option<usize>
        ensures { result ≡ arrival_in self.now.sent self.now.begun message }
    {
        match message {
            MessageNo::Sent(number) => self.sent.at(number),
            MessageNo::Begun(number) => self.begun.at(number),
        }
    }

    /// Stores the place of a message's arrival, unless it has one.
    fn note(&mut self, message: MessageNo, place: usize)
        requires sent { naming_line message < length self.old.sent }
        requires begun { naming_line message < length self.old.begun }
        ensures { IsPut self.old.sent self.old.begun self.new.sent self.new.begun message place }
    {
        match message {
            MessageNo::Sent(number) => self.sent.note(number, place),
            MessageNo::Begun(number) => self.begun.note(number, place),
        }
    }
}

/// The first arrival of each message.
fn arrivals_of(
    alloc: Global,
    lines: &[LogLine],
    arrivals: &[Arrival],
    mut waiting: Waiting,
) -> Result<Arrived, AllocError>
    requires log { IsLog lines.now }
    requires waiting { AreWaiting lines.now arrivals.now 0 waiting.received.first waiting.received.next waiting.left.first waiting.left.next }
    ensures { IfOk result (λ arrived. AreArrived lines.now arrivals.now (length arrivals.now) arrived.sent arrived.begun) }
{
    let mut found = Arrived::none(alloc, lines.len())?;
    for place in 0..arrivals.len() {
        if let Some(message) = waiting.message_arrived(lines, arrivals, place) {
            found.note(message, place);
        }
    }
    Ok(found)
}

/// Compares the arrivals of messages. Contracts see the recording.
#[derive(Drop)]
pub(crate) struct Arrivals<'a> {
    recording: Recording<'a>,
    arrived: Arrived,
}

impl<'a> Model for Arrivals<'a> {
    ghost use Rattle.std.specs.Prelude.{length};
    ghost use Rattle.race_verdicts.specs.Recordings.{RecordingView, recording_view};
    ghost use Rattle.race_verdicts.specs.Luck.ArrivalTables.{AreArrived};

    ghost Value = { RecordingView };

    ghost view = { λ a. recording_view a.recording };

    ghost invariant = { λ a. AreArrived a.recording.lines.now a.recording.arrivals.now (length a.recording.arrivals.now) a.arrived.sent a.arrived.begun };
}

impl<'a> Arrivals<'a> {
    /// The arrivals that a recording has.
    pub(crate) fn of(
        alloc: Global,
        recording: Recording<'a>,
        takers: &Table,
    ) -> Result<Arrivals<'a>, AllocError>
        requires log { IsLog (recording_view recording).lines }
        requires takers { AreTakers (recording_view recording).lines takers.now }
        ensures { IfOk result (λ arrivals. arrivals ≡ recording_view recording.entry) }
    {
        let received = received_of(alloc, recording.lines)?;
        let left = left_of(alloc, recording.lines, takers)?;
        let waiting = Waiting { received, left };
        let arrived = arrivals_of(alloc, recording.lines, recording.arrivals, waiting)?;
        Ok(Arrivals { recording, arrived })
    }

    /// Whether a message arrived before another one, of which the log records an arrival too.
    pub(crate) fn came_first(&self, message: MessageNo, other: MessageNo) -> bool
        requires message { naming_line message < length self.now.lines }
        requires other { naming_line other < length self.now.lines }
        ensures { IsTrue result ↔ CameFirst self.now message other }
    {
        let Some(place) = self.arrived.at(message) else {
            return false;
        };
        let Some(other_place) = self.arrived.at(other) else {
            return false;
        };
        place < other_place
    }
}
