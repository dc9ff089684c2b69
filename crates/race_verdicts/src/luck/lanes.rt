//! Messages that are behind others of their lanes.
ghost use Rattle.std.specs.Prelude.{ℕ, ◌≡◌, ◌<◌, ◌≤◌, ◌↔◌, ◌&&◌, is_some, length, IfOk, IsTrue};
ghost use Rattle.log_chart.specs.Entries.{is_send};
ghost use Rattle.log_chart.specs.Items.{naming_line};
ghost use Rattle.race_verdicts.specs.Luck.Behind.{IsThere, WouldHaveTaken, IsBehind};
ghost use Rattle.race_verdicts.specs.Luck.LaneTables.{IsOnLane, AreAbove, AreOver, later_of, until_of};
ghost use Rattle.race_verdicts.specs.Luck.LineTables.{AreTakers};
ghost use Rattle.race_verdicts.specs.Luck.Recorded.{IsLog, IsSendLine};
ghost use Rattle.race_verdicts.specs.Recordings.{recording_view};

use crate::Recording;
use crate::luck::arrivals::Arrivals;
use crate::luck::tables::Table;
use crate::luck::taking::Taking;
use log_chart::{LaneTable, LogLine, MessageNo, is_send};
use std::alloc::{AllocError, Global};
use std::cmp::max;
use std::marker::Model;

/// Whether a line sends a message that some line takes.
fn is_taken(line: &LogLine, taker: Option<usize>) -> bool
    ensures { result ≡ (is_send line.now.entry.kind && is_some taker) }
{
    is_send(line.entry.kind) && taker.is_some()
}

/// For each send, the last one before it on its lane that a line takes.
fn above_of(alloc: Global, lines: &[LogLine], takers: &Table) -> Result<Table, AllocError>
    requires { AreTakers lines.now takers.now }
    ensures { IfOk result (AreAbove lines.now) }
{
    let mut above = Table::none(alloc, lines.len())?;
    let mut last = LaneTable::none(alloc)?;
    for (number, line) in lines.iter().enumerate() {
        if is_send(line.entry.kind) {
            above.set(number, last.at(line.entry.host, line.entry.peer));
        }
        if is_taken(line, takers.at(number)) {
            last.set(line.entry.host, line.entry.peer, Some(number));
        }
    }
    Ok(above)
}

/// The later of two lines, if both are given.
fn later_of(one: Option<usize>, other: Option<usize>) -> Option<usize>
    ensures { result ≡ later_of one other }
{
    match (one, other) {
        (Some(one), Some(other)) => Some(max(one, other)),
        _ => None,
    }
}

/// The line by which a send and all taken sends before it on its lane were taken. `above` is the last of these sends.
fn until_of(above: Option<usize>, taker: Option<usize>, over: &Table) -> Option<usize>
    ensures { result ≡ until_of above taker over.now }
{
    match above {
        Some(send) => later_of(taker, over.at(send)),
        None => taker,
    }
}

/// For each send that a line takes, a line by which it and all such sends before it on its lane were taken.
fn over_of(
    alloc: Global,
    lines: &[LogLine],
    above: &Table,
    takers: &Table,
) -> Result<Table, AllocError>
    requires above { AreAbove lines.now above.now }
    requires takers { AreTakers lines.now takers.now }
    ensures { IfOk result (AreOver lines.now) }
{
    let mut over = Table::none(alloc, lines.len())?;
    for number in 0..lines.len() {
        let until = until_of(above.at(number), takers.at(number), &over);
        over.set(number, until);
    }
    Ok(over)
}

/// Decides which messages are behind others of their lanes. Contracts see the recording.
#[derive(Drop)]
pub(crate) struct Lanes<'a> {
    recording: Recording<'a>,
    /// For each line, the first line that takes its message.
    takers: Table,
    /// For each send, the last one before it on its lane that a line takes.
    above: Table,
    /// For each send that a line takes, a line by which it and all such sends before it on its lane were taken.
    over: Table,
}

impl<'a> Model for Lanes<'a> {
    ghost use Rattle.race_verdicts.specs.Recordings.{RecordingView, recording_view};
    ghost use Rattle.race_verdicts.specs.Luck.LaneTables.{AreLaneTables};

    ghost Value = { RecordingView };

    ghost view = { λ l. recording_view l.recording };

    ghost invariant = { λ l. AreLaneTables l.recording.lines.now l.takers l.above l.over };
}

impl<'a> Lanes<'a> {
    /// The lanes of a recording.
    pub(crate) fn of(
        alloc: Global,
        recording: Recording<'a>,
        takers: Table,
    ) -> Result<Lanes<'a>, AllocError>
        requires log { IsLog (recording_view recording).lines }
        requires takers { AreTakers (recording_view recording).lines takers }
        ensures { IfOk result (λ lanes. lanes ≡ recording_view recording.entry) }
    {
        let above = above_of(alloc, recording.lines, &takers)?;
        let over = over_of(alloc, recording.lines, &above, &takers)?;
        Ok(Lanes {
            recording,
            takers,
            above,
            over,
        })
    }

    /// Whether some line takes the message that `send` sends, and no line before `line` does.
    fn is_there(&self, line: usize, send: usize) -> bool
        requires { send < length self.now.lines }
        ensures { IsTrue result ↔ IsThere self.now line send }
    {
        match self.takers.at(send) {
            Some(taker) => line <= taker,
            None => false,
        }
    }

    /// Whether the message that `send` sends was taken before `line`, and so were all taken messages before it on its
    /// lane.
    fn is_over(&self, line: usize, send: usize) -> bool
        requires { send < length self.now.lines }
        ensures { IsTrue result → (q p o : ℕ) → IsOnLane self.now.lines q p send → o ≤ send → IsOnLane self.now.lines q p o
            → IsThere self.now line o → ⊥ }
    {
        match self.over.at(send) {
            Some(until) => until < line,
            None => false,
        }
    }

    /// Whether the message that `send` sends waits at `line`, and the receive of `line` would have taken it and didn't
    /// pass it over. `own` is the receive's own message.
    fn would_have_taken(
        &self,
        taking: &Taking<'_>,
        arrivals: &Arrivals<'_>,
        line: usize,
        own: MessageNo,
        send: usize,
    ) -> bool
        requires taking { taking.now ≡ self.now }
        requires arrivals { arrivals.now ≡ self.now }
        requires words { length self.now.words ≡ length self.now.lines }
        requires line { line < length self.now.lines }
        requires own { naming_line own < length self.now.lines }
        requires send { send < length self.now.lines }
        ensures { IsTrue result ↔ WouldHaveTaken self.now line own send }
    {
        if !self.is_there(line, send) {
            return false;
        }
        if !taking.would_take(line, send) {
            return false;
        }
        !arrivals.came_first(MessageNo::Sent(send), own)
    }

    /// Whether the receive would have taken another message of the same lane, which was sent before the one that `send`
    /// sends.
    pub(crate) fn is_behind(
        &self,
        taking: &Taking<'_>,
        arrivals: &Arrivals<'_>,
        line: usize,
        own: MessageNo,
        send: usize,
    ) -> bool
        requires taking { taking.now ≡ self.now }
        requires arrivals { arrivals.now ≡ self.now }
        requires words { length self.now.words ≡ length self.now.lines }
        requires line { line < length self.now.lines }
        requires own { naming_line own < length self.now.lines }
        requires send { IsSendLine self.now.lines send }
        ensures { IsTrue result ↔ IsBehind self.now line own send }
    {
        let mut next = self.above.at(send);
        'sends: while let Some(other) = next {
            if self.is_over(line, other) {
                return false;
            }
            if self.would_have_taken(taking, arrivals, line, own, other) {
                return true;
            }
            next = self.above.at(other);
        }
        false
    }
}
