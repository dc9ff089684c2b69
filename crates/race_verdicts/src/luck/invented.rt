//! Sends that come after invented ones.
ghost use Rattle.std.specs.Prelude.{ℕ, suc, ◌≡◌, ◌+◌, ◌<◌, ◌≤◌, ◌↔◌, length, map, None, Some, slice_index, slice_index_or, true, IfOk, IsTrue};
ghost use Rattle.chart.specs.declared.instance.TheConstants.{MAX_INSTANCES};
ghost use Rattle.chart.specs.Events.{is_send_to};
ghost use Rattle.chart.specs.Charts.{Place, at, chart_lines, IsReceiveFrom};
ghost use Rattle.chart.specs.Order.{Before};
ghost use Rattle.closure.specs.Faults.{place_of};
ghost use Rattle.closure.specs.Searches.{IsSend};
ghost use Rattle.race_verdicts.specs.Luck.Invention.{IsUnlogged, AreInvented, IsSendAt, IsUpToFirst, HasInvented, IsKnownBy, IsKnownFrom, AreKnown, AreNumbered, HasEntry};
ghost use Rattle.race_verdicts.specs.Luck.Places.{IsInvented};
ghost use Rattle.race_verdicts.specs.Luck.Recorded.{IsRecording};
ghost use Rattle.race_verdicts.specs.Luck.Tables.{IsFirst, IsLast};
ghost use Rattle.race_verdicts.specs.Recordings.{recording_view};

use crate::Recording;
use crate::luck::tables::Table;
use chart::{Event, EventNo, InstanceNo};
use closure::{Closure, Numbers};
use log_chart::{HostLine, Item};
use std::alloc::{AllocError, Global};
use std::marker::Model;

/// The number of a host's first invented event, from 1.
fn first_invented(items: &[Item]) -> Option<usize>
    ensures { IsFirst (IsUnlogged items.now) (length items.now + 1) result }
{
    for (place, item) in items.iter().enumerate() {
        if item.line.is_none() {
            return Some(place + 1);
        }
    }
    None
}

/// The same for each host.
fn invented_of(alloc: Global, hosts: &[HostLine]) -> Result<Table, AllocError>
    ensures { IfOk result (AreInvented hosts.now) }
{
    let mut invented = Table::none(alloc, hosts.len())?;
    for place in 0..hosts.len() {
        invented.set(place, first_invented(hosts[place].as_slice()));
    }
    Ok(invented)
}

/// Whether an event is a send.
fn is_send(event: &Event) -> bool
    ensures { IsTrue result ↔ ((q : ℕ) × (is_send_to q event.now ≡ true)) }
{
    match event {
        Event::Send { .. } => true,
        Event::Receive { .. } => false,
    }
}

/// The number of the last send among the first `count` events of a line, from 1.
fn last_send(events: &[Event], count: usize) -> Option<usize>
    requires { count ≤ length events.now }
    ensures { IsLast (IsSendAt events.now) (count + 1) result }
{
    let mut index = count;
    'events: while index > 0 {
        if is_send(&events[index - 1]) {
            return Some(index);
        }
        index -= 1;
    }
    None
}

/// Whether `first` is given, and is at most `number`.
fn is_up_to(first: Option<usize>, number: usize) -> bool
    ensures { IsTrue result ↔ IsUpToFirst first number }
{
    match first {
        Some(first) => first <= number,
        None => false,
    }
}

/// Whether the first events of the lines include an invented one. `fronts` has how many first events of each line
/// count.
fn has_invented(invented: &Table, fronts: &Numbers) -> bool
    ensures { IsTrue result ↔ HasInvented invented.now fronts.now }
{
    for place in 0..fronts.len() {
        if is_up_to(invented.at(place), fronts.at(place)) {
            return true;
        }
    }
    false
}

/// Whether one of the first `count` events of a line is a send that is invented, or that an invented send comes before.
fn is_known_by(
    closure: &Closure<'_>,
    invented: &Table,
    place: usize,
    count: usize,
) -> Result<bool, AllocError>
    requires place { place < length closure.now }
    requires limit { place < MAX_INSTANCES }
    requires count { count ≤ length (chart_lines closure.now (suc place)) }
    requires whole { length invented.now ≡ length closure.now }
    requires numbered { AreNumbered invented.now }
    ensures { IfOk result (λ known. IsTrue known ↔ IsKnownBy (chart_lines closure.now) invented.now (suc place) count) }
{
    let Some(index) = last_send(closure.lines()[place].events(), count) else {
        return Ok(false);
    };
    let fronts = closure.up_to(&EventNo {
        instance: InstanceNo::at_place(place),
        index: index as u32,
    })?;
    Ok(has_invented(invented, &fronts))
}

/// The number of a line's first send that is invented, or that an invented send comes before.
fn first_known(
    closure: &Closure<'_>,
    invented: &Table,
    place: usize,
) -> Result<Option<usize>, AllocError>
    requires place { place < length closure.now }
    requires limit { place < MAX_INSTANCES }
    requires whole { length invented.now ≡ length closure.now }
    requires numbered { AreNumbered invented.now }
    ensures { IfOk result (IsKnownFrom (chart_lines closure.now) invented.now (suc place)) }
{
    let mut low = 0;
    let mut high = closure.lines()[place].len();
    if !is_known_by(closure, invented, place, high)? {
        return Ok(None);
    }
    'events: while low + 1 < high {
        let middle = low + (high - low) / 2;
        if is_known_by(closure, invented, place, middle)? {
            high = middle;
        } else {
            low = middle;
        }
    }
    Ok(Some(high))
}

/// Whether a table has an entry for one of the first `count` numbers.
fn has_entry(table: &Table, count: usize) -> bool
    ensures { IsTrue result ↔ HasEntry table.now count }
{
    for number in 0..count {
        if table.at(number).is_some() {
            return true;
        }
    }
    false
}

/// For each line, its first send that is invented or comes after an invented send. If nothing is invented, nothing is
/// searched.
fn known_of(alloc: Global, closure: &Closure<'_>, invented: &Table) -> Result<Table, AllocError>
    requires whole { length invented.now ≡ length closure.now }
    requires numbered { AreNumbered invented.now }
    ensures { IfOk result (AreKnown (chart_lines closure.now) (length closure.now) invented.now) }
{
    let count = closure.len();
    let mut known = Table::none(alloc, count)?;
    if !has_entry(invented, count) {
        return Ok(known);
    }
    for place in 0..count {
        known.set(place, first_known(closure, invented, place)?);
    }
    Ok(known)
}

/// The receives of a chart that come after invented sends. Contracts see the chart's lines and the recording.
#[derive(Drop)]
pub(crate) struct Beginnings<'a> {
    closure: &'a Closure<'a>,
    recording: Recording<'a>,
    /// For each line, its first send that is invented or comes after an invented send.
    known: Table,
}

impl<'a> Model for Beginnings<'a> {
    ghost use Rattle.race_verdicts.specs.Recordings.{recording_view};
    ghost use Rattle.race_verdicts.specs.Luck.Recorded.{JudgeView};
    ghost use Rattle.race_verdicts.specs.Luck.Invention.{AreBeginnings};

    ghost Value = { JudgeView };

    ghost view = { λ b. record { lines = b.closure.now; recording = recording_view b.recording } };

    ghost invariant = { λ b. AreBeginnings b.closure.now (recording_view b.recording) b.known };
}

impl<'a> Beginnings<'a> {
    /// Finds these receives in a recording, with the closure of its chart.
    pub(crate) fn of(
        alloc: Global,
        closure: &'a Closure<'a>,
        recording: Recording<'a>,
    ) -> Result<Beginnings<'a>, AllocError>
        requires { IsRecording closure.now (recording_view recording) }
        ensures { IfOk result (λ beginnings. beginnings
            ≡ record { lines = closure.now; recording = recording_view recording.entry }) }
    {
        let invented = invented_of(alloc, recording.hosts)?;
        let known = known_of(alloc, closure, &invented)?;
        Ok(Beginnings {
            closure,
            recording,
            known,
        })
    }

    /// Whether an invented send comes before a receive.
    pub(crate) fn are_before(&self, receive: &EventNo) -> bool
        requires { (q : ℕ) × IsReceiveFrom (chart_lines self.now.lines) q (place_of receive.now) }
        ensures { IsTrue result ↔ ((e : Place) × IsInvented self.now.recording e
            × Before (chart_lines self.now.lines) e (place_of receive.now)) }
    {
        let Some(send) = self.closure.send_of(receive) else {
            unreachable!()
        };
        is_up_to(self.known.at(send.instance.place()), send.index as usize)
    }
}
