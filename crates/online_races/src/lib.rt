//! The races of a receive, found as it comes (the races of Alur, Holzmann, Peled 1996, in this project's profile).
//!
//! The answer has exactly those events of the line that the receive's send doesn't know, in increasing order. Receives
//! from the same sender, and receives of the receive's own coregion, are no races. If there are no races, the call
//! isn't refused.
#![tactic(auto)]

ghost use Rattle.std.specs.Prelude.{◌≡◌, ℕ, ◌-◌, ◌<◌, ◌≤◌, List, [], ◌++◌, length, map, take, vec_capacity, All};
ghost use Rattle.std.specs.Prelude.{IfSome, MatchOption, IsOk, IfOk};
ghost use Rattle.chart.specs.Order.{AreLineRaces};
ghost use Rattle.chart.specs.Ranges.{IsRange, events_of, events_in};
ghost use Rattle.chart.specs.declared.line.TheConstants.{MAX_EVENTS};
ghost use Rattle.online_races.specs.Passing.{IsCandidate, AreRaces, IsStretch, HasFound};

use chart::{EventNo, EventRange, EventRanges, GrowingLine, InstanceNo, Line, RangesBuilder};
use std::alloc::{AllocError, Global};

/// Neighbouring events of a line up to some event: those after the first `start` ones.
enum Stretch {
    /// Receives of the coregion, or receives from the sender.
    Passed { start: usize },
    /// Races.
    Races { start: usize },
}

/// How many events the line has before a run of races that ends with this event. If the new receive is in no coregion,
/// the run has the neighbouring receives from the same sender.
#[inline(always)]
fn races_start(line: &GrowingLine, index: usize, region: u32) -> usize
    requires begun { 1 ≤ index }
    requires within { index ≤ length line.now.line.events }
    ensures { (sender : ℕ) → IsCandidate line.now.line.events sender region index
        → AreRaces line.now.line.events result index sender region }
{
    if region == 0 {
        if line.is_receive(index - 1) {
            return line.run_start(index);
        }
    }
    index - 1
}

/// The kind of the neighbouring events that end with the one at this index.
#[inline(always)]
fn stretch_to(line: &GrowingLine, index: usize, sender: InstanceNo, region: u32) -> Stretch
    requires begun { 1 ≤ index }
    requires within { index ≤ length line.now.line.events }
    ensures { IsStretch line.now.line.events sender region index result }
{
    if line.is_in(index - 1, region) {
        Stretch::Passed {
            start: line.region_start(index),
        }
    } else if line.is_receive_from(index - 1, sender) {
        Stretch::Passed {
            start: line.run_start(index),
        }
    } else {
        Stretch::Races {
            start: races_start(line, index, region),
        }
    }
}

/// The last neighbouring races among the first `index` events of the line, as far as they are later than the entry.
///
/// A run of receives from the sender is passed in one step, and so is the coregion. A run of receives from another
/// sender is found in one step too, unless the new receive is in a coregion.
#[inline(always)]
fn last_races(
    line: &GrowingLine,
    index: usize,
    entry: u32,
    sender: InstanceNo,
    region: u32,
) -> Option<EventRange>
    requires { index ≤ length line.now.line.events }
    ensures range { IfSome result IsRange }
    ensures later { IfSome result (λ races. entry < races.first.index) }
    ensures within { IfSome result (λ races. races.first.index ≤ index) }
    ensures found { (end : ℕ) (found : List EventNo) → HasFound line.now.line end index entry sender region found
        → MatchOption result
        (AreLineRaces (take end line.now.line.events) entry sender region (map (λ race. race.index) found))
        (λ races. HasFound line.now.line end (races.first.index - 1) entry sender region (events_of races ++ found)) }
{
    prove!(index <= line.len());
    let mut last = index;
    while last > entry as usize {
        match stretch_to(line, last, sender, region) {
            Stretch::Passed { start } => last = start,
            Stretch::Races { start } => {
                let earlier = start.max(entry as usize);
                let first = EventNo {
                    instance: line.instance(),
                    index: earlier as u32 + 1,
                };
                return Some(EventRange {
                    first,
                    count: last - earlier,
                });
            }
        }
    }
    None
}

/// The races of a new receive from this sender and in this region, if the entry is what its send knows of the line.
/// They are those of the first `end` events of the line that are later than the entry and aren't receives from the
/// sender. If the region isn't 0, receives in it are no races either. Later events of the line don't matter.
///
/// F6: it fails only if there is no memory, and it needs none if there are no races.
#[inline(always)]
pub fn race_ranges(
    alloc: Global,
    line: &GrowingLine,
    end: usize,
    entry: u32,
    sender: InstanceNo,
    region: u32,
) -> Result<EventRanges, AllocError>
    requires { end ≤ length line.now.line.events }
    ensures races { IfOk result (λ found.
        AreLineRaces (take end line.now.line.events) entry sender region (map (λ race. race.index) found)) }
    ensures own { IfOk result (λ found. All (λ race. race.instance ≡ line.now.line.instance) found) }
    ensures none { AreLineRaces (take end line.now.line.events) entry sender region [] → IsOk result }
{
    prove!(end <= line.len());
    match last_races(line, end, entry, sender, region) {
        Some(last) => races_up_to(alloc, line, last, entry, sender, region),
        None => Ok(RangesBuilder::new(alloc).finish()),
    }
}

/// All races, from their last neighbours.
///
/// F6: it fails only if there is no memory.
#[inline(always)]
fn races_up_to(
    alloc: Global,
    line: &GrowingLine,
    last: EventRange,
    entry: u32,
    sender: InstanceNo,
    region: u32,
) -> Result<EventRanges, AllocError>
    requires range { IsRange last }
    requires begun { 1 ≤ last.first.index }
    requires within { last.first.index ≤ length line.now.line.events }
    ensures races { (end : ℕ) → HasFound line.now.line end (last.first.index - 1) entry sender region (events_of last)
        → IfOk result (λ found.
        AreLineRaces (take end line.now.line.events) entry sender region (map (λ race. race.index) found)) }
    ensures own { (end : ℕ) → HasFound line.now.line end (last.first.index - 1) entry sender region (events_of last)
        → IfOk result (λ found. All (λ race. race.instance ≡ line.now.line.instance) found) }
{
    prove!(last.first.index as usize <= line.len());
    let mut found = RangesBuilder::new(alloc);
    let mut index = last.first.index as usize - 1;
    found.put_before(last)?;
    while let Some(races) = last_races(line, index, entry, sender, region) {
        index = races.first.index as usize - 1;
        found.put_before(races)?;
    }
    Ok(found.finish())
}

/// Replaces the ranges in the list by those of the same races, in the order of the line. Neighbouring races may be in
/// several ranges.
///
/// The list has places for as many ranges as a line has events, so no memory is needed.
pub fn find_races(
    found: &mut Vec<EventRange>,
    line: &GrowingLine,
    end: usize,
    entry: u32,
    sender: InstanceNo,
    region: u32,
)
    requires end { end ≤ length line.now.line.events }
    requires places { MAX_EVENTS ≤ vec_capacity found.old }
    ensures races { AreLineRaces (take end line.now.line.events) entry sender region
        (map (λ race. race.index) (events_in found.new.items)) }
    ensures own { All (λ race. race.instance ≡ line.now.line.instance) (events_in found.new.items) }
    ensures ranges { All IsRange found.new.items }
    ensures places { vec_capacity found.new ≡ vec_capacity found.old }
{
    prove!(end <= line.len());
    found.clear();
    let mut index = end;
    while let Some(races) = last_races(line, index, entry, sender, region) {
        index = races.first.index as usize - 1;
        found.push_reserved(races);
    }
    found.as_mut_slice().reverse();
}

/// The events of the line that are later than the entry and aren't receives from the sender. If the region isn't 0,
/// they aren't receives in it either. This is what [`race_ranges`] returns for the whole line, as it grows. The events
/// rise by their index.
///
/// F6: it fails only if there is no memory, and it needs none if there are no races.
#[inline(always)]
pub fn next_races(
    alloc: Global,
    line: &GrowingLine,
    entry: u32,
    sender: InstanceNo,
    region: u32,
) -> Result<EventRanges, AllocError>
    ensures races { IfOk result (λ found.
        AreLineRaces line.now.line.events entry sender region (map (λ race. race.index) found)) }
    ensures own { IfOk result (λ found. All (λ race. race.instance ≡ line.now.line.instance) found) }
    ensures none { AreLineRaces line.now.line.events entry sender region [] → IsOk result }
{
    race_ranges(alloc, line, line.len(), entry, sender, region)
}

/// The same events of a line, one by one.
///
/// F6: it fails only if there is no memory, and it needs none if there are no races.
pub fn races(
    alloc: Global,
    line: &Line,
    entry: u32,
    sender: InstanceNo,
    region: u32,
) -> Result<Vec<EventNo>, AllocError>
    ensures races { IfOk result (λ found.
        AreLineRaces line.now.events entry sender region (map (λ race. race.index) found.items)) }
    ensures own { IfOk result (λ found. All (λ race. race.instance ≡ line.now.instance) found.items) }
    ensures none { AreLineRaces line.now.events entry sender region [] → IsOk result }
{
    let found = next_races(alloc, line.as_growing(), entry, sender, region)?;
    found.listed(alloc)
}
