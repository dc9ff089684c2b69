//! The earlier events of a receive that are shown, several neighbours at a time.
ghost use Rattle.std.specs.Prelude.{ℕ, ◌≡◌, ◌++◌, ◌+◌, ◌-◌, ◌<◌, ◌≤◌, true, false, [], min, filter, All, IfSome, MatchOption};
ghost use Rattle.chart.specs.Ranges.{IsRange, events_of, events_in};
ghost use Rattle.shown_races.specs.Kept.{is_kept_after, kept_events, later_than};
ghost use Rattle.races_text.specs.Named.Stretches.{IsShort, event_in, IsBehind, events_left, AreShort};

use chart::{Event, EventNo, EventRange, InstanceNo};
use shown_races::is_kept;
use std::marker::Model;

/// The rest of a range after its first events. It may have no events.
pub(crate) fn behind(range: &EventRange, count: usize) -> EventRange
    requires short { IsShort range.now }
    requires count { count ≤ range.now.count }
    ensures { IsBehind range.now count result }
{
    if count < range.count {
        EventRange {
            first: range.event(count),
            count: range.count - count,
        }
    } else {
        EventRange {
            first: range.first,
            count: 0,
        }
    }
}

/// A range without events.
pub(crate) fn no_events() -> EventRange
    ensures { result ≡ record { first = record { instance = 1; index = 0 }; count = 0 } }
{
    EventRange {
        first: EventNo {
            instance: InstanceNo::at_place(0),
            index: 0,
        },
        count: 0,
    }
}

/// How many events of a range, from the first on, have a number of at most `passed`.
fn early(range: &EventRange, passed: u32) -> usize
    ensures { result ≡ min (passed + 1 - range.now.first.index) range.now.count }
{
    (passed as usize + 1)
        .saturating_sub(range.first.index as usize)
        .min(range.count)
}

/// How many events of a range, from the first on, aren't shown.
fn hidden_first(events: &[Event], only: bool, passed: u32, range: &EventRange) -> usize
    requires { IsShort range.now }
    ensures within { result ≤ range.now.count }
    ensures hidden { (k : ℕ) → k < result → is_kept_after events.now only passed (event_in range.now k) ≡ false }
    ensures shown { result < range.now.count → is_kept_after events.now only passed (event_in range.now result) ≡ true }
{
    if !only {
        return early(range, passed);
    }
    for number in 0..range.count {
        if is_kept(events, only, passed, &range.event(number)) {
            return number;
        }
    }
    range.count
}

/// How many events of a range, from the first on, are shown, if the first one is.
fn shown_first(events: &[Event], only: bool, passed: u32, range: &EventRange) -> usize
    requires range { IsRange range.now }
    requires first { is_kept_after events.now only passed range.now.first ≡ true }
    ensures some { 0 < result }
    ensures within { result ≤ range.now.count }
    ensures shown { (k : ℕ) → k < result → is_kept_after events.now only passed (event_in range.now k) ≡ true }
{
    if !only {
        return range.count;
    }
    for number in 0..range.count {
        if !is_kept(events, only, passed, &range.event(number)) {
            return number;
        }
    }
    range.count
}

/// The rest of a range from its first shown event on. It may have no events.
fn from_shown(events: &[Event], only: bool, passed: u32, range: &EventRange) -> EventRange
    requires { IsShort range.now }
    ensures short { IsShort result }
    ensures same { filter (is_kept_after events.now only passed) (events_of result)
        ≡ filter (is_kept_after events.now only passed) (events_of range.now) }
    ensures first { 0 < result.count → is_kept_after events.now only passed result.first ≡ true }
{
    let count = hidden_first(events, only, passed, range);
    behind(range, count)
}

/// The events of ranges that are still to come.
#[derive(Clone, Copy)]
struct Left<'a> {
    /// The rest of the range that has begun.
    rest: EventRange,
    ranges: &'a [EventRange],
}

/// Passes over the events up to the first one that is shown, if there is one, and begins its range.
fn begin_shown(events: &[Event], only: bool, passed: u32, left: &mut Left<'_>)
    requires { AreShort left.old }
    ensures short { AreShort left.new }
    ensures same { filter (is_kept_after events.now only passed) (events_left left.new)
        ≡ filter (is_kept_after events.now only passed) (events_left left.old) }
    ensures first { 0 < left.new.rest.count → is_kept_after events.now only passed left.new.rest.first ≡ true }
    ensures none { left.new.rest.count ≡ 0 → events_left left.new ≡ [] }
{
    left.rest = from_shown(events, only, passed, &left.rest);
    'begin: while left.rest.count == 0 {
        let Some((range, others)) = left.ranges.split_first() else {
            return;
        };
        left.rest = from_shown(events, only, passed, range);
        left.ranges = others;
    }
}

/// Passes over the first event, which is shown, and over its neighbours in its range that are shown too.
fn take_shown(events: &[Event], only: bool, passed: u32, left: &mut Left<'_>) -> EventRange
    requires short { AreShort left.old }
    requires some { 0 < left.old.rest.count }
    requires first { is_kept_after events.now only passed left.old.rest.first ≡ true }
    ensures short { AreShort left.new }
    ensures is { IsRange result }
    ensures events { filter (is_kept_after events.now only passed) (events_left left.old)
        ≡ events_of result ++ filter (is_kept_after events.now only passed) (events_left left.new) }
{
    let rest = left.rest;
    let count = shown_first(events, only, passed, &rest);
    left.rest = behind(&rest, count);
    EventRange {
        first: rest.first,
        count,
    }
}

/// Passes over the events up to the first one that is shown, and over this one with its neighbours that are shown.
fn next_shown(events: &[Event], only: bool, passed: u32, left: &mut Left<'_>) -> Option<EventRange>
    requires { AreShort left.old }
    ensures short { AreShort left.new }
    ensures events { MatchOption result ((filter (is_kept_after events.now only passed) (events_left left.old) ≡ [])
        × (filter (is_kept_after events.now only passed) (events_left left.new) ≡ []))
        (λ range. filter (is_kept_after events.now only passed) (events_left left.old)
        ≡ events_of range ++ filter (is_kept_after events.now only passed) (events_left left.new)) }
    ensures is { IfSome result IsRange }
{
    begin_shown(events, only, passed, left);
    if left.rest.count == 0 {
        return None;
    }
    Some(take_shown(events, only, passed, left))
}

/// The earlier events of a receive that are shown. Its model is the list of those that are still to come.
#[derive(Drop)]
pub struct KeptEvents<'a> {
    events: &'a [Event],
    only: bool,
    passed: u32,
    left: Left<'a>,
}

impl<'a> Model for KeptEvents<'a> {
    ghost use Rattle.std.specs.Prelude.{List, filter};
    ghost use Rattle.chart.specs.declared.instance.EventNo.{EventNo};
    ghost use Rattle.shown_races.specs.Kept.{is_kept_after};
    ghost use Rattle.races_text.specs.Named.Stretches.{events_left, AreShort};

    ghost Value = { List EventNo };

    ghost view = { λ k. filter (is_kept_after k.events.now k.only k.passed) (events_left k.left) };

    ghost invariant = { λ k. AreShort k.left };
}

impl<'a> KeptEvents<'a> {
    /// The shown events among `earlier`: those with a number above `passed`, and with `only` only receives. `events`
    /// are the events of their line.
    #[tactic(auto, using(shown_races::proofs::SelectedLemmas::kept_events_later))]
    pub fn of(
        events: &'a [Event],
        only: bool,
        passed: u32,
        earlier: &'a [EventRange],
    ) -> KeptEvents<'a>
        requires { All IsRange earlier.now }
        ensures { result ≡ kept_events events.now only (later_than passed (events_in earlier.now)) }
    {
        KeptEvents {
            events,
            only,
            passed,
            left: Left {
                rest: no_events(),
                ranges: earlier,
            },
        }
    }

    /// The next events that are neighbours. Its time grows with the ranges that it passes over, or, if only receives
    /// are shown, with their events.
    pub fn next_stretch(&mut self) -> Option<EventRange>
        ensures events { MatchOption result ((self.old ≡ []) × (self.new ≡ [])) (λ range. self.old ≡ events_of range ++ self.new) }
        ensures is { IfSome result IsRange }
    {
        next_shown(self.events, self.only, self.passed, &mut self.left)
    }
}
