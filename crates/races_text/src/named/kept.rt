//! The earlier events of a receive that are shown, as the fewest ranges.
ghost use Rattle.std.specs.Prelude.{◌≡◌, ◌∷◌, [], length, filter, drop, All, IfSome, MatchOption};
ghost use Rattle.chart.specs.Ranges.{IsRange, events_in, is_followed_by, ranges_of, range_before};
ghost use Rattle.races_text.specs.Named.Kept.{kept_after, kept_ranges};
ghost use Rattle.shown_races.specs.Kept.{is_kept_after, later_than};

use chart::{Event, EventNo, EventRange};
use shown_races::is_kept;
use std::marker::Model;

/// The events of ranges that are still to come. Its model is the list of these events.
#[derive(Drop)]
struct Coming<'a> {
    /// The first of these ranges has the next event.
    ranges: &'a [EventRange],
    /// The number of events of the first range that have come.
    passed: usize,
}

impl<'a> Model for Coming<'a> {
    ghost use Rattle.std.specs.Prelude.{List, All, drop};
    ghost use Rattle.chart.specs.declared.instance.EventNo.{EventNo};
    ghost use Rattle.chart.specs.Ranges.{IsRange, IsWithinFirst, events_in};

    ghost Value = { List EventNo };

    ghost view = { λ c. drop c.passed (events_in c.ranges.now) };

    ghost invariant = { λ c. All IsRange c.ranges.now × IsWithinFirst c.passed c.ranges.now };
}

impl<'a> Coming<'a> {
    fn of(ranges: &'a [EventRange]) -> Coming<'a>
        requires { All IsRange ranges.now }
        ensures { result ≡ events_in ranges.now }
    {
        Coming { ranges, passed: 0 }
    }

    /// The next event.
    fn first(&self) -> Option<EventNo>
        ensures { MatchOption result (self.now ≡ []) (λ event. self.now ≡ event ∷ drop 1 self.now) }
    {
        let (range, _) = self.ranges.split_first()?;
        Some(range.event(self.passed))
    }

    /// Passes over the next event.
    fn pass(&mut self)
        ensures { self.new ≡ drop 1 self.old }
    {
        let Some((range, others)) = self.ranges.split_first() else {
            return;
        };
        if self.passed + 1 < range.count {
            self.passed += 1;
        } else {
            self.ranges = others;
            self.passed = 0;
        }
    }
}

/// Passes over the events up to the first one that is shown, and over this one too.
fn next_kept(events: &[Event], only: bool, passed: u32, coming: &mut Coming<'_>) -> Option<EventNo>
    ensures { MatchOption result (filter (is_kept_after events.now only passed) coming.old ≡ [])
        (λ event. filter (is_kept_after events.now only passed) coming.old
        ≡ event ∷ filter (is_kept_after events.now only passed) coming.new) }
{
    while let Some(event) = coming.first() {
        coming.pass();
        if is_kept(events, only, passed, &event) {
            return Some(event);
        }
    }
    None
}

/// Whether the event comes directly after the range.
pub fn goes_on(range: &EventRange, event: EventNo) -> bool
    requires { IsRange range.now }
    ensures { result ≡ is_followed_by range.now (record { first = event; count = 1 }) }
{
    range.first.instance == event.instance
        && range.first.index as usize + range.count == event.index as usize
}

/// The range that begins with this event, as long as possible. The shown events that continue it are passed over.
fn joined(
    events: &[Event],
    only: bool,
    passed: u32,
    first: EventNo,
    coming: &mut Coming<'_>,
) -> EventRange
    ensures ranges { range_before (record { first = first; count = 1 }) (kept_after events.now only passed coming.old)
        ≡ result ∷ kept_after events.now only passed coming.new }
    ensures is { IsRange result }
{
    let mut range = EventRange::of(first);
    while let Some(event) = coming.first() {
        if is_kept(events, only, passed, &event) {
            if !goes_on(&range, event) {
                break;
            }
            range.count += 1;
        }
        coming.pass();
    }
    range
}

/// The earlier events of a receive that are shown, as the fewest ranges. Its model is the list of the ranges that are
/// still to come.
#[derive(Drop)]
pub(crate) struct KeptRanges<'a> {
    events: &'a [Event],
    only: bool,
    passed: u32,
    coming: Coming<'a>,
}

impl<'a> Model for KeptRanges<'a> {
    ghost use Rattle.std.specs.Prelude.{List};
    ghost use Rattle.chart.specs.declared.ranges.EventRange.{EventRange};
    ghost use Rattle.races_text.specs.Named.Kept.{kept_after};

    ghost Value = { List EventRange };

    ghost view = { λ k. kept_after k.events.now k.only k.passed k.coming };
}

impl<'a> KeptRanges<'a> {
    /// The ranges of the shown events among `earlier`: those with a number above `passed`, and with `only` only
    /// receives. `events` are the events of their line.
    #[tactic(auto, using(crate::proofs::NamedLemmas::LaterRaces::kept_later))]
    pub fn of(
        events: &'a [Event],
        only: bool,
        passed: u32,
        earlier: &'a [EventRange],
    ) -> KeptRanges<'a>
        requires { All IsRange earlier.now }
        ensures { result ≡ kept_ranges events.now only (later_than passed (events_in earlier.now)) }
    {
        KeptRanges {
            events,
            only,
            passed,
            coming: Coming::of(earlier),
        }
    }

    /// The next range.
    pub fn next_range(&mut self) -> Option<EventRange>
        ensures ranges { MatchOption result (self.old ≡ []) (λ range. self.old ≡ range ∷ self.new) }
        ensures is { IfSome result IsRange }
    {
        let first = next_kept(self.events, self.only, self.passed, &mut self.coming)?;
        Some(joined(self.events, self.only, self.passed, first, &mut self.coming))
    }
}
