//! Lists of events, kept as ranges of neighbours.
ghost use Rattle.std.specs.Prelude.{◌≡◌, ◌++◌, ◌+◌, ◌==◌, [], length, min, ◌^◌, ◌-◌, ◌<◌, All, IfOk, IsOk, OnErr, OnOk};
ghost use Rattle.std.specs.Prelude.{IsTrue, ◌↔◌};
ghost use Rattle.std.specs.Iterator.{YieldsFirst, item_count};
ghost use Rattle.chart.specs.Ranges.{IsRange, events_of, events_in, is_followed_by, ranges_of};

use crate::instance::EventNo;
use std::alloc::{AllocError, Global};
use std::marker::Model;

/// Neighbouring events of a line: the first of them, and their number.
#[derive(Clone, Copy, Debug, PartialEq, Eq)]
pub struct EventRange {
    pub first: EventNo,
    pub count: usize,
}

impl EventRange {
    /// The range of one event.
    #[inline(always)]
    pub fn of(event: EventNo) -> EventRange
        ensures value { result ≡ record { first = event; count = 1 } }
        ensures is { IsRange result }
    {
        EventRange {
            first: event,
            count: 1,
        }
    }

    /// The range's event of this number, from 0.
    pub fn event(&self, number: usize) -> EventNo
        requires range { IsRange self.now }
        requires within { number < self.now.count }
        ensures { result ≡ record { instance = self.now.first.instance; index = self.now.first.index + number } }
    {
        EventNo {
            instance: self.first.instance,
            index: self.first.index + number as u32,
        }
    }

    /// Whether the other range begins where this one ends.
    fn is_followed_by(&self, other: &EventRange) -> bool
        requires { IsRange self.now }
        ensures { result ≡ is_followed_by self.now other.now }
    {
        self.first.instance == other.first.instance
            && self.first.index as usize + self.count == other.first.index as usize
    }
}

/// A list of events, in the fewest ranges of neighbours. A contract sees the list of events.
#[derive(Debug, Drop)]
pub struct EventRanges {
    ranges: Vec<EventRange>,
}

impl Model for EventRanges {
    ghost use Rattle.std.specs.Prelude.{List};
    ghost use Rattle.chart.specs.declared.instance.EventNo.{EventNo};
    ghost use Rattle.chart.specs.Ranges.{AreRanges, events_in};

    ghost Value = { List EventNo };

    ghost view = { λ r. events_in r.ranges.items };

    ghost invariant = { λ r. AreRanges r.ranges.items };
}

impl EventRanges {
    /// These events.
    ///
    /// F6: it fails only if there is no memory. For no events it takes none.
    pub fn of(alloc: Global, events: &[EventNo]) -> Result<EventRanges, AllocError>
        ensures events { IfOk result (λ ranges. ranges ≡ events.now) }
        ensures none { events.now ≡ [] → IsOk result }
    {
        let mut builder = RangesBuilder::new(alloc);
        for passed in 0..events.len() {
            let event = events[events.len() - 1 - passed];
            builder.put_before(EventRange::of(event))?;
        }
        Ok(builder.finish())
    }

    /// The ranges, in the order of their events. Each has an event, and their numbers are within 32 bits.
    #[inline(always)]
    pub fn as_slice(&self) -> &[EventRange]
        ensures events { events_in result.now ≡ self.now }
        ensures fewest { result.now ≡ ranges_of self.now }
        ensures each { All IsRange result.now }
    {
        self.ranges.as_slice()
    }

    #[inline(always)]
    pub fn is_empty(&self) -> bool
        ensures { result ≡ (length self.now == 0) }
    {
        self.ranges.is_empty()
    }

    /// The number of events, or [`usize::MAX`] if there are more.
    pub fn len(&self) -> usize
        ensures { result ≡ min (length self.now) (2 ^ 64 - 1) }
    {
        let mut events = 0usize;
        let ranges = self.as_slice();
        for range in ranges {
            events = events.saturating_add(range.count);
        }
        events
    }

    /// The events one by one, in order. It takes no memory.
    pub fn iter(&self) -> Events<'_>
        ensures { result ≡ self.now }
    {
        Events {
            ranges: self.as_slice(),
            passed: 0,
        }
    }

    /// Whether both have the same events.
    pub fn is(&self, other: &EventRanges) -> bool
        ensures { IsTrue result ↔ (self.now ≡ other.now) }
    {
        are_same(self.ranges.as_slice(), other.ranges.as_slice())
    }

    /// The events one by one.
    ///
    /// F6: it fails only if there is no memory. For no events it takes none.
    pub fn listed(&self, alloc: Global) -> Result<Vec<EventNo>, AllocError>
        ensures events { IfOk result (λ events. events.items ≡ self.now) }
        ensures none { self.now ≡ [] → IsOk result }
    {
        let mut events = Vec::new(alloc);
        let ranges = self.as_slice();
        for range in ranges {
            add_events(range, &mut events)?;
        }
        Ok(events)
    }

    /// A copy.
    ///
    /// F6: it fails only if there is no memory. For no events it takes none.
    #[inline(always)]
    pub fn copied(&self, alloc: Global) -> Result<EventRanges, AllocError>
        ensures events { IfOk result (λ copy. copy ≡ self.now) }
        ensures none { self.now ≡ [] → IsOk result }
    {
        if self.ranges.is_empty() {
            return Ok(RangesBuilder::new(alloc).finish());
        }
        Ok(EventRanges {
            ranges: Vec::from_slice(alloc, self.ranges.as_slice())?,
        })
    }
}

/// The events of ranges, one by one. A contract sees the events that are still to come.
#[derive(Drop)]
pub struct Events<'a> {
    /// The remaining ranges. The first of them has the next event.
    ranges: &'a [EventRange],
    /// The number of events of the first range that have come already.
    passed: usize,
}

impl<'a> Model for Events<'a> {
    ghost use Rattle.std.specs.Prelude.{List, All, drop};
    ghost use Rattle.chart.specs.declared.instance.EventNo.{EventNo};
    ghost use Rattle.chart.specs.Ranges.{IsRange, IsWithinFirst, events_in};

    ghost Value = { List EventNo };

    ghost view = { λ e. drop e.passed (events_in e.ranges.now) };

    ghost invariant = { λ e. All IsRange e.ranges.now × IsWithinFirst e.passed e.ranges.now };
}

impl<'a> Iterator for Events<'a> {
    type Item = EventNo;

    ghost next_gives = { YieldsFirst (λ events. events) };

    ghost remaining = { item_count (λ events. events) };

    fn next(&mut self) -> Option<EventNo> {
        let (range, others) = self.ranges.split_first()?;
        let event = range.event(self.passed);
        if self.passed + 1 < range.count {
            self.passed += 1;
        } else {
            self.ranges = others;
            self.passed = 0;
        }
        Some(event)
    }
}

/// Adds the events of a range.
fn add_events(range: &EventRange, events: &mut Vec<EventNo>) -> Result<(), AllocError>
    requires { IsRange range.now }
    ensures { OnOk result (events.new.items ≡ events.old.items ++ events_of range.now) }
{
    for number in 0..range.count {
        events.push(range.event(number))?;
    }
    Ok(())
}

fn are_same(ranges: &[EventRange], others: &[EventRange]) -> bool
    ensures { IsTrue result ↔ (ranges.now ≡ others.now) }
{
    ranges == others
}

/// A list of events that is built from its last event backwards. A contract sees the list of events.
#[derive(Drop)]
pub struct RangesBuilder {
    /// The ranges so far, the last one of the list first.
    backwards: Vec<EventRange>,
}

impl Model for RangesBuilder {
    ghost use Rattle.std.specs.Prelude.{List, reverse};
    ghost use Rattle.chart.specs.declared.instance.EventNo.{EventNo};
    ghost use Rattle.chart.specs.Ranges.{AreRanges, events_in};

    ghost Value = { List EventNo };

    ghost view = { λ b. events_in (reverse b.backwards.items) };

    ghost invariant = { λ b. AreRanges (reverse b.backwards.items) };
}

impl RangesBuilder {
    /// No events. It takes no memory.
    #[inline(always)]
    pub fn new(alloc: Global) -> RangesBuilder
        ensures { result ≡ [] }
    {
        RangesBuilder {
            backwards: Vec::new(alloc),
        }
    }

    /// Puts the events of a range before all others.
    ///
    /// F6: it fails only if there is no memory, and then nothing has changed.
    pub fn put_before(&mut self, range: EventRange) -> Result<(), AllocError>
        requires { IsRange range }
        ensures ok { OnOk result (self.new ≡ events_of range ++ self.old) }
        ensures refused { OnErr result (self.new ≡ self.old) }
    {
        match self.backwards.pop() {
            Some(next) if range.is_followed_by(&next) => {
                self.backwards.push_reserved(EventRange {
                    first: range.first,
                    count: range.count + next.count,
                });
            }
            Some(next) => {
                self.backwards.push_reserved(next);
                self.backwards.push(range)?;
            }
            None => self.backwards.push(range)?,
        }
        Ok(())
    }

    /// The list that was made.
    #[inline(always)]
    pub fn finish(self) -> EventRanges
        ensures { result ≡ self }
    {
        let RangesBuilder { backwards } = self;
        let mut ranges = backwards;
        ranges.as_mut_slice().reverse();
        EventRanges { ranges }
    }
}
