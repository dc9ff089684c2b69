//! The reports of a line's receives, as a recorder keeps them.
ghost use Rattle.std.specs.Prelude.{◌≡◌, ◌≤◌, ◌+◌, ◌++◌, ◌∷◌, [], List, ℕ, length, map, All, vec_len, vec_capacity};
ghost use Rattle.std.specs.Prelude.{take, IfOk, IsOk, OnOk, OnErr};
ghost use Rattle.chart.specs.declared.line.TheConstants.{MAX_EVENTS};
ghost use Rattle.chart.specs.Ranges.{IsRange, events_in};
ghost use Rattle.line_recorder.specs.Kept.{range_of, IsOnLine, IsOfLine, HasRoomFor};

use chart::{EventNo, EventRange, EventRanges, InstanceNo, RangesBuilder, Report};
use std::alloc::{AllocError, Global};
use std::marker::Model;

/// Neighbouring events of the line, in four bytes.
#[derive(Clone, Copy, Debug)]
struct KeptRange {
    /// The index of the first one.
    first: u16,
    count: u16,
}

/// A receive of the line, in four bytes.
#[derive(Clone, Copy, Debug)]
struct KeptReceive {
    index: u16,
    /// How many ranges its report has.
    ranges: u16,
}

/// The reports of a line's receives, in their order. A contract sees the line's instance, the reports, and the room for
/// more.
///
/// A report takes four bytes, and four for each of its ranges. So there is no report to lend: [`KeptReports::add_to`]
/// makes it again.
#[derive(Drop)]
pub(crate) struct KeptReports {
    instance: InstanceNo,
    receives: Vec<KeptReceive>,
    /// The ranges of all reports, in the order of the reports.
    ranges: Vec<KeptRange>,
}

impl Model for KeptReports {
    ghost use Rattle.std.specs.Prelude.{◌-◌, map};
    ghost use Rattle.std.specs.Vec.{vec_len, vec_capacity};
    ghost use Rattle.line_recorder.specs.Kept.{KeptView, range_of, reports_of, AreKept};

    ghost Value = { KeptView };

    ghost view = { λ k. record {
      instance = k.instance;
      reports = reports_of k.instance k.receives.items (map (range_of k.instance) k.ranges.items);
      receives_room = vec_capacity k.receives - vec_len k.receives;
      ranges_room = vec_capacity k.ranges - vec_len k.ranges;
    } };

    ghost invariant = { λ k. AreKept k.instance k.receives.items k.ranges.items };
}

impl KeptReports {
    /// No reports yet. It takes no memory.
    pub fn new(alloc: Global, instance: InstanceNo) -> KeptReports
        ensures { result ≡ record { instance = instance; reports = []; receives_room = 0; ranges_room = 0 } }
    {
        KeptReports {
            instance,
            receives: Vec::new(alloc),
            ranges: Vec::new(alloc),
        }
    }

    /// Makes room for this report. A report without races needs none for ranges.
    ///
    /// F6: it fails only if there is no memory.
    #[inline(always)]
    pub fn make_room(&mut self, report: &Report) -> Result<(), AllocError>
        ensures ok { OnOk result (HasRoomFor self.new report.now) }
        ensures instance { self.new.instance ≡ self.old.instance }
        ensures reports { self.new.reports ≡ self.old.reports }
    {
        self.receives.reserve(1)?;
        self.ranges.reserve(report.earlier().as_slice().len())
    }

    /// Keeps this report, for which there is room.
    #[inline(always)]
    pub fn keep(&mut self, report: &Report)
        requires line { IsOfLine self.old.instance report.now }
        requires room { HasRoomFor self.old report.now }
        ensures instance { self.new.instance ≡ self.old.instance }
        ensures reports { self.new.reports ≡ self.old.reports ++ report.now ∷ [] }
    {
        let ranges = report.earlier().as_slice();
        add_ranges(&mut self.ranges, ranges);
        self.receives.push_reserved(KeptReceive {
            index: report.receive().index as u16,
            ranges: ranges.len() as u16,
        });
    }

    /// Adds the reports to a list.
    ///
    /// F6: it fails only if there is no memory, and never if there is no report. After a failure the list has the first
    /// reports after its old elements.
    pub fn add_to(&self, alloc: Global, reports: &mut Vec<Report>) -> Result<(), AllocError>
        ensures ok { OnOk result (reports.new.items ≡ reports.old.items ++ self.now.reports) }
        ensures err { OnErr result ((n : ℕ) × (reports.new.items ≡ reports.old.items ++ take n self.now.reports)) }
        ensures none { self.now.reports ≡ [] → IsOk result }
    {
        reports.reserve(self.receives.len())?;
        let receives = self.receives.as_slice();
        let mut left = self.ranges.as_slice();
        for receive in receives {
            let (own, others) = left.split_at(receive.ranges as usize);
            let number = EventNo {
                instance: self.instance,
                index: receive.index as u32,
            };
            reports.push_reserved(Report::new(number, ranges_of(alloc, self.instance, own)?));
            left = others;
        }
        Ok(())
    }
}

/// Adds these ranges of a line. There is room for them.
#[inline(always)]
fn add_ranges(kept: &mut Vec<KeptRange>, ranges: &[EventRange])
    requires on_line { (p : ℕ) × All (IsOnLine p) ranges.now }
    requires room { vec_len kept.old + length ranges.now ≤ vec_capacity kept.old }
    ensures { (p : ℕ) → All (IsOnLine p) ranges.now
        → map (range_of p) kept.new.items ≡ map (range_of p) kept.old.items ++ ranges.now }
{
    for range in ranges {
        kept.push_reserved(KeptRange {
            first: range.first.index as u16,
            count: range.count as u16,
        });
    }
}

/// The events of these ranges of an instance's line.
///
/// F6: it fails only if there is no memory.
fn ranges_of(
    alloc: Global,
    instance: InstanceNo,
    kept: &[KeptRange],
) -> Result<EventRanges, AllocError>
    requires { All IsRange (map (range_of instance) kept.now) }
    ensures { IfOk result (λ ranges. ranges ≡ events_in (map (range_of instance) kept.now)) }
{
    let mut builder = RangesBuilder::new(alloc);
    for passed in 0..kept.len() {
        let range = kept[kept.len() - 1 - passed];
        builder.put_before(range.of_line(instance))?;
    }
    Ok(builder.finish())
}

impl KeptRange {
    /// The range on this instance's line.
    fn of_line(self, instance: InstanceNo) -> EventRange
        ensures { result ≡ range_of instance self }
    {
        EventRange {
            first: EventNo {
                instance,
                index: self.first as u32,
            },
            count: self.count as usize,
        }
    }
}
