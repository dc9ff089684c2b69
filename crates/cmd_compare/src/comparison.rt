//! The differences of two recordings, line by line.
ghost use Rattle.std.specs.Prelude.{◌≡◌, ◌≤◌, length, IfOk};
ghost use Rattle.chart.specs.declared.instance.TheConstants.{MAX_INSTANCES};
ghost use Rattle.chart.specs.Charts.{chart_lines};
ghost use Rattle.cmd_compare.specs.Ends.{other_of};
ghost use Rattle.cmd_compare.specs.Matches.{AreMatches};
ghost use Rattle.cmd_compare.specs.Comparing.{AreDifferences, IsCompared, AreCompared};

use crate::fronts::Ordered;
use crate::lane_end::other_of;
use crate::matching::{BothLines, matches_of};
use crate::pairs::{Difference, judge, pairs_of, unmatched};
use crate::verdict::Side;
use chart::InstanceNo;
use chart::line_events::events_of;
use std::alloc::{AllocError, Global};

/// Two recordings of one system. The lines of the first are compared with those of the second.
#[derive(Clone, Copy)]
pub struct Recordings<'a> {
    pub here: &'a Ordered<'a>,
    pub there: &'a Ordered<'a>,
    /// For each instance of the first, its number in the second.
    pub others: &'a [InstanceNo],
    /// For each instance of the second, its number in the first.
    pub back: &'a [InstanceNo],
}

/// The differences on an instance's line.
#[derive(Debug, Drop)]
pub struct LineComparison {
    pub instance: InstanceNo,
    /// The instance's number in the second recording.
    pub other: InstanceNo,
    /// The pairs of events that both have in opposite orders, by the later event and then by the earlier one.
    pub differences: Vec<Difference>,
    /// The numbers of the events that only the first recording has.
    pub only_here: Vec<usize>,
    /// The numbers, in the second recording, of the events that only it has.
    pub only_there: Vec<usize>,
}

/// The pairs of an instance's events that are in the opposite order in the other recording.
fn differences_of(
    alloc: Global,
    recordings: &Recordings<'_>,
    instance: InstanceNo,
    found: &[Option<usize>],
) -> Result<Vec<Difference>, AllocError>
    requires whole { length found.now ≡ length (chart_lines recordings.now.here.now instance) }
    requires matches { AreMatches recordings.now.others.now (chart_lines recordings.now.here.now instance)
        (chart_lines recordings.now.there.now (other_of recordings.now.others.now instance)) found.now }
    ensures { IfOk result (λ differences. AreDifferences recordings.now.others.now
        (chart_lines recordings.now.here.now) (chart_lines recordings.now.there.now) instance differences.items) }
{
    let pairs = pairs_of(alloc, found)?;
    if pairs.is_empty() {
        return Ok(Vec::new(alloc));
    }
    let other = other_of(recordings.others, instance);
    let here = Side {
        events: events_of(recordings.here.lines(), instance),
        fronts: recordings.here.fronts_on(instance),
    };
    let there = Side {
        events: events_of(recordings.there.lines(), other),
        fronts: recordings.there.fronts_on(other),
    };
    judge(alloc, instance, &here, &there, pairs.as_slice())
}

/// The differences on an instance's line.
fn compare_line(
    alloc: Global,
    recordings: &Recordings<'_>,
    instance: InstanceNo,
) -> Result<LineComparison, AllocError>
    ensures { IfOk result (IsCompared recordings.now.others.now recordings.now.back.now
        (chart_lines recordings.now.here.now) (chart_lines recordings.now.there.now) instance) }
{
    let here = events_of(recordings.here.lines(), instance);
    let other = other_of(recordings.others, instance);
    let there = events_of(recordings.there.lines(), other);
    let forth = BothLines {
        others: recordings.others,
        here,
        there,
    };
    let back = BothLines {
        others: recordings.back,
        here: there,
        there: here,
    };
    let found = matches_of(alloc, &forth)?;
    let found_there = matches_of(alloc, &back)?;
    let differences = differences_of(alloc, recordings, instance, found.as_slice())?;
    let only_here = unmatched(alloc, found.as_slice())?;
    let only_there = unmatched(alloc, found_there.as_slice())?;
    Ok(LineComparison {
        instance,
        other,
        differences,
        only_here,
        only_there,
    })
}

/// The differences on each line of the first recording.
///
/// F6: it fails only if there is no memory.
pub fn compared(
    alloc: Global,
    recordings: &Recordings<'_>,
) -> Result<Vec<LineComparison>, AllocError>
    requires { length recordings.now.here.now ≤ MAX_INSTANCES }
    ensures { IfOk result (λ lines. AreCompared recordings.now.others.now recordings.now.back.now
        (chart_lines recordings.now.here.now) (chart_lines recordings.now.there.now)
        (length recordings.now.here.now) lines.items) }
{
    let mut lines = Vec::new(alloc);
    for place in 0..recordings.here.len() {
        lines.push(compare_line(alloc, recordings, InstanceNo::at_place(place))?)?;
    }
    Ok(lines)
}
