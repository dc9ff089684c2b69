//! Messages that are added to a chart one after another.
ghost use Rattle.std.specs.Prelude.{◌≡◌, length, IfOk};
ghost use Rattle.chart.specs.Charts.{chart_lines, IsPossible};
ghost use Rattle.repair.specs.Best.{HasPairs, IsFound, IsMendedChart};
ghost use Rattle.repair.specs.Counted.{ArePlaced};

use crate::best::{Addition, Tried, best_among};
use crate::counted::{Counted, count_counted, counted_reports};
use crate::error::MendError;
use crate::growing::copied;
use crate::naming::free_name;
use crate::pairs::race_pairs;
use chart::Chart;
use closure::Closure;
use std::alloc::{AllocError, Global};

/// The messages that were added to a chart, in their order; the chart that they made; which of its race pairs count,
/// and how many these are; how many pairs were tried; and whether more of them are left than might still be tried.
#[derive(Debug, Drop)]
pub struct MendedChart {
    pub additions: Vec<Addition>,
    pub chart: Chart,
    pub counted: Counted,
    pub left: usize,
    pub tried: usize,
    pub is_stopped: bool,
}

/// A copy of the chart.
fn copy_of(alloc: Global, chart: &Chart) -> Result<Chart, AllocError>
    ensures { IfOk result (λ copy. copy ≡ chart.now) }
{
    match copied(alloc, chart) {
        Ok(copy) => Ok(copy),
        Err(MendError::Memory) => Err(AllocError),
        Err(MendError::LineFull(_)) => unreachable!(),
    }
}

/// The race pair whose mending leaves the fewest, if it leaves fewer than there are. Only those that count do.
fn best_of(alloc: Global, chart: &Chart, counted: &Counted) -> Result<Option<Tried>, AllocError>
    requires placed { ArePlaced counted.now chart.now }
    requires possible { IsPossible (length chart.now) (chart_lines chart.now) }
    ensures { IfOk result (IsFound counted.now chart.now) }
{
    let closure = Closure::of_possible(alloc, chart)?;
    let name = free_name(alloc, chart.lines())?;
    let reports = closure.races()?;
    let those = counted_reports(alloc, chart, counted, reports)?;
    let pairs = race_pairs(alloc, those.as_slice())?;
    best_among(alloc, &closure, counted, pairs.as_slice(), &name)
}

/// How many race pairs of a possible chart count.
fn pairs_of_chart(alloc: Global, chart: &Chart, counted: &Counted) -> Result<usize, AllocError>
    requires { IsPossible (length chart.now) (chart_lines chart.now) }
    ensures { IfOk result (HasPairs counted.now chart.now) }
{
    let closure = Closure::of_possible(alloc, chart)?;
    let reports = closure.races()?;
    count_counted(alloc, chart, counted, reports)
}

/// Adds messages to a possible chart, one after another, as long as one leaves fewer race pairs: each time the one that
/// mends the pair whose mending leaves the fewest, of several pairs the first by instance, receive and earlier event. A
/// pair whose mending takes a line beyond its limit is left alone. For each message all race pairs of the chart are
/// tried. So many may be in all: where the chart has more than are left of them, none of these is tried, and it stops.
/// Only the pairs that count are mended and tried. The events of `counted` are within their lines.
///
/// F6: it fails only where there is no memory.
pub fn mend_all(
    alloc: Global,
    chart: &Chart,
    counted: Counted,
    limit: usize,
) -> Result<MendedChart, AllocError>
    requires placed { ArePlaced counted chart.now }
    requires possible { IsPossible (length chart.now) (chart_lines chart.now) }
    ensures { IfOk result (IsMendedChart counted limit chart.now) }
{
    let mut additions = Vec::new(alloc);
    let mut last = copy_of(alloc, chart)?;
    let mut left = pairs_of_chart(alloc, chart, &counted)?;
    let mut counting = counted;
    let mut tried = 0;
    while left <= limit - tried {
        tried += left;
        let Some(best) = best_of(alloc, &last, &counting)? else {
            return Ok(MendedChart {
                additions,
                chart: last,
                counted: counting,
                left,
                tried,
                is_stopped: false,
            });
        };
        let Tried {
            addition,
            chart,
            counted,
            left: fewer,
        } = best;
        additions.push(addition)?;
        last = chart;
        counting = counted;
        left = fewer;
    }
    Ok(MendedChart {
        additions,
        chart: last,
        counted: counting,
        left,
        tried,
        is_stopped: true,
    })
}
