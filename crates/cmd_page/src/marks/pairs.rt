//! The races of a page: each range of earlier events of each receive.
ghost use Rattle.std.specs.Prelude.{◌≡◌, ◌++◌, List, All, IfOk, IfSome, OnOk, option_map};
ghost use Rattle.chart.specs.Reports.{ReportView, AreReports};
ghost use Rattle.cmd_page.specs.Marks.Pairing.{HasRange, pairs_in, pairs_of, ArePageRaces, explained_of};

use chart::{EventNo, EventRange, Report};
use closure::Closure;
use race_verdicts::Verdict;
use std::alloc::{AllocError, Global};

/// The greatest number of races that a page describes in full.
pub const MOST_EXPLAINED: u64 = 100;

/// The greatest number of bytes of a file whose page describes races in full.
pub const MOST_BYTES: usize = 131_072;

/// A receive, and neighbouring earlier events of its line that it may come before.
#[derive(Clone, Copy, Debug)]
pub struct RaceRange {
    pub receive: EventNo,
    pub earlier: EventRange,
    /// The verdict that all of these races have, if it is known.
    pub verdict: Option<Verdict>,
}

/// Adds the races of a report.
fn add_report(pairs: &mut Vec<RaceRange>, report: &Report) -> Result<(), AllocError>
    requires { All HasRange pairs.old.items }
    ensures pairs { OnOk result (pairs.new.items ≡ pairs.old.items ++ pairs_in report.now) }
    ensures has { OnOk result (All HasRange pairs.new.items) }
{
    let ranges = report.earlier().as_slice();
    for range in ranges {
        pairs.push(RaceRange {
            receive: report.receive(),
            earlier: *range,
            verdict: None,
        })?;
    }
    Ok(())
}

/// The races of a chart with these reports, by instance, receive and first earlier event.
pub fn pairs_of(alloc: Global, reports: &[Report]) -> Result<Vec<RaceRange>, AllocError>
    ensures pairs { IfOk result (λ pairs. pairs.items ≡ pairs_of reports.now) }
    ensures have { IfOk result (λ pairs. All HasRange pairs.items) }
{
    let mut pairs = Vec::new(alloc);
    for report in reports {
        add_report(&mut pairs, report)?;
    }
    Ok(pairs)
}

/// The races of the chart: one for each range of its reports.
fn reported_races(alloc: Global, closure: &Closure<'_>) -> Result<Vec<RaceRange>, AllocError>
    ensures races { IfOk result (λ races. (reports : List ReportView) × AreReports closure.now reports
        × (races.items ≡ pairs_of reports)) }
    ensures have { IfOk result (λ races. All HasRange races.items) }
{
    let reports = closure.races()?;
    let races = pairs_of(alloc, reports.as_slice())?;
    Ok(races)
}

/// A copy of these races.
fn copied_races(alloc: Global, given: &[RaceRange]) -> Result<Vec<RaceRange>, AllocError>
    ensures { IfOk result (λ races. races.items ≡ given.now) }
{
    let mut races = Vec::new(alloc);
    for race in given {
        races.push(*race)?;
    }
    Ok(races)
}

/// The races of a page: the given ones, or one for each range of the chart's reports. It fails only if there is no
/// memory (F6).
pub fn races_in(
    alloc: Global,
    closure: &Closure<'_>,
    given: Option<&[RaceRange]>,
) -> Result<Vec<RaceRange>, AllocError>
    requires { IfSome given (λ given. All HasRange given.now) }
    ensures races { IfOk result (λ races. ArePageRaces (option_map (λ given. given.now) given.entry) closure.now races.items) }
    ensures have { IfOk result (λ races. All HasRange races.items) }
{
    match given {
        None => reported_races(alloc, closure),
        Some(given) => copied_races(alloc, given),
    }
}

/// The number of races that are described in full, for a file with this number of bytes.
pub fn explained_of(bytes: usize, races: usize) -> u64
    ensures { result ≡ explained_of bytes races }
{
    if bytes > MOST_BYTES {
        0
    } else {
        MOST_EXPLAINED.min(races as u64)
    }
}
