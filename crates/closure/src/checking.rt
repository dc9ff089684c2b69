//! Audits of reports.
ghost use Rattle.std.specs.Prelude.{◌≡◌, ◌⊎◌, length, MatchOption, OnOk, IfErr};
ghost use Rattle.chart.specs.Charts.{chart_lines, IsPossible};
ghost use Rattle.chart.specs.Reports.{AreReports};
ghost use Rattle.closure.specs.Audits.{IsFirstWrong, RefusesReports};

use crate::closure::Closure;
use crate::error::{AuditError, ChartError};
use chart::{Chart, EventNo, Report};
use std::alloc::{AllocError, Global};

/// The receive that names the first place where the given reports aren't the right ones.
fn first_wrong(right: &[Report], given: &[Report]) -> Option<EventNo>
    ensures { MatchOption result (given.now ≡ right.now) (IsFirstWrong right.now given.now) }
{
    for place in 0..right.len() {
        if place >= given.len() {
            return Some(right[place].receive());
        }
        if !given[place].is(&right[place]) {
            return Some(right[place].receive());
        }
    }
    if given.len() > right.len() {
        return Some(given[right.len()].receive());
    }
    None
}

/// Whether the reports are exactly those of the chart's receives, by instance and index.
///
/// A chart that is not possible is refused as by [`Closure::of`], by F16, F17 or F18. F19: the first place where the
/// list isn't that of [`Closure::races`]. It names the receive that belongs in this place or, past the end, the receive
/// of the surplus report. F6 may come at any point.
pub fn audit(alloc: Global, chart: &Chart, reports: &[Report]) -> Result<(), AuditError>
    ensures possible { OnOk result (IsPossible (length chart.now) (chart_lines chart.now)) }
    ensures right { OnOk result (AreReports chart.now reports.now) }
    ensures refused { IfErr result (RefusesReports chart.now reports.now) }
    ensures rightly { IfErr result (λ e. (e ≡ AuditError.Chart ChartError.Memory)
        ⊎ (IsPossible (length chart.now) (chart_lines chart.now) → AreReports chart.now reports.now → ⊥)) }
{
    let closure = match Closure::of(alloc, chart) {
        Ok(closure) => closure,
        Err(error) => return Err(AuditError::Chart(error)),
    };
    let right = match closure.races() {
        Ok(right) => right,
        Err(AllocError) => return Err(AuditError::Chart(ChartError::Memory)),
    };
    match first_wrong(right.as_slice(), reports) {
        None => Ok(()),
        Some(receive) => Err(AuditError::WrongReport(receive)),
    }
}
