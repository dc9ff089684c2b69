//! The race pairs of a chart.
ghost use Rattle.std.specs.Prelude.{◌≡◌, ◌*◌, ◌≤◌, ◌++◌, length, IfOk, OnOk};
ghost use Rattle.chart.specs.declared.instance.TheConstants.{MAX_INSTANCES};
ghost use Rattle.chart.specs.declared.line.TheConstants.{MAX_EVENTS};
ghost use Rattle.repair.specs.Repairs.{pairs_of_report, pairs_of, AreFew};

use chart::{EventNo, Report};
use std::alloc::{AllocError, Global};

/// A receive, and an earlier event of its line that may come behind it.
#[derive(Clone, Copy, Debug, PartialEq, Eq)]
pub struct RacePair {
    pub earlier: EventNo,
    pub receive: EventNo,
}

/// Adds the race pairs of a receive.
fn add_pairs(alloc: Global, pairs: &mut Vec<RacePair>, report: &Report) -> Result<(), AllocError>
    ensures { OnOk result (pairs.new.items ≡ pairs.old.items ++ pairs_of_report report.now) }
{
    let earlier = report.earlier().listed(alloc)?;
    for event in earlier.as_slice() {
        pairs.push(RacePair {
            earlier: *event,
            receive: report.receive(),
        })?;
    }
    Ok(())
}

/// The race pairs of a chart with these reports, by instance, receive and earlier event.
pub(crate) fn race_pairs(alloc: Global, reports: &[Report]) -> Result<Vec<RacePair>, AllocError>
    ensures { IfOk result (λ pairs. pairs.items ≡ pairs_of reports.now) }
{
    let mut pairs = Vec::new(alloc);
    for report in reports {
        add_pairs(alloc, &mut pairs, report)?;
    }
    Ok(pairs)
}

/// How many race pairs these reports have, which are no more than those of a chart. It takes no memory.
pub fn count_pairs(reports: &[Report]) -> usize
    requires { AreFew reports.now }
    ensures value { result ≡ length (pairs_of reports.now) }
    ensures few { result ≤ MAX_INSTANCES * MAX_EVENTS * MAX_EVENTS }
{
    let mut count = 0;
    for report in reports {
        count += report.earlier().len();
    }
    count
}
