//! The chart of a log.
ghost use Rattle.std.specs.Prelude.{◌≡◌, ◌<◌, ◌≤◌, ◌↔◌, Err, None, length, All, IfOk, OnOk, IfErr};
ghost use Rattle.chart.specs.Charts.{chart_lines, IsChart, IsPossible};
ghost use Rattle.chart.specs.declared.instance.TheConstants.{MAX_INSTANCES};
ghost use Rattle.log_chart.specs.Entries.{HaveStreams};
ghost use Rattle.log_chart.specs.HostLines.{kept, host_lines};
ghost use Rattle.log_chart.specs.Cycles.Freeing.{HasNone, Settles, AreAmong, HaveLanes};
ghost use Rattle.log_chart.specs.Charts.ChartLines.{chart_from, first_full, AreNamed};
ghost use Rattle.log_chart.specs.Charts.Building.{IsLogChart, IsSettledRefusal, IsRefusalOf};
ghost use Rattle.log_chart.specs.declared.charts.building.BuildError.TheVariants.{Memory};

use crate::charts::chart_lines::{first_full, lines_of};
use crate::charts::listing::{
    Overtaking, freed_places, invented_sends, is_one_ended, lost_places, overtakings,
};
use crate::cycles::settle;
use crate::{Entry, HostLine, Place, host_lines};
use chart::{Chart, EventNo, InstanceNo};
use std::alloc::{AllocError, AllocFailed, Global};
use thiserror::Error;

/// Why a log has no chart.
#[derive(Clone, Copy, Debug, PartialEq, Eq, Error)]
pub enum BuildError {
    /// F6: a growth was refused.
    #[error("there is no memory left")]
    Memory,
    /// F8: there are fewer than two instances.
    #[error("there are too few instances")]
    Instances,
    /// F7: this instance has more events than a line holds.
    #[error("an instance has too many events")]
    LineFull(InstanceNo),
}

impl From<AllocError> for BuildError {
    ghost from_gives = { λ _ e. e ≡ Memory };

    fn from(_e: AllocError) -> BuildError {
        BuildError::Memory
    }
}

impl<T: Drop> From<AllocFailed<T>> for BuildError {
    ghost from_gives = { λ _ e. e ≡ Memory };

    fn from(_e: AllocFailed<T>) -> BuildError {
        BuildError::Memory
    }
}

/// The chart of a log, and what was changed for it.
#[derive(Debug, Drop)]
pub struct LogChart {
    pub chart: Chart,
    /// The lines with the sends of lost messages, in the order of the log.
    pub lost: Vec<Place>,
    /// The messages that overtake, in the order of the log.
    pub overtaking: Vec<Overtaking>,
    /// The invented sends, by instance and number.
    pub invented: Vec<EventNo>,
    /// The lines of the freed receives, in the order of the log.
    pub freed: Vec<Place>,
    /// Whether the log has events, and one end of each message: no receive takes a send of it, and no receive is freed.
    pub is_one_ended: bool,
}

/// The chart of these lines, which are lines of a chart. It fails only if there is no memory.
fn chart_of(alloc: Global, log: &[Entry], lines: &[HostLine]) -> Result<Chart, AllocError>
    requires named { All (AreNamed (length log.now)) lines.now }
    requires count { length lines.now ≤ MAX_INSTANCES }
    requires chart { IsChart (chart_from log.now 1 lines.now) }
    ensures { IfOk result (λ chart. chart ≡ chart_from log.now 1 lines.now) }
{
    match Chart::new(lines_of(alloc, log, lines)?) {
        Ok(chart) => Ok(chart),
        Err(_) => unreachable!(),
    }
}

/// The chart of a log of `hosts` hosts in which no line comes before itself, and what was changed for it.
fn build_settled(alloc: Global, hosts: usize, log: &[Entry]) -> Result<LogChart, BuildError>
    requires several { 2 ≤ hosts }
    requires hosts { hosts ≤ MAX_INSTANCES }
    requires streams { HaveStreams log.now }
    requires lanes { HaveLanes log.now }
    requires among { AreAmong hosts log.now }
    requires settled { HasNone (kept log.now) }
    ensures built { IfOk result (IsLogChart hosts log.now) }
    ensures possible { IfOk result (λ d. IsPossible (length d.chart) (chart_lines d.chart)) }
    ensures short { OnOk result (first_full 1 (host_lines hosts log.now) ≡ None) }
    ensures refused { IfErr result (IsSettledRefusal hosts log.now) }
{
    let built = host_lines(alloc, hosts, log)?;
    let lines = built.lines.as_slice();
    if let Some(host) = first_full(lines) {
        return Err(BuildError::LineFull(host));
    }
    Ok(LogChart {
        chart: chart_of(alloc, log, lines)?,
        lost: lost_places(alloc, &built.matched, &built.fates)?,
        overtaking: overtakings(alloc, log, &built.matched, &built.fates)?,
        invented: invented_sends(alloc, lines)?,
        freed: freed_places(alloc, log)?,
        is_one_ended: is_one_ended(&built.matched, log),
    })
}

/// The chart of a log of `hosts` hosts. F8 refuses fewer than two hosts, and F7 an instance with more events than a
/// line holds: the first such instance. Nothing else is refused, except that F6 may be the answer at any point.
/// Receives of the log are freed as in [`settle`].
///
/// The events of an instance are the lines of its host, in their order. Lost messages and messages that overtake are
/// skipped, and sends are invented. All of these are listed.
pub fn build(alloc: Global, hosts: usize, log: &mut [Entry]) -> Result<LogChart, BuildError>
    requires hosts { hosts ≤ MAX_INSTANCES }
    requires streams { HaveStreams log.old }
    requires lanes { HaveLanes log.old }
    requires among { AreAmong hosts log.old }
    ensures settled { OnOk result (Settles log.old log.new) }
    ensures built { IfOk result (IsLogChart hosts log.new) }
    ensures possible { IfOk result (λ d. IsPossible (length d.chart) (chart_lines d.chart)) }
    ensures short { OnOk result (first_full 1 (host_lines hosts log.new) ≡ None) }
    ensures instances { (result ≡ Err BuildError.Instances) ↔ (hosts < 2) }
    ensures refused { IfErr result (IsRefusalOf hosts log.old log.new) }
{
    if hosts < 2 {
        return Err(BuildError::Instances);
    }
    settle(alloc, hosts, log)?;
    build_settled(alloc, hosts, log)
}
