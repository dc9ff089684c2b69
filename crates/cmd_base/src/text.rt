//! The contents of a file: a schedule, or a chart.
ghost use Rattle.std.specs.Prelude.{◌≡◌, length};
ghost use Rattle.cmd_base.specs.Texts.{ReadsChart, ReadsText};

use crate::chart_part::chart_part;
use crate::charts::chart_in;
use crate::error::ProgramError;
use crate::kind::is_schedule;
use crate::schedules::schedule_in;
use chart::{Chart, Names};
use schedule::Schedule;
use std::alloc::Global;
use std::marker::Model;

/// A chart with a name for each of its lines. Contracts see the names and the lines.
#[derive(Debug, Drop)]
pub struct NamedChart {
    names: Names,
    chart: Chart,
}

impl Model for NamedChart {
    ghost use Rattle.std.specs.Prelude.{◌≡◌, length};
    ghost use Rattle.cmd_base.specs.Contents.{Named};

    ghost Value = { Named };

    ghost view = { λ c. (c.names, c.chart) };

    ghost invariant = { λ c. length c.names ≡ length c.chart };
}

impl NamedChart {
    /// The chart in the bytes, which may have more output of `mscrun` after it. A refusal is the first fault of the
    /// text, or F6.
    fn read(alloc: Global, bytes: &[u8]) -> Result<NamedChart, ProgramError>
        ensures { ReadsChart result bytes.now }
    {
        let (names, chart) = chart_in(alloc, chart_part(bytes))?;
        Ok(NamedChart { names, chart })
    }

    /// The names of the instances.
    pub fn names(&self) -> &Names
        ensures { result.now ≡ self.now.0 }
    {
        &self.names
    }

    /// The chart, which has a line for each name.
    pub fn chart(&self) -> &Chart
        ensures value { result.now ≡ self.now.1 }
        ensures named { length self.now.0 ≡ length self.now.1 }
    {
        &self.chart
    }
}

/// The contents of a file.
#[derive(Debug, Drop)]
pub enum Text {
    Schedule(Schedule),
    Chart(NamedChart),
}

impl Text {
    /// The contents of the bytes: a schedule, if their first word is a schedule's, and otherwise a chart. The lines
    /// after a chart's last line are ignored. A refusal is the first fault of the text, or F6.
    pub fn read(alloc: Global, bytes: &[u8]) -> Result<Text, ProgramError>
        ensures { ReadsText result bytes.now }
    {
        if is_schedule(bytes) {
            let schedule = schedule_in(alloc, bytes)?;
            return Ok(Text::Schedule(schedule));
        }
        let chart = NamedChart::read(alloc, bytes)?;
        Ok(Text::Chart(chart))
    }
}
