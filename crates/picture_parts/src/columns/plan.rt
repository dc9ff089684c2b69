//! The data by which columns are placed.
ghost use Rattle.std.specs.Prelude.{◌≡◌};
ghost use Rattle.chart.specs.Charts.{chart_lines};

use chart::{Event, InstanceNo, Line, Names, Report};
use std::marker::Model;

/// The data by which columns are placed: a chart with its names and reports, and its drawn part.
#[derive(Drop)]
pub struct Plan<'a> {
    pub names: &'a Names,
    pub lines: &'a [Line],
    pub reports: &'a [Report],
    /// The instances that have a column, from the left.
    pub instances: &'a [InstanceNo],
    /// Whether events have their numbers beside them.
    pub numbers: bool,
}

impl<'a> Model for Plan<'a> {
    ghost use Rattle.picture_parts.specs.Columns.Placing.{PlanView};

    ghost Value = { PlanView };

    ghost view = { λ p. record {
      names = p.names.now;
      lines = p.lines.now;
      reports = p.reports.now;
      instances = p.instances.now;
      numbers = p.numbers;
    } };
}

impl<'a> Plan<'a> {
    /// The events of an instance's line.
    pub(crate) fn events_of(&self, instance: InstanceNo) -> &[Event]
        ensures { result.now ≡ chart_lines self.now.lines instance }
    {
        match self.lines.get(instance.place()) {
            Some(line) => line.events(),
            None => &[],
        }
    }
}
