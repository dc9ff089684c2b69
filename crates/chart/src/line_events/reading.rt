//! Lines and their events, by instances and by places that begin at 0.
ghost use Rattle.std.specs.Prelude.{◌≡◌, ◌<◌, ◌≤◌, suc, length, Some};
ghost use Rattle.chart.specs.declared.line.TheConstants.{MAX_EVENTS};
ghost use Rattle.chart.specs.Charts.{at, chart_event, chart_lines, IsNumbered};

use crate::{Event, InstanceNo, Line, MAX_EVENTS};

/// The number of events of a line.
pub fn len_of(lines: &[Line], line: usize) -> usize
    requires { line < length lines.now }
    ensures value { result ≡ length (chart_lines lines.now (suc line)) }
    ensures limit { result ≤ MAX_EVENTS }
{
    lines[line].len()
}

/// A line.
pub fn line_of(lines: &[Line], line: usize) -> &Line
    requires { line < length lines.now }
    ensures events { result.now.events ≡ chart_lines lines.now (suc line) }
    ensures numbered { IsNumbered lines.now → result.now.instance ≡ suc line }
{
    &lines[line]
}

/// The events of a line.
pub fn events_at(lines: &[Line], line: usize) -> &[Event]
    requires { line < length lines.now }
    ensures { result.now ≡ chart_lines lines.now (suc line) }
{
    lines[line].events()
}

/// The event at a place of a line.
pub fn event_at(lines: &[Line], line: usize, place: usize) -> Event
    requires line { line < length lines.now }
    requires place { place < length (chart_lines lines.now (suc line)) }
    ensures { chart_event (chart_lines lines.now) (at (suc line) (suc place)) ≡ Some result }
{
    events_at(lines, line)[place]
}

/// The events of an instance's line; none if the chart has no such instance.
pub fn events_of(lines: &[Line], instance: InstanceNo) -> &[Event]
    ensures events { result.now ≡ chart_lines lines.now instance }
    ensures short { length result.now ≤ MAX_EVENTS }
{
    match lines.get(instance.place()) {
        Some(line) => line.events(),
        None => &[],
    }
}
