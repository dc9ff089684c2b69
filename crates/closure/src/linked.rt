//! The lines of a chart, with the partner of each event.
ghost use Rattle.std.specs.Prelude.{◌≡◌, ◌<◌, ◌≤◌, suc, length, Some};
ghost use Rattle.chart.specs.declared.line.TheConstants.{MAX_EVENTS};
ghost use Rattle.chart.specs.Charts.{at, chart_event, chart_lines, IsChart};
ghost use Rattle.closure.specs.Closures.{AreLinked};
ghost use Rattle.closure.specs.Links.{IsPartner};

use crate::partner::Partner;
use crate::row::{Row, value_at};
use chart::line_events::{event_at, len_of, line_of};
use chart::{Event, Line};
use std::marker::Model;

/// The lines of a chart, with the partner of each event. A contract sees the lines.
#[derive(Drop)]
pub struct Linked<'a> {
    lines: &'a [Line],
    partners: &'a [Row<Partner>],
}

impl<'a> Model for Linked<'a> {
    ghost use Rattle.std.specs.Prelude.{List};
    ghost use Rattle.chart.specs.Charts.{LineView};
    ghost use Rattle.closure.specs.Closures.{AreLinked};

    ghost Value = { List LineView };

    ghost view = { λ l. l.lines.now };

    ghost invariant = { λ l. AreLinked l.lines.now l.partners.now };
}

impl<'a> Linked<'a> {
    pub fn new(lines: &'a [Line], partners: &'a [Row<Partner>]) -> Linked<'a>
        requires { AreLinked lines.now partners.now }
        ensures { result ≡ lines.now }
    {
        Linked { lines, partners }
    }

    /// The number of lines.
    pub fn len(&self) -> usize
        ensures value { result ≡ length self.now }
        ensures chart { IsChart self.now }
    {
        self.lines.len()
    }

    /// A line.
    pub fn line_of(&self, line: usize) -> &'a Line
        requires { line < length self.now }
        ensures events { result.now.events ≡ chart_lines self.now (suc line) }
        ensures number { result.now.instance ≡ suc line }
        ensures chart { IsChart self.now }
    {
        line_of(self.lines, line)
    }

    /// The number of events of a line.
    pub fn len_of(&self, line: usize) -> usize
        requires { line < length self.now }
        ensures value { result ≡ length (chart_lines self.now (suc line)) }
        ensures limit { result ≤ MAX_EVENTS }
        ensures chart { IsChart self.now }
    {
        len_of(self.lines, line)
    }

    /// The event at a place of a line.
    pub fn event_at(&self, line: usize, place: usize) -> Event
        requires line { line < length self.now }
        requires place { place < length (chart_lines self.now (suc line)) }
        ensures { chart_event (chart_lines self.now) (at (suc line) (suc place)) ≡ Some result }
    {
        event_at(self.lines, line, place)
    }

    /// The other end of the message of the event at a place of a line. It reads only the table.
    #[inline(always)]
    pub fn partner_of(&self, line: usize, place: usize) -> Partner
        requires line { line < length self.now }
        requires place { place < length (chart_lines self.now (suc line)) }
        ensures partner { IsPartner self.now (at (suc line) (suc place)) result }
        ensures chart { IsChart self.now }
    {
        value_at(self.partners, line, place)
    }
}
