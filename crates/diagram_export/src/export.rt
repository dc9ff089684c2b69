//! The input of an export.
ghost use Rattle.std.specs.Prelude.{◌≡◌, ◌≤◌, length, None, option_map};
ghost use Rattle.chart.specs.declared.instance.TheConstants.{MAX_INSTANCES};
ghost use Rattle.closure.specs.Faults.{place_of};
ghost use Rattle.chart_layout.specs.Layouts.{row_of};
ghost use Rattle.diagram_export.specs.Exports.{event_of, end_of, in_row, start_of, skip, report_at, note_of};

use chart::{Event, EventNo, Line, Names, Report};
use chart_layout::{Ends, Layout, Row, event_in};
use diagram_tool::Tool;
use std::marker::Model;

/// A chart that is written as a text of another tool.
#[derive(Drop)]
pub struct Export<'a> {
    pub(crate) tool: Tool,
    pub(crate) names: &'a Names,
    pub(crate) lines: &'a [Line],
    pub(crate) reports: &'a [Report],
    pub(crate) layout: &'a Layout,
    /// The other end of each event's message.
    pub(crate) ends: &'a Ends,
    /// For each row, the place of its receive's report among the reports, if it has races.
    pub(crate) notes: Vec<Option<usize>>,
    /// For each row, the number of the tool's rows above it.
    pub(crate) starts: Vec<u32>,
}

impl<'a> Model for Export<'a> {
    ghost use Rattle.chart.specs.Charts.{IsChart};
    ghost use Rattle.diagram_export.specs.Exports.{ExportView};

    ghost Value = { ExportView };

    ghost view = { λ e. record {
      tool = e.tool;
      names = e.names.now;
      lines = e.lines.now;
      reports = e.reports.now;
      rows = e.layout.now;
      ends = e.ends.now;
      notes = e.notes.items;
      starts = e.starts.items;
    } };

    ghost invariant = { λ e. IsChart e.lines.now };
}

impl<'a> Export<'a> {
    pub(crate) fn tool(&self) -> Tool
        ensures { result ≡ self.now.tool }
    {
        self.tool
    }

    pub(crate) fn names(&self) -> &Names
        ensures { result.now ≡ self.now.names }
    {
        self.names
    }

    pub(crate) fn lines(&self) -> &[Line]
        ensures { result.now ≡ self.now.lines }
    {
        self.lines
    }

    /// The number of instances.
    pub(crate) fn instances(&self) -> usize
        ensures value { result ≡ length self.now.lines }
        ensures at_least_two { 2 ≤ result }
        ensures at_most { result ≤ MAX_INSTANCES }
    {
        self.lines.len()
    }

    /// The row that has an event.
    pub(crate) fn row_of(&self, event: &EventNo) -> Option<usize>
        ensures { result ≡ row_of self.now.rows (place_of event.now) }
    {
        self.layout.row_of(event)
    }

    pub(crate) fn rows(&self) -> &[Row]
        ensures { result.now ≡ self.now.rows }
    {
        self.layout.rows()
    }

    /// The event with this number.
    pub(crate) fn event_of(&self, event: &EventNo) -> Option<Event>
        ensures { result ≡ event_of self.now event.now }
    {
        event_in(self.lines, event)
    }

    /// The other end of an event's message.
    pub(crate) fn end_of(&self, event: &EventNo) -> Option<EventNo>
        ensures { result ≡ end_of self.now event.now }
    {
        self.ends.of_event(*event)
    }

    /// The number of the tool's rows above the row of an event.
    fn start_of(&self, event: &EventNo) -> u32
        ensures { result ≡ start_of self.now event.now }
    {
        match self.row_of(event) {
            Some(row) => self.starts.get(row).copied().unwrap_or(0),
            None => 0,
        }
    }

    /// How many of the tool's rows a receive is below its send.
    pub(crate) fn skip(&self, send: &EventNo, receive: &EventNo) -> u32
        ensures { result ≡ skip self.now send.now receive.now }
    {
        self.start_of(receive).saturating_sub(self.start_of(send))
    }

    /// The place among the reports of the one whose note is in the row of an event.
    fn note_place(&self, event: &EventNo) -> Option<usize>
        ensures { result ≡ in_row None self.now.notes (row_of self.now.rows (place_of event.now)) }
    {
        match self.row_of(event) {
            Some(row) => self.notes.get(row).copied().unwrap_or(None),
            None => None,
        }
    }

    /// The report of the races in the row of the event, if it has races.
    pub(crate) fn note_of(&self, event: &EventNo) -> Option<&Report>
        ensures { option_map (λ r. r.now) result ≡ note_of self.now event.now }
    {
        match self.note_place(event) {
            Some(place) => self.reports.get(place),
            None => None,
        }
    }
}
