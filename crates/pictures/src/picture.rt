//! The values from which a picture is drawn.
ghost use Rattle.std.specs.Prelude.{◌≡◌, ◌≤◌, ◌-◌, length, slice_get};
ghost use Rattle.chart.specs.Charts.{chart_lines};
ghost use Rattle.chart.specs.declared.line.TheConstants.{MAX_EVENTS};
ghost use Rattle.pictures.specs.Pictures.{column_of, row_at, cell_of, end_of, event_of};

use crate::spots::Cell;
use chart::{Event, EventNo, InstanceNo, Line, Names, Report};
use chart_layout::margin::MarginNote;
use chart_layout::{Row, event_in};
use picture_parts::columns::{Choice, Column};
use std::marker::Model;

/// A picture of a chart: the part that is drawn, and its positions.
#[derive(Drop)]
pub struct Picture<'a> {
    pub(crate) title: &'a [u8],
    pub(crate) names: &'a Names,
    pub(crate) lines: &'a [Line],
    pub(crate) reports: &'a [Report],
    pub(crate) choice: Choice<'a>,
    /// Whether each event has its number beside it.
    pub(crate) numbers: bool,
    /// The width of the picture, in pixels.
    pub(crate) width: u32,
    /// The number of rows that are drawn.
    pub(crate) count: u32,
    /// For each row of the layout, the number of rows that are drawn above it.
    pub(crate) places: Vec<u32>,
    /// The rows in which messages are sent.
    pub(crate) sends: Vec<Row>,
    /// The texts of the margin.
    pub(crate) notes: &'a [MarginNote],
}

impl<'a> Model for Picture<'a> {
    ghost use Rattle.pictures.specs.Pictures.{PictureView};

    ghost Value = { PictureView };

    ghost view = { λ p. record {
      title = p.title.now;
      names = p.names.now;
      lines = p.lines.now;
      reports = p.reports.now;
      choice = p.choice;
      places = p.places.items;
      sends = p.sends.items;
      notes = p.notes.now;
      numbers = p.numbers;
      width = p.width;
      count = p.count;
    } };
}

impl<'a> Picture<'a> {
    pub(crate) fn has_numbers(&self) -> bool
        ensures { result ≡ self.now.numbers }
    {
        self.numbers
    }

    pub(crate) fn rows(&self) -> &[Row]
        ensures { result.now ≡ self.now.choice.rows }
    {
        self.choice.layout.rows()
    }

    pub(crate) fn reports(&self) -> &[Report]
        ensures { result.now ≡ self.now.reports }
    {
        self.reports
    }

    pub(crate) fn columns(&self) -> &[Column]
        ensures { result.now ≡ self.now.choice.columns }
    {
        self.choice.columns.as_slice()
    }

    pub(crate) fn title(&self) -> &[u8]
        ensures { result.now ≡ self.now.title }
    {
        self.title
    }

    pub(crate) fn first(&self) -> u32
        ensures { result ≡ self.now.choice.first }
    {
        self.choice.first
    }

    pub(crate) fn last(&self) -> u32
        ensures { result ≡ self.now.choice.last }
    {
        self.choice.last
    }

    pub(crate) fn top(&self) -> usize
        ensures { result ≡ self.now.choice.top }
    {
        self.choice.top
    }

    pub(crate) fn bottom(&self) -> usize
        ensures { result ≡ self.now.choice.bottom }
    {
        self.choice.bottom
    }

    pub(crate) fn count(&self) -> u32
        ensures { result ≡ self.now.count }
    {
        self.count
    }

    /// The column of an instance.
    pub(crate) fn column_of(&self, instance: InstanceNo) -> Option<Column>
        ensures { result ≡ column_of self.now instance }
    {
        self.choice.column_of(instance)
    }

    /// The row of an event.
    pub(crate) fn row_at(&self, event: &EventNo) -> Option<usize>
        ensures { result ≡ row_at self.now event.now }
    {
        self.choice.layout.row_of(event)
    }

    /// The number of rows that are drawn above a row.
    pub(crate) fn place_at(&self, row: usize) -> Option<u32>
        ensures { result ≡ slice_get self.now.places row }
    {
        self.places.get(row).copied()
    }

    /// The row of the send that has `above` sends above it.
    pub(crate) fn send_row(&self, above: usize) -> Option<Row>
        ensures { result ≡ slice_get self.now.sends above }
    {
        self.sends.get(above).copied()
    }

    /// The last row.
    pub(crate) fn last_row(&self) -> Option<Row>
        ensures { result ≡ slice_get self.now.choice.rows (length self.now.choice.rows - 1) }
    {
        self.rows().last().copied()
    }

    pub(crate) fn notes(&self) -> &[MarginNote]
        ensures { result.now ≡ self.now.notes }
    {
        self.notes
    }

    /// The cell of an event, if it is drawn.
    pub(crate) fn cell_of(&self, event: &EventNo) -> Option<Cell>
        ensures { result ≡ cell_of self.now event.now }
    {
        if !self.choice.is_shown(event) {
            return None;
        }
        let column = self.column_of(event.instance)?;
        let row = self.row_at(event)?;
        let place = self.place_at(row)?;
        Some(Cell { column, place })
    }

    /// The other end of an event's message.
    pub(crate) fn end_of(&self, event: &EventNo) -> Option<EventNo>
        ensures { result ≡ end_of self.now event.now }
    {
        self.choice.end_of(event)
    }

    /// The events of an instance's line.
    pub(crate) fn events_of(&self, instance: InstanceNo) -> &[Event]
        ensures events { result.now ≡ chart_lines self.now.lines instance }
        ensures short { length result.now ≤ MAX_EVENTS }
    {
        match self.lines.get(instance.place()) {
            Some(line) => line.events(),
            None => &[],
        }
    }

    /// The event with this number.
    pub(crate) fn event_of(&self, event: &EventNo) -> Option<Event>
        ensures { result ≡ event_of self.now event.now }
    {
        event_in(self.lines, event)
    }

    pub(crate) fn names(&self) -> &Names
        ensures { result.now ≡ self.now.names }
    {
        self.names
    }
}
