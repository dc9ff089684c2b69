//! Layouts: the rows of a drawing, with the row of each event.
ghost use Rattle.std.specs.Prelude.{◌≡◌, ◌++◌, ◌∷◌, [], length, OnOk, IfOk};
ghost use Rattle.chart.specs.Events.{ith};
ghost use Rattle.chart.specs.declared.instance.TheConstants.{MAX_INSTANCES};
ghost use Rattle.closure.specs.Faults.{place_of};
ghost use Rattle.chart_layout.specs.Layouts.{laid_out, row_of};
ghost use Rattle.chart_layout.specs.Indexes.{IsPut, ArePut, AreNext};

use crate::row::Row;
use chart::{EventNo, InstanceNo, MAX_INSTANCES};
use std::alloc::{AllocError, Global};
use std::marker::Model;

/// The row numbers, from 0, of one instance's events, in order. A contract sees the list.
#[derive(Drop)]
struct LineRows {
    numbers: Vec<usize>,
}

impl Model for LineRows {
    ghost use Rattle.std.specs.Prelude.{ℕ, List};

    ghost Value = { List ℕ };

    ghost view = { λ l. l.numbers.items };
}

impl LineRows {
    /// No events. It takes no memory.
    fn new(alloc: Global) -> LineRows
        ensures { result ≡ [] }
    {
        LineRows {
            numbers: Vec::new(alloc),
        }
    }

    /// The number of events that have a row.
    fn len(&self) -> usize
        ensures { result ≡ length self.now }
    {
        self.numbers.len()
    }

    /// The row of the event with this number.
    fn row_of(&self, number: u32) -> Option<usize>
        ensures { result ≡ ith self.now number }
    {
        if number == 0 {
            return None;
        }
        self.numbers.get(number as usize - 1).copied()
    }

    /// Adds the row of the next event.
    fn push(&mut self, number: usize) -> Result<(), AllocError>
        ensures { OnOk result (self.new ≡ self.old ++ number ∷ []) }
    {
        self.numbers.push(number)?;
        Ok(())
    }
}

/// Adds the row of an event, which is the next of its instance.
fn put(lines: &mut [LineRows], event: &EventNo, number: usize) -> Result<(), AllocError>
    requires { length lines.old ≡ MAX_INSTANCES }
    ensures { OnOk result (IsPut event.now number lines.old lines.new) }
{
    lines[event.instance.place()].push(number)
}

/// Adds the row of its events, each the next of its instance.
fn put_row(lines: &mut [LineRows], row: &Row, number: usize) -> Result<(), AllocError>
    requires { length lines.old ≡ MAX_INSTANCES }
    ensures { OnOk result (ArePut row.now number lines.old lines.new) }
{
    match row {
        Row::Message { send, receive } => {
            put(lines, send, number)?;
            put(lines, receive, number)
        }
        Row::Event(event) => put(lines, event, number),
    }
}

/// The rows of a chart's drawing, the topmost first, with the row of each event. A contract sees the list of rows.
#[derive(Drop)]
pub struct Layout {
    rows: Vec<Row>,
    /// For each possible instance.
    lines: Vec<LineRows>,
}

impl Model for Layout {
    ghost use Rattle.std.specs.Prelude.{List};
    ghost use Rattle.chart_layout.specs.declared.row.Row.{Row};
    ghost use Rattle.chart_layout.specs.Indexes.{IsIndex};

    ghost Value = { List Row };

    ghost view = { λ l. l.rows.items };

    ghost invariant = { λ l. IsIndex l.rows.items l.lines.items };
}

impl Layout {
    /// No rows.
    ///
    /// F6: it fails only if there is no memory.
    pub(crate) fn none(alloc: Global) -> Result<Layout, AllocError>
        ensures { IfOk result (λ layout. layout ≡ []) }
    {
        let mut lines = Vec::with_capacity(alloc, MAX_INSTANCES)?;
        for _ in 0..MAX_INSTANCES {
            lines.push(LineRows::new(alloc))?;
        }
        Ok(Layout {
            rows: Vec::new(alloc),
            lines,
        })
    }

    /// The number of events of an instance that have a row.
    pub(crate) fn laid_out(&self, instance: InstanceNo) -> usize
        ensures { result ≡ length (laid_out self.now instance) }
    {
        self.lines[instance.place()].len()
    }

    /// The layout with one more row at the bottom, whose events are the next of their instances.
    ///
    /// F6: it fails only if there is no memory.
    pub(crate) fn with(self, row: Row) -> Result<Layout, AllocError>
        requires { AreNext self row }
        ensures { IfOk result (λ layout. layout ≡ self ++ row ∷ []) }
    {
        let Layout {
            mut rows,
            mut lines,
        } = self;
        put_row(lines.as_mut_slice(), &row, rows.len())?;
        rows.push(row)?;
        Ok(Layout { rows, lines })
    }

    /// The rows, the topmost first.
    pub fn rows(&self) -> &[Row]
        ensures { result.now ≡ self.now }
    {
        self.rows.as_slice()
    }

    /// The number, from 0, of the row that has an event. There is none exactly if no row has the event: the chart
    /// doesn't have it.
    pub fn row_of(&self, event: &EventNo) -> Option<usize>
        ensures { result ≡ row_of self.now (place_of event.now) }
    {
        self.lines[event.instance.place()].row_of(event.index)
    }
}
