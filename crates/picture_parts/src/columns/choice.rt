//! Which events of a chart are drawn, and in which columns and rows.
ghost use Rattle.std.specs.Prelude.{◌≡◌, ◌==◌, ◌<◌, length, position, IfSome, IfOk};
ghost use Rattle.picture_parts.specs.Columns.Choices.{column_of, end_of, is_between, is_row_chosen, is_chosen, is_chosen_end};
ghost use Rattle.picture_parts.specs.Columns.Choices.{is_shown, is_in_picture, is_row_in_picture, places_from, count_from};

use crate::columns::columns::Column;
use chart::{EventNo, InstanceNo};
use chart_layout::{Ends, Layout, Row};
use std::alloc::{AllocError, Global};
use std::marker::Model;

/// The drawn events of a chart: those that are chosen, and the other ends of their messages.
#[derive(Drop)]
pub struct Choice<'a> {
    pub layout: &'a Layout,
    /// The other ends of the chart's messages.
    pub ends: &'a Ends,
    /// The columns, from the left.
    pub columns: Vec<Column>,
    /// The numbers of the first and of the last chosen event of each line, from 1.
    pub first: u32,
    pub last: u32,
    /// The numbers of the first and of the last row with chosen events, from 0.
    pub top: usize,
    pub bottom: usize,
}

impl<'a> Model for Choice<'a> {
    ghost use Rattle.picture_parts.specs.Columns.Choices.{ChoiceView};

    ghost Value = { ChoiceView };

    ghost view = { λ c. record {
      rows = c.layout.now;
      ends = c.ends.now;
      columns = c.columns.items;
      first = c.first;
      last = c.last;
      top = c.top;
      bottom = c.bottom;
    } };
}

/// The place of an instance's column, from 0.
fn place_in(columns: &[Column], instance: InstanceNo) -> Option<usize>
    ensures value { result ≡ position (λ c. c.instance == instance) columns.now }
    ensures within { IfSome result (λ place. place < length columns.now) }
{
    columns
        .iter()
        .position(|column| column.instance == instance)
}

fn is_between(first: usize, last: usize, number: usize) -> bool
    ensures { result ≡ is_between first last number }
{
    first <= number && number <= last
}

impl<'a> Choice<'a> {
    /// The column of an instance.
    pub fn column_of(&self, instance: InstanceNo) -> Option<Column>
        ensures { result ≡ column_of self.now instance }
    {
        let place = place_in(self.columns.as_slice(), instance)?;
        let column = *self.columns.get(place)?;
        Some(column)
    }

    /// The other end of an event's message.
    pub fn end_of(&self, event: &EventNo) -> Option<EventNo>
        ensures { result ≡ end_of self.now event.now }
    {
        self.ends.of_event(*event)
    }

    /// Whether the row's events are chosen.
    fn is_row_chosen(&self, row: Option<usize>) -> bool
        ensures { result ≡ is_row_chosen self.now row }
    {
        match row {
            Some(row) => is_between(self.top, self.bottom, row),
            None => false,
        }
    }

    fn is_chosen(&self, event: &EventNo) -> bool
        ensures { result ≡ is_chosen self.now event.now }
    {
        self.column_of(event.instance).is_some()
            && is_between(
                self.first as usize,
                self.last as usize,
                event.index as usize,
            )
            && self.is_row_chosen(self.layout.row_of(event))
    }

    fn is_chosen_end(&self, event: &EventNo) -> bool
        ensures { result ≡ is_chosen_end self.now (end_of self.now event.now) }
    {
        match self.end_of(event) {
            Some(end) => self.is_chosen(&end),
            None => false,
        }
    }

    /// Whether an event is drawn, if it has a column.
    pub fn is_shown(&self, event: &EventNo) -> bool
        ensures { result ≡ is_shown self.now event.now }
    {
        self.is_chosen(event) || self.is_chosen_end(event)
    }

    fn is_in_picture(&self, event: &EventNo) -> bool
        ensures { result ≡ is_in_picture self.now event.now }
    {
        self.column_of(event.instance).is_some() && self.is_shown(event)
    }

    /// Whether an event of the row is drawn.
    fn is_row_in_picture(&self, row: &Row) -> bool
        ensures { result ≡ is_row_in_picture self.now row.now }
    {
        match row {
            Row::Message { send, receive } => self.is_in_picture(send)
                || self.is_in_picture(receive),
            Row::Event(event) => self.is_in_picture(event),
        }
    }
}

/// For each of these rows, the number of drawn rows above it, and then the number of all drawn rows. F6: it fails only
/// if there is no memory.
pub fn places_of(
    alloc: Global,
    choice: &Choice<'_>,
    rows: &[Row],
) -> Result<(Vec<u32>, u32), AllocError>
    ensures { IfOk result (λ made. (made.0.items ≡ places_from choice.now 0 rows.now)
        × (made.1 ≡ count_from choice.now 0 rows.now)) }
{
    let mut places = Vec::with_capacity(alloc, rows.len())?;
    let mut count = 0u32;
    for row in rows {
        places.push(count)?;
        if choice.is_row_in_picture(row) {
            count = count.saturating_add(1);
        }
    }
    Ok((places, count))
}
