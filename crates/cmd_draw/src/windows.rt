//! The chosen rows of a picture.
ghost use Rattle.std.specs.Prelude.{◌≡◌, ◌≤◌, ◌-◌, length, MatchResult};
ghost use Rattle.chart.specs.declared.line.TheConstants.{MAX_EVENTS};
ghost use Rattle.cmd_draw.specs.Windows.{event_on, event_named, round, IsWindow, HasNoWindow};
ghost use Rattle.cmd_draw.specs.declared.windows.Rows.TheVariants as rows;
ghost use Rattle.chart_layout.specs.Layouts.{IsDrawing};
ghost use Rattle.cmd_base.specs.Named.Asked.{has_event};

use crate::events::Events;
use chart::line_events::events_of;
use chart::{Event, EventNo, InstanceNo, Line, Names};
use chart_layout::Layout;
use cmd_base::named::{Missing, has_event, instance_named, missing_on};

/// An event: the name of its instance, and its number on the line, from 1.
#[derive(Clone, Copy, Debug)]
pub struct Around<'a> {
    pub instance: &'a [u8],
    pub event: u64,
}

/// The way in which the rows of a picture are chosen.
#[derive(Clone, Copy, Debug)]
pub enum Rows<'a> {
    /// The rows with these numbers, from 1.
    Between(Events),
    /// The row of an event, and up to twelve rows above and below it.
    Around(Around<'a>),
}

/// The places of the first and the last chosen row, from 0.
#[derive(Clone, Copy)]
pub struct Window {
    pub top: usize,
    pub bottom: usize,
}

/// The place of a row, from 0, for its number, from 1.
fn place_of(row: u32) -> usize
    ensures { result ≡ row - 1 }
{
    row.saturating_sub(1) as usize
}

/// The event with this number, if the instance's line has one.
fn event_on(
    names: &Names,
    instance: InstanceNo,
    events: &[Event],
    number: u64,
) -> Result<EventNo, Missing>
    requires instance { instance ≤ length names.now }
    requires short { length events.now ≤ MAX_EVENTS }
    ensures { result ≡ event_on names.now instance events.now number }
{
    if !has_event(events, number) {
        return Err(missing_on(names, instance, events));
    }
    Ok(EventNo {
        instance,
        index: number as u32,
    })
}

/// The named event, or what the chart lacks.
fn event_named(names: &Names, lines: &[Line], around: &Around<'_>) -> Result<EventNo, Missing>
    ensures { result ≡ event_named (names.now, lines.now) around.now }
{
    match instance_named(names, around.instance) {
        None => Err(Missing::Instance),
        Some(instance) => event_on(names, instance, events_of(lines, instance), around.event),
    }
}

/// A row, with up to twelve rows above it and up to twelve below it.
fn round(row: usize) -> Window
    ensures { result ≡ round row }
{
    Window {
        top: row.saturating_sub(12),
        bottom: row.saturating_add(12),
    }
}

/// The rows around a named event, or what the chart lacks.
fn window_round(
    names: &Names,
    lines: &[Line],
    layout: &Layout,
    around: &Around<'_>,
) -> Result<Window, Missing>
    requires { IsDrawing lines.now layout.now }
    ensures { MatchResult result (IsWindow (names.now, lines.now) layout.now (rows.Around around.now))
        (λ missing. event_named (names.now, lines.now) around.now ≡ Err missing) }
{
    let event = event_named(names, lines, around)?;
    match layout.row_of(&event) {
        Some(row) => Ok(round(row)),
        None => unreachable!(),
    }
}

/// The chosen rows of a chart's layout. It refuses exactly if they are those around an event that the chart doesn't
/// have. The error is what the chart lacks.
pub fn window_in(
    names: &Names,
    lines: &[Line],
    layout: &Layout,
    rows: &Rows<'_>,
) -> Result<Window, Missing>
    requires { IsDrawing lines.now layout.now }
    ensures { MatchResult result (IsWindow (names.now, lines.now) layout.now rows.now)
        (HasNoWindow (names.now, lines.now) rows.now) }
{
    match rows {
        Rows::Between(rows) => Ok(Window {
            top: place_of(rows.first),
            bottom: place_of(rows.last),
        }),
        Rows::Around(around) => window_round(names, lines, layout, around),
    }
}
