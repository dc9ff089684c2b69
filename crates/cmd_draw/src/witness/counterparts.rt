//! Finds an event of a chart in another run of the same programs.
ghost use Rattle.std.specs.Prelude.{◌≡◌, ◌≤◌, length, take};
ghost use Rattle.chart.specs.Charts.{chart_lines};
ghost use Rattle.chart.specs.declared.line.TheConstants.{MAX_EVENTS};
ghost use Rattle.cmd_draw.specs.Witness.Counterparts.{is_like, turn_of, nth, nth_on, counterpart};

use chart::line_events::events_of;
use chart::{Event, EventNo, Line};
use chart_layout::event_in;

/// Whether both are sends to one instance, or receives from one instance.
fn is_like(event: &Event, other: &Event) -> bool
    ensures { result ≡ is_like event.now other.now }
{
    match (event, other) {
        (Event::Send { to, .. }, Event::Send { to: other, .. }) => *other == *to,
        (Event::Receive { from, .. }, Event::Receive { from: other, .. }) => *other == *from,
        _ => false,
    }
}

/// The number of the events that are like this one.
fn turn_of(line: &[Event], event: &Event) -> usize
    ensures { result ≡ turn_of line.now event.now }
{
    line.iter().filter(|other| is_like(event, other)).count()
}

/// The number, from 1, of the turn-th event of a line that is like this one.
fn nth(event: &Event, turn: usize, line: &[Event]) -> Option<u32>
    requires { length line.now ≤ MAX_EVENTS }
    ensures { result ≡ nth event.now turn 1 line.now }
{
    let mut left = turn;
    let mut index = 1u32;
    for other in line {
        if is_like(event, other) {
            if left == 1 {
                return Some(index);
            }
            left = left.saturating_sub(1);
        }
        index += 1;
    }
    None
}

/// The events of a line, up to the one with this number.
fn front_of(line: &[Event], index: usize) -> &[Event]
    ensures { result.now ≡ take index line.now }
{
    if index < line.len() {
        &line[..index]
    } else {
        line
    }
}

/// The number of an event's counterpart on the line `there`.
fn nth_on(line: &[Event], there: &[Event], event: &Event, index: usize) -> Option<u32>
    requires { length there.now ≤ MAX_EVENTS }
    ensures { result ≡ nth_on line.now there.now event.now index }
{
    nth(event, turn_of(front_of(line, index), event), there)
}

/// The counterpart of an event in another chart. It is on the same line, at the same end of the same lane, and has the
/// same turn there.
pub(crate) fn counterpart(lines: &[Line], others: &[Line], event: &EventNo) -> Option<EventNo>
    ensures { result ≡ counterpart lines.now others.now event.now }
{
    let found = event_in(lines, event)?;
    let line = events_of(lines, event.instance);
    let there = events_of(others, event.instance);
    let index = nth_on(line, there, &found, event.index as usize)?;
    Some(EventNo {
        instance: event.instance,
        index,
    })
}
