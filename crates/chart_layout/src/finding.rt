//! The search for the next row.
ghost use Rattle.std.specs.Prelude.{ℕ, ◌≡◌, ◌<◌, ◌≤◌, suc, length, nat_lt, if◌then◌else◌, MatchOption};
ghost use Rattle.chart.specs.declared.instance.TheConstants.{MAX_INSTANCES};
ghost use Rattle.chart.specs.declared.line.TheConstants.{MAX_EVENTS};
ghost use Rattle.chart.specs.Charts.{chart_event, chart_lines};
ghost use Rattle.closure.specs.Closures.{IsPossibleChart};
ghost use Rattle.closure.specs.Faults.{place_of};
ghost use Rattle.chart_layout.specs.Layouts.{laid_out, AreInOrder};
ghost use Rattle.chart_layout.specs.Picking.{last_line, sought_on, IsFirst, IsPicked};
ghost use Rattle.chart_layout.specs.Searching.{IsHighestOf, higher};
ghost use Rattle.chart_layout.specs.Ways.{IsArrival, IsNextEvent, IsWay, HasNoArrival, HasNoWay, HaveNoWay, AreLaidOut};

use crate::row::Row;
use crate::rows::Layout;
use chart::{Event, EventNo, InstanceNo, Line};
use closure::Closure;

/// How an event comes next, except for a receive whose send is above.
#[derive(Clone, Copy)]
pub(crate) enum Way {
    /// As an end of a message whose other end is next, too.
    Level,
    /// Alone, as a send.
    Early,
}

/// A receive that is next, and the row of its send.
#[derive(Clone, Copy)]
pub(crate) struct Arrival {
    receive: EventNo,
    row: usize,
}

/// The number of events of a line.
pub(crate) fn len_of(lines: &[Line], line: usize) -> usize
    requires { line < length lines.now }
    ensures value { result ≡ length (chart_lines lines.now (suc line)) }
    ensures limit { result ≤ MAX_EVENTS }
{
    lines[line].len()
}

/// The event of this number, if the lines have it.
pub fn event_in(lines: &[Line], event: &EventNo) -> Option<Event>
    ensures { result ≡ chart_event (chart_lines lines.now) (place_of event.now) }
{
    if event.index == 0 {
        return None;
    }
    match lines.get(event.instance.place()) {
        Some(line) => line.events().get(event.index as usize - 1).copied(),
        None => None,
    }
}

/// The next event of a line, if one is left.
pub(crate) fn next_of(closure: &Closure<'_>, layout: &Layout, line: usize) -> Option<EventNo>
    requires limit { length closure.now ≤ MAX_INSTANCES }
    requires line { line < length closure.now }
    ensures { MatchOption result
        (length (chart_lines closure.now (suc line)) ≤ length (laid_out layout.now (suc line)))
        (λ event. (event.instance ≡ suc line) × IsNextEvent (chart_lines closure.now) layout.now (place_of event)) }
{
    let instance = InstanceNo::at_place(line);
    let laid_out = layout.laid_out(instance);
    if laid_out >= len_of(closure.lines(), line) {
        return None;
    }
    Some(EventNo {
        instance,
        index: laid_out as u32 + 1,
    })
}

/// The next event of a line, if it is a receive whose send is above.
fn arrival_on(closure: &Closure<'_>, layout: &Layout, line: usize) -> Option<Arrival>
    requires limit { length closure.now ≤ MAX_INSTANCES }
    requires line { line < length closure.now }
    ensures { MatchOption result (HasNoArrival (chart_lines closure.now) layout.now line)
        (λ arrival. (arrival.receive.instance ≡ suc line)
        × IsArrival (chart_lines closure.now) layout.now (place_of arrival.receive) arrival.row) }
{
    let Some(receive) = next_of(closure, layout, line) else {
        return None;
    };
    let Some(send) = closure.send_of(&receive) else {
        return None;
    };
    match layout.row_of(&send) {
        None => None,
        Some(row) => Some(Arrival { receive, row }),
    }
}

/// The arrival of the two whose send is higher, or the first one if they are level.
fn higher(one: &Arrival, other: &Arrival) -> Arrival
    ensures { result ≡ (if nat_lt other.now.row one.now.row then other.now else one.now) }
{
    if other.row < one.row { *other } else { *one }
}

/// The arrival of two lines whose send is higher, if they have one.
fn highest_of(best: &Option<Arrival>, found: &Option<Arrival>) -> Option<Arrival>
    ensures { result ≡ higher best.now found.now }
{
    match (best, found) {
        (Some(one), Some(other)) => Some(higher(one, other)),
        (Some(one), None) => Some(*one),
        (None, None) => None,
        (None, Some(other)) => Some(*other),
    }
}

/// The receive whose send is highest, among those that are next and whose sends are above.
fn highest(closure: &Closure<'_>, layout: &Layout) -> Option<Arrival>
    requires limit { length closure.now ≤ MAX_INSTANCES }
    ensures { IsHighestOf (chart_lines closure.now) (length closure.now) layout.now result }
{
    let mut best: Option<Arrival> = None;
    for line in 0..closure.len() {
        best = highest_of(&best, &arrival_on(closure, layout, line));
    }
    best
}

/// The row that a next event makes in this way.
fn row_with(closure: &Closure<'_>, layout: &Layout, way: Way, event: &EventNo) -> Option<Row>
    requires { IsNextEvent (chart_lines closure.now) layout.now (place_of event.now) }
    ensures { (line : ℕ) → event.now.instance ≡ suc line
        → MatchOption result (HasNoWay (chart_lines closure.now) layout.now way line)
        (λ row. IsWay (chart_lines closure.now) layout.now way row × (sought_on row ≡ suc line)) }
{
    let Some(send) = closure.send_of(event) else {
        return match way {
            Way::Early => Some(Row::Event(*event)),
            Way::Level => None,
        };
    };
    let laid_out = layout.laid_out(send.instance);
    match way {
        Way::Level if send.index as usize - 1 == laid_out => Some(Row::Message {
            send,
            receive: *event,
        }),
        _ => None,
    }
}

/// The row that the next event of a line makes in this way.
fn row_on(closure: &Closure<'_>, layout: &Layout, way: Way, line: usize) -> Option<Row>
    requires limit { length closure.now ≤ MAX_INSTANCES }
    requires line { line < length closure.now }
    ensures { MatchOption result (HasNoWay (chart_lines closure.now) layout.now way line)
        (λ row. IsWay (chart_lines closure.now) layout.now way row × (sought_on row ≡ suc line)) }
{
    match next_of(closure, layout, line) {
        None => None,
        Some(event) => row_with(closure, layout, way, &event),
    }
}

/// The next row in this way, on the line of the hint, or else on the first line that has one.
fn row_by(closure: &Closure<'_>, layout: &Layout, way: Way, hint: usize) -> Option<Row>
    requires limit { length closure.now ≤ MAX_INSTANCES }
    requires hint { hint < length closure.now }
    ensures { MatchOption result (HaveNoWay (chart_lines closure.now) (length closure.now) layout.now way)
        (λ row. IsWay (chart_lines closure.now) layout.now way row
        × IsFirst (chart_lines closure.now) layout.now way (suc hint) row) }
{
    if let Some(row) = row_on(closure, layout, way, hint) {
        return Some(row);
    }
    for line in 0..closure.len() {
        if let Some(row) = row_on(closure, layout, way, line) {
            return Some(row);
        }
    }
    None
}

/// The next row, with the search beginning on the line of the hint. It is the receive whose send is highest, among
/// those whose sends are above; or else a message of which both ends are next; or else a send. There is none only if
/// all events have a row.
pub(crate) fn next_row(closure: &Closure<'_>, layout: &Layout, hint: usize) -> Option<Row>
    requires possible { IsPossibleChart closure.now }
    requires order { AreInOrder layout.now }
    requires hint { (hint < length closure.now) × (last_line layout.now ≡ suc hint) }
    ensures { MatchOption result (AreLaidOut (chart_lines closure.now) (length closure.now) layout.now)
        (IsPicked (chart_lines closure.now) (length closure.now) layout.now) }
{
    if let Some(arrival) = highest(closure, layout) {
        return Some(Row::Event(arrival.receive));
    }
    if let Some(row) = row_by(closure, layout, Way::Level, hint) {
        return Some(row);
    }
    row_by(closure, layout, Way::Early, hint)
}
