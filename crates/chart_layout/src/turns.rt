//! The next row, if a run says whose turn it is.
ghost use Rattle.std.specs.Prelude.{ℕ, ◌≡◌, ◌<◌, ◌≤◌, suc, length, drop, None, MatchOption};
ghost use Rattle.chart.specs.declared.instance.EventNo.{EventNo};
ghost use Rattle.chart.specs.declared.instance.TheConstants.{MAX_INSTANCES};
ghost use Rattle.chart.specs.Charts.{IsReceiveFrom, chart_lines};
ghost use Rattle.closure.specs.Closures.{IsPossibleChart};
ghost use Rattle.closure.specs.Faults.{place_of};
ghost use Rattle.chart_layout.specs.declared.row.Row.{Row};
ghost use Rattle.chart_layout.specs.Layouts.{is_at, AreInOrder};
ghost use Rattle.chart_layout.specs.Picking.{HasTurn, IsTurn, Comes, actors_of, last_line, later};
ghost use Rattle.chart_layout.specs.Searching.{IsSendRow};
ghost use Rattle.chart_layout.specs.Ways.{IsNextEvent, AreLaidOut};

use crate::finding::{next_of, next_row};
use crate::row::Row;
use crate::rows::Layout;
use chart::{EventNo, InstanceNo};
use closure::Closure;

/// The next event, by the first of the turns.
fn next_by(closure: &Closure<'_>, layout: &Layout, turns: &[InstanceNo]) -> Option<EventNo>
    requires limit { length closure.now ≤ MAX_INSTANCES }
    ensures { MatchOption result
        ((e : EventNo) → HasTurn turns.now e.instance
        → IsNextEvent (chart_lines closure.now) layout.now (place_of e) → ⊥)
        (λ e. HasTurn turns.now e.instance × IsNextEvent (chart_lines closure.now) layout.now (place_of e)) }
{
    match turns {
        [] => None,
        [actor, ..] if actor.place() < closure.len() => next_of(closure, layout, actor.place()),
        _ => None,
    }
}

/// Whether the events are the same.
fn is_same(event: &EventNo, other: &EventNo) -> bool
    ensures { result ≡ is_at (place_of other.now) event.now }
{
    event.instance == other.instance && event.index == other.index
}

/// The row of a send that is next: with its receive, if that is next by the turns after it.
fn send_row(closure: &Closure<'_>, layout: &Layout, send: &EventNo, behind: &[InstanceNo]) -> Row
    requires limit { length closure.now ≤ MAX_INSTANCES }
    requires next { IsNextEvent (chart_lines closure.now) layout.now (place_of send.now) }
    ensures { IsSendRow (chart_lines closure.now) layout.now behind.now send.now result }
{
    let Some(receive) = next_by(closure, layout, behind) else {
        return Row::Event(*send);
    };
    let Some(sender) = closure.send_of(&receive) else {
        return Row::Event(*send);
    };
    if !is_same(&sender, send) {
        return Row::Event(*send);
    }
    Row::Message {
        send: *send,
        receive,
    }
}

/// The turns after the first one.
fn behind(turns: &[InstanceNo]) -> &[InstanceNo]
    ensures { result.now ≡ later turns.now }
{
    match turns {
        [] => &[],
        [_, others @ ..] => others,
    }
}

/// The row of the first turns, if they have one.
fn row_of_turns(closure: &Closure<'_>, layout: &Layout, turns: &[InstanceNo]) -> Option<Row>
    requires limit { length closure.now ≤ MAX_INSTANCES }
    ensures { MatchOption result ((x : Row) → IsTurn (chart_lines closure.now) layout.now turns.now x → ⊥)
        (IsTurn (chart_lines closure.now) layout.now turns.now) }
{
    let Some(event) = next_by(closure, layout, turns) else {
        return None;
    };
    match closure.send_of(&event) {
        None => Some(send_row(closure, layout, &event, behind(turns))),
        Some(send) => match layout.row_of(&send) {
            None => None,
            Some(_) => Some(Row::Event(event)),
        },
    }
}

/// The next row: that of the turns, or else the one that is picked. There is none only if all events have a row.
pub(crate) fn row_below(
    closure: &Closure<'_>,
    layout: &Layout,
    turns: &[InstanceNo],
    hint: usize,
) -> Option<Row>
    requires possible { IsPossibleChart closure.now }
    requires order { AreInOrder layout.now }
    requires hint { (hint < length closure.now) × (last_line layout.now ≡ suc hint) }
    ensures { MatchOption result (AreLaidOut (chart_lines closure.now) (length closure.now) layout.now)
        (Comes (chart_lines closure.now) (length closure.now) layout.now turns.now) }
{
    prove!(closure.len() >= 2);
    match row_of_turns(closure, layout, turns) {
        Some(row) => Some(row),
        None => next_row(closure, layout, hint),
    }
}

/// The turns that are left after each event of a row had one.
pub(crate) fn turns_below<'a>(turns: &'a [InstanceNo], row: &Row) -> &'a [InstanceNo]
    ensures { result.now ≡ drop (length (actors_of row.now)) turns.now }
{
    let events = match row {
        Row::Message { .. } => 2,
        Row::Event(_) => 1,
    };
    if events <= turns.len() {
        &turns[events..]
    } else {
        &[]
    }
}
