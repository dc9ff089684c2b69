//! The earlier events of a receive that are shown.
ghost use Rattle.std.specs.Prelude.{◌≡◌};
ghost use Rattle.chart.specs.Events.{ith};
ghost use Rattle.shown_races.specs.Kept.{is_kept_after, receives};

use chart::{Event, EventNo};

/// The event of a line with this number, from 1, if the line has one.
pub fn event_at(events: &[Event], index: usize) -> Option<Event>
    ensures { result ≡ ith events.now index }
{
    if index == 0 {
        return None;
    }
    events.get(index - 1).copied()
}

/// Whether this is a receive.
fn receives(event: Option<Event>) -> bool
    ensures { result ≡ receives event }
{
    matches!(event, Some(Event::Receive { .. }))
}

/// Whether an earlier event of the line is shown. Events up to the number `passed` aren't shown. With `only` only
/// receives are shown.
pub fn is_kept(events: &[Event], only: bool, passed: u32, event: &EventNo) -> bool
    ensures { result ≡ is_kept_after events.now only passed event.now }
{
    if event.index <= passed {
        false
    } else if only {
        receives(event_at(events, event.index as usize))
    } else {
        true
    }
}
