//! Events and the steps that make them.
ghost use Rattle.std.specs.Prelude.{ℕ, ◌≡◌, length, slice_get, Some, MatchOption, IsTrue, ◌↔◌};
ghost use Rattle.chart.specs.Charts.{chart_event, chart_lines, IsReceiveFrom};
ghost use Rattle.chart.specs.Histories.{chart_of, IsLegal};
ghost use Rattle.chart.specs.Places.{IsEvent};
ghost use Rattle.chart.specs.declared.run_steps.step.Step.{Step};
ghost use Rattle.chart.specs.RunSteps.Steps.{history_of, place_after};
ghost use Rattle.schedule_replay.specs.ReorderedRuns.Reorderings.{receives};
ghost use Rattle.closure.specs.Faults.{place_of};

use chart::run_steps::Step;
use chart::{Chart, Event, EventNo};

/// The event of this number, or `None` if the chart has none.
pub fn event_of(chart: &Chart, event: EventNo) -> Option<Event>
    ensures { result ≡ chart_event (chart_lines chart.now) (place_of event) }
{
    let lines = chart.lines();
    let line = event.instance.place();
    if line >= lines.len() || event.index == 0 {
        return None;
    }
    lines[line].events().get(event.index as usize - 1).copied()
}

/// Whether the chart has an event of this number.
pub fn has_event(chart: &Chart, event: EventNo) -> bool
    ensures { IsTrue result ↔ IsEvent (chart_lines chart.now) (place_of event) }
{
    event_of(chart, event).is_some()
}

/// Whether there is an event, and it is a receive.
fn receives(event: &Option<Event>) -> bool
    ensures { result ≡ receives event.now }
{
    match event {
        Some(Event::Receive { .. }) => true,
        _ => false,
    }
}

/// Whether the chart has a receive of this number.
pub fn is_receive(chart: &Chart, event: EventNo) -> bool
    ensures { IsTrue result ↔ ((q : ℕ) × IsReceiveFrom (chart_lines chart.now) q (place_of event)) }
{
    receives(&event_of(chart, event))
}

/// The number of the step, from 0, that makes the event. The answer is `None` exactly if there is no such step.
pub fn step_of(steps: &[Step], event: EventNo) -> Option<usize>
    ensures { (n k : ℕ) → IsLegal n k (history_of steps.now)
        → MatchOption result (IsEvent (chart_of (history_of steps.now)) (place_of event) → ⊥)
        (λ place. (x : Step) × (slice_get steps.now place ≡ Some x)
        × (place_after steps.now place x ≡ place_of event)) }
{
    let mut made = 0;
    for place in 0..steps.len() {
        if steps[place].maker() == event.instance {
            made += 1;
            if made == event.index as usize {
                return Some(place);
            }
        }
    }
    None
}
