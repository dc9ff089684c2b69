//! What can be shown for a receive and an event that it may overtake.
ghost use Rattle.std.specs.Prelude.{ℕ, ◌≤◌, length, IfOk};
ghost use Rattle.chart.specs.Charts.{Chart, Place};
ghost use Rattle.schedule_replay.specs.ReorderedRuns.Reorderings.{IsReordered};
ghost use Rattle.schedule_replay.specs.ReorderedRuns.Showing.{IsShown, HasSteps};

use crate::reordered_runs::overtaking::Reordered;
use crate::reordered_runs::scheduling::schedule_of;
use chart::Names;
use schedule::{Capacity, Schedule};
use std::alloc::{AllocError, Global};

/// What can be shown.
#[derive(Debug, Drop)]
pub enum Shown {
    /// A schedule that means a run in which the receive overtakes the event.
    Replay(Schedule),
    /// No run of the same events and causes has the receive first, whatever the slots.
    Enforced,
    /// Such a run needs this number of slots, which is more than the lanes of a schedule have.
    TooManySlots(usize),
}

/// What can be shown for instances with these names, given a found run: a schedule with the least number of slots. It
/// has a command for each step of the run, in order.
///
/// F6: it fails only if there is no memory.
pub fn show(alloc: Global, names: &Names, reordered: &Reordered) -> Result<Shown, AllocError>
    requires several { 2 ≤ length names.now }
    requires reordered { (first : ℕ) × (c : Chart) × (e : Place) × (r : Place)
        × IsReordered (length names.now) first c e r reordered.now }
    ensures steps { IfOk result (HasSteps reordered.now) }
    ensures shown { IfOk result (λ shown. (first : ℕ) (c : Chart) (e r : Place) → 1 ≤ first
        → IsReordered (length names.now) first c e r reordered.now → IsShown names.now first c e r shown) }
{
    match reordered {
        Reordered::Enforced => Ok(Shown::Enforced),
        Reordered::Run { slots, steps } => match Capacity::new(*slots) {
            None => Ok(Shown::TooManySlots(*slots)),
            Some(capacity) => {
                let schedule = schedule_of(alloc, names, capacity, steps.as_slice())?;
                Ok(Shown::Replay(schedule))
            }
        },
    }
}
