//! Another run in which a receive overtakes an event.
ghost use Rattle.std.specs.Prelude.{◌≡◌, ◌<◌, ℕ, length, slice_get, Some, IfSome, IfOk, All, option_map};
ghost use Rattle.chart.specs.Histories.{IsLegal};
ghost use Rattle.chart.specs.declared.run_steps.step.Step.{Step};
ghost use Rattle.reordering.specs.Witness.Orders.{IsInOrder};
ghost use Rattle.reordering.specs.Witness.Steps.{IsFound};
ghost use Rattle.chart.specs.RunSteps.Steps.{history_of, place_after, IsReceive, IsOutside};

use crate::witness::needs::Needs;
use crate::witness::numbered::with_turns;
use crate::witness::parting::part;
use chart::run_steps::Step;
use std::alloc::{AllocError, Global};

/// For a run whose lanes have this number of slots, and a receive and another step in it, both by their numbers from 0:
/// a run in which the receive overtakes the event of the other step. It has the same events, causes and slots. The
/// answer is `None` exactly if there is no such run: then the event is the receive, or before it over lanes with this
/// number of slots. The new run has first the receive and the events before it in this sense, and then the other steps.
/// Both are in their earlier order, and outside of coregions.
///
/// F6: it fails only if there is no memory.
pub fn overtake(
    alloc: Global,
    steps: &[Step],
    slots: usize,
    receive: usize,
    earlier: usize,
) -> Result<Option<Vec<Step>>, AllocError>
    requires receive { IsReceive steps.now receive }
    requires earlier { earlier < length steps.now }
    ensures found { IfOk result (λ found. (n : ℕ) (x y : Step) → IsLegal n slots (history_of steps.now)
        → slice_get steps.now earlier ≡ Some x → slice_get steps.now receive ≡ Some y
        → IsFound n slots (history_of steps.now) (place_after steps.now earlier x) (place_after steps.now receive y)
        (option_map (λ run. run.items) found)) }
    ensures order { IfOk result (λ found. IfSome found (λ run. (n : ℕ) (y : Step) → IsLegal n slots (history_of steps.now)
        → slice_get steps.now receive ≡ Some y
        → IsInOrder slots steps.now (place_after steps.now receive y) run.items)) }
    ensures outside { IfOk result (λ found. IfSome found (λ run. All IsOutside run.items)) }
{
    let numbered = with_turns(alloc, steps)?;
    let mut needs = Needs::nothing(alloc)?;
    needs.want(&numbered[receive], slots);
    needs.complete(steps, numbered.as_slice(), slots);
    if needs.has(&numbered[earlier]) {
        return Ok(None);
    }
    Ok(Some(part(alloc, steps, numbered.as_slice(), &needs)?))
}
