//! A run in which the steps that have to come are put first.
ghost use Rattle.std.specs.Prelude.{◌≡◌, ◌++◌, length, not, IfOk, All};
ghost use Rattle.reordering.specs.OtherRuns.Walks.{Wanted, parted};
ghost use Rattle.reordering.specs.Witness.Orders.{picked};
ghost use Rattle.reordering.specs.Witness.Steps.{AreNumbered, StandFor, comes};
ghost use Rattle.chart.specs.RunSteps.Steps.{history_of, IsOutside};

use crate::witness::needs::Needs;
use crate::witness::numbered::NumberedStep;
use chart::run_steps::Step;
use std::alloc::{AllocError, Global};

/// The steps that have to come, and then the others, each in its earlier order and outside of coregions.
///
/// F6: it fails only if there is no memory.
pub fn part(
    alloc: Global,
    steps: &[Step],
    numbered: &[NumberedStep],
    needs: &Needs,
) -> Result<Vec<Step>, AllocError>
    requires { AreNumbered steps.now (length steps.now) numbered.now }
    ensures history { IfOk result (λ run. (w : Wanted) → StandFor needs.now.sends needs.now.receives needs.now.lines w
        → history_of run.items ≡ parted w.sends w.receives (history_of steps.now) (history_of steps.now)) }
    ensures order { IfOk result (λ run. (w : Wanted) → StandFor needs.now.sends needs.now.receives needs.now.lines w
        → run.items ≡ picked (comes w steps.now) steps.now (length steps.now)
        ++ picked (λ i. not (comes w steps.now i)) steps.now (length steps.now)) }
    ensures outside { IfOk result (λ run. All IsOutside run.items) }
{
    let mut first = Vec::new(alloc);
    let mut others = Vec::new(alloc);
    for place in 0..steps.len() {
        let step = steps[place].outside_regions();
        if needs.has(&numbered[place]) {
            first.push(step)?;
        } else {
            others.push(step)?;
        }
    }
    first.extend_from_slice(others.as_slice())?;
    Ok(first)
}
