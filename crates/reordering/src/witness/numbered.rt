//! The steps of a run, each with its turn on its lane.
ghost use Rattle.std.specs.Prelude.{◌≡◌, [], ◌∷◌, List, length, IfOk};
ghost use Rattle.chart.specs.declared.history.Occurrence.{Occurrence};
ghost use Rattle.chart.specs.Histories.{waiting};
ghost use Rattle.reordering.specs.Witness.Steps.{AreNumbered, HavePassed, HavePassedSome};
ghost use Rattle.chart.specs.RunSteps.Steps.{occurrence_of, turn_of};

use crate::witness::counts::Counts;
use chart::InstanceNo;
use chart::run_steps::Step;
use std::alloc::{AllocError, Global};

/// A step with its turn: its number among the sends, or the receives, of its lane, from 1.
#[derive(Clone, Copy)]
pub struct NumberedStep {
    pub step: Step,
    pub turn: usize,
}

/// The number of sends and of receives that each lane has had.
#[derive(Drop)]
pub struct Passed {
    pub sends: Counts,
    pub receives: Counts,
}

impl Passed {
    /// Nothing has passed.
    ///
    /// F6: it fails only if there is no memory.
    pub fn none(alloc: Global) -> Result<Passed, AllocError>
        ensures { IfOk result (λ passed. HavePassed passed.sends passed.receives []) }
    {
        Ok(Passed {
            sends: Counts::zeros(alloc)?,
            receives: Counts::zeros(alloc)?,
        })
    }

    /// The number of messages that wait on a lane.
    pub fn waiting(&self, from: InstanceNo, to: InstanceNo) -> usize
        ensures { (h : List Occurrence) → HavePassed self.now.sends self.now.receives h
            → result ≡ length (waiting h from to) }
    {
        self.sends
            .at(from, to)
            .saturating_sub(self.receives.at(from, to))
    }

    /// Makes the next step, and returns its turn.
    pub fn next(&mut self, step: &Step) -> usize
        requires { HavePassedSome self.old.sends self.old.receives }
        ensures { (h : List Occurrence) → HavePassed self.old.sends self.old.receives h
            → (result ≡ turn_of h step.now)
            × HavePassed self.new.sends self.new.receives (occurrence_of step.now ∷ h) }
    {
        match step {
            Step::Send { from, to, .. } => {
                let turn = self.sends.at(*from, *to) + 1;
                self.sends.raise(*from, *to, turn);
                turn
            }
            Step::Receive { at, from, .. } => {
                let turn = self.receives.at(*from, *at) + 1;
                self.receives.raise(*from, *at, turn);
                turn
            }
        }
    }
}

/// The steps of a run with their turns.
///
/// F6: it fails only if there is no memory.
pub fn with_turns(alloc: Global, steps: &[Step]) -> Result<Vec<NumberedStep>, AllocError>
    ensures { IfOk result (λ numbered. AreNumbered steps.now (length steps.now) numbered.items) }
{
    let mut passed = Passed::none(alloc)?;
    let mut numbered = Vec::new(alloc);
    for place in 0..steps.len() {
        let step = steps[place];
        let turn = passed.next(&step);
        numbered.push(NumberedStep { step, turn })?;
    }
    Ok(numbered)
}
