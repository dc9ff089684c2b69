//! The steps that have to come with a receive.
ghost use Rattle.std.specs.Prelude.{◌≡◌, List, length, IfOk};
ghost use Rattle.reordering.specs.OtherRuns.Walks.{Wanted, wanted};
ghost use Rattle.reordering.specs.Witness.Steps.{AreNumbered, is_within, is_wanted, with_step, nothing, StandFor};
ghost use Rattle.chart.specs.RunSteps.Steps.{history_of};

use crate::witness::counts::Counts;
use crate::witness::numbered::NumberedStep;
use chart::MAX_INSTANCES;
use chart::run_steps::Step;
use std::alloc::{AllocError, Global};

/// A number of sends and of receives of each lane, and the lines of which all remaining steps have to come.
#[derive(Drop)]
pub struct Needs {
    sends: Counts,
    receives: Counts,
    lines: [bool; MAX_INSTANCES],
}

impl Needs {
    /// Nothing has to come.
    ///
    /// F6: it fails only if there is no memory.
    pub fn nothing(alloc: Global) -> Result<Needs, AllocError>
        ensures { IfOk result (λ needs. StandFor needs.sends needs.receives needs.lines nothing) }
    {
        Ok(Needs {
            sends: Counts::zeros(alloc)?,
            receives: Counts::zeros(alloc)?,
            lines: [false; MAX_INSTANCES],
        })
    }

    /// Whether a step is among those that have to come.
    pub fn has(&self, numbered: &NumberedStep) -> bool
        ensures { (w : Wanted) → StandFor self.now.sends self.now.receives self.now.lines w
            → result ≡ is_within w numbered.now.step numbered.now.turn }
    {
        match &numbered.step {
            Step::Send { from, to, .. } => numbered.turn <= self.sends.at(*from, *to),
            Step::Receive { at, from, .. } => numbered.turn <= self.receives.at(*from, *at),
        }
    }

    /// Whether the newest remaining step has to come.
    fn wants(&self, numbered: &NumberedStep) -> bool
        ensures { (w : Wanted) → StandFor self.now.sends self.now.receives self.now.lines w
            → result ≡ is_wanted w numbered.now.step numbered.now.turn }
    {
        let line = match &numbered.step {
            Step::Send { from, .. } => self.lines[from.place()],
            Step::Receive { at, .. } => self.lines[at.place()],
        };
        line || self.has(numbered)
    }

    /// The step has to come, over lanes with this number of slots. With a send come all remaining steps of its line,
    /// and the receive that frees its slot. With a receive comes its send.
    pub fn want(&mut self, numbered: &NumberedStep, slots: usize)
        ensures { (w : Wanted) → StandFor self.old.sends self.old.receives self.old.lines w
            → StandFor self.new.sends self.new.receives self.new.lines
            (with_step slots w numbered.now.step numbered.now.turn) }
    {
        match &numbered.step {
            Step::Send { from, to, .. } => {
                self.sends.raise(*from, *to, numbered.turn);
                self.receives
                    .raise(*from, *to, numbered.turn.saturating_sub(slots));
                self.lines[from.place()] = true;
            }
            Step::Receive { at, from, .. } => {
                self.sends.raise(*from, *at, numbered.turn);
                self.receives.raise(*from, *at, numbered.turn);
            }
        }
    }

    /// Adds all steps that have to come with those that have to come, from the last step to the first.
    pub fn complete(&mut self, steps: &[Step], numbered: &[NumberedStep], slots: usize)
        requires { AreNumbered steps.now (length steps.now) numbered.now }
        ensures { (w : Wanted) → StandFor self.old.sends self.old.receives self.old.lines w
            → StandFor self.new.sends self.new.receives self.new.lines (wanted slots (history_of steps.now) w) }
    {
        let many = steps.len();
        for place in 0..many {
            let newest = &numbered[many - 1 - place];
            if self.wants(newest) {
                self.want(newest, slots);
            }
        }
    }
}
