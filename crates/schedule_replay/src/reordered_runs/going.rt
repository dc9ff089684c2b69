//! How far a run of a chart has come, and its next steps.
ghost use Rattle.std.specs.Prelude.{ℕ, ◌≡◌, ◌+◌, ◌<◌, ◌≤◌, [], ◌∷◌, suc, List, length, replicate, slice_get};
ghost use Rattle.std.specs.Prelude.{slice_index, slice_set, MatchBool, MatchOption, IfOk};
ghost use Rattle.chart.specs.declared.history.Occurrence.{Occurrence};
ghost use Rattle.chart.specs.declared.instance.TheConstants.{MAX_INSTANCES};
ghost use Rattle.chart.specs.declared.line.TheConstants.{MAX_EVENTS};
ghost use Rattle.chart.specs.Charts.{chart_lines};
ghost use Rattle.reordering.specs.Witness.Steps.{HavePassed, HavePassedSome};
ghost use Rattle.chart.specs.RunSteps.Steps.{occurrence_of, maker_of, step_made};
ghost use Rattle.schedule_replay.specs.ReorderedRuns.Runs.{MayCome, IsHeld, IsNext, IsStopped, AreStopped, GoesOnFirst};

use chart::run_steps::Step;
use chart::{Event, InstanceNo, Line, MAX_INSTANCES};
use reordering::witness::Passed;
use std::alloc::{AllocError, Global};

/// The event of a line after the first `made` ones.
fn next_event(lines: &[Line], line: usize, made: usize) -> Option<Event>
    requires { line < length lines.now }
    ensures { result ≡ slice_get (chart_lines lines.now (suc line)) made }
{
    lines[line].events().get(made).copied()
}

/// The step that makes an instance's event, if its lane lets the event come.
fn step_for(passed: &Passed, slots: usize, actor: InstanceNo, event: &Event) -> Option<Step>
    ensures { (h : List Occurrence) → HavePassed passed.now.sends passed.now.receives h
        → MatchOption result (IsHeld slots h actor event.now)
        (λ step. (step ≡ step_made actor event.now) × MayCome slots h actor event.now) }
{
    let may_come = match event {
        Event::Send { to, .. } => passed.waiting(actor, *to) < slots,
        Event::Receive { from, .. } => passed.waiting(*from, actor) > 0,
    };
    if !may_come {
        return None;
    }
    Some(Step::of(actor, event))
}

/// How far a run has come.
#[derive(Drop)]
pub struct Going {
    pub passed: Passed,
    /// The number of events of each line that were made.
    pub made: [usize; MAX_INSTANCES],
}

impl Going {
    /// Nothing was made.
    ///
    /// F6: it fails only if there is no memory.
    pub fn start(alloc: Global) -> Result<Going, AllocError>
        ensures { IfOk result (λ going. HavePassed going.passed.sends going.passed.receives []
            × (going.made ≡ replicate MAX_INSTANCES 0)) }
    {
        Ok(Going {
            passed: Passed::none(alloc)?,
            made: [0; MAX_INSTANCES],
        })
    }

    /// The next step of a line, if its lane lets the step come.
    fn next_of(&self, lines: &[Line], slots: usize, line: usize) -> Option<Step>
        requires limit { length lines.now ≤ MAX_INSTANCES }
        requires line { line < length lines.now }
        ensures { (h : List Occurrence) → HavePassed self.now.passed.sends self.now.passed.receives h
            → MatchOption result (IsStopped (chart_lines lines.now) slots h self.now.made line)
            (IsNext (chart_lines lines.now) slots h self.now.made line) }
    {
        match next_event(lines, line, self.made[line]) {
            None => None,
            Some(event) => step_for(&self.passed, slots, InstanceNo::at_place(line), &event),
        }
    }

    /// The next step of the line that the hint names, or else of the first line that has one.
    pub fn ready(&self, lines: &[Line], slots: usize, hint: usize) -> Option<Step>
        requires limit { length lines.now ≤ MAX_INSTANCES }
        requires hint { hint < length lines.now }
        ensures { (h : List Occurrence) → HavePassed self.now.passed.sends self.now.passed.receives h
            → MatchOption result (AreStopped (chart_lines lines.now) (length lines.now) slots h self.now.made)
            (GoesOnFirst (chart_lines lines.now) (length lines.now) slots h self.now.made hint) }
    {
        if let Some(step) = self.next_of(lines, slots, hint) {
            return Some(step);
        }
        for line in 0..lines.len() {
            if let Some(step) = self.next_of(lines, slots, line) {
                return Some(step);
            }
        }
        None
    }

    /// Makes a step.
    pub fn make(&mut self, step: &Step)
        requires some { HavePassedSome self.old.passed.sends self.old.passed.receives }
        requires room { (line : ℕ) → maker_of step.now ≡ suc line → slice_index self.old.made line < MAX_EVENTS }
        ensures passed { (h : List Occurrence) → HavePassed self.old.passed.sends self.old.passed.receives h
            → HavePassed self.new.passed.sends self.new.passed.receives (occurrence_of step.now ∷ h) }
        ensures made { (line : ℕ) → maker_of step.now ≡ suc line
            → self.new.made ≡ slice_set self.old.made line (slice_index self.old.made line + 1) }
    {
        self.passed.next(step);
        self.made[step.maker().place()] += 1;
    }

    /// Whether all events of all lines were made.
    pub fn is_done(&self, lines: &[Line]) -> bool
        requires { length lines.now ≤ MAX_INSTANCES }
        ensures { MatchBool result
            ((p : ℕ) → p < length lines.now → length (chart_lines lines.now (suc p)) ≤ slice_index self.now.made p)
            ((p : ℕ) × (p < length lines.now)
            × (slice_index self.now.made p < length (chart_lines lines.now (suc p)))) }
    {
        for line in 0..lines.len() {
            if self.made[line] < lines[line].len() {
                return false;
            }
        }
        true
    }
}
