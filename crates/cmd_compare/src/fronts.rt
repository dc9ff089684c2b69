//! The front of a receive: how many first events of its line come before it.
ghost use Rattle.std.specs.Prelude.{◌≡◌, length, replicate, All, IfOk, OnOk};
ghost use Rattle.chart.specs.Charts.{IsPossible, chart_lines};
ghost use Rattle.chart.specs.Ranges.{IsRange, events_in};
ghost use Rattle.cmd_compare.specs.Fronts.{number_of, front_by, with_front, HasFronts};
ghost use Rattle.cmd_compare.specs.Verdicts.{AreFronts};

use chart::{EventNo, EventRange, InstanceNo, Line, MAX_EVENTS};
use closure::Closure;
use std::alloc::{AllocError, Global};
use std::marker::Model;

/// The number of an event among the events of all lines.
fn number_of(event: &EventNo) -> usize
    ensures { result ≡ number_of event.now }
{
    event.instance.place() * MAX_EVENTS + event.index as usize
}

/// The front of a receive, by its races. It has the events above the first race, or all events above the receive if
/// there is no race.
fn front_by(receive: &EventNo, earlier: &[EventRange]) -> usize
    requires { All IsRange earlier.now }
    ensures { result ≡ front_by receive.now (events_in earlier.now) }
{
    match earlier {
        [] => (receive.index as usize).saturating_sub(1),
        [first, ..] => (first.first.index as usize).saturating_sub(1),
    }
}

/// Stores the front of a receive.
fn put(fronts: &mut Vec<usize>, receive: &EventNo, front: usize)
    ensures { fronts.new.items ≡ with_front fronts.old.items receive.now front }
{
    let number = number_of(receive);
    if number < fronts.len() {
        fronts[number] = front;
    }
}

/// A list of zeros with this length.
fn zeros(alloc: Global, count: usize) -> Result<Vec<usize>, AllocError>
    ensures { IfOk result (λ zeros. zeros.items ≡ replicate count 0) }
{
    let zeros = vec![in alloc; 0; count]?;
    Ok(zeros)
}

/// The front of each receive of a recording, indexed by the receive's number among the events of all lines. Other
/// events of the receive's coregion aren't considered.
fn fronts_of(alloc: Global, closure: &Closure<'_>) -> Result<Vec<usize>, AllocError>
    ensures fronts { IfOk result (λ fronts. HasFronts (chart_lines closure.now) fronts.items) }
    ensures possible { OnOk result (IsPossible (length closure.now) (chart_lines closure.now)) }
{
    let mut fronts = zeros(alloc, closure.len() * MAX_EVENTS + 1)?;
    let mut reporter = closure.reporter()?;
    while let Some(receive) = reporter.next() {
        let front = front_by(&receive, reporter.earlier());
        put(&mut fronts, &receive, front);
    }
    Ok(fronts)
}

/// A possible chart, and the front of each of its receives. Contracts see the chart's lines.
#[derive(Drop)]
pub struct Ordered<'a> {
    closure: &'a Closure<'a>,
    fronts: Vec<usize>,
}

impl<'a> Model for Ordered<'a> {
    ghost use Rattle.std.specs.Prelude.{List, length};
    ghost use Rattle.chart.specs.Charts.{LineView, IsPossible, chart_lines};
    ghost use Rattle.cmd_compare.specs.Fronts.{HasFronts};

    ghost Value = { List LineView };

    ghost view = { λ o. o.closure.now };

    ghost invariant = { λ o. HasFronts (chart_lines o.closure.now) o.fronts.items
        × IsPossible (length o.closure.now) (chart_lines o.closure.now) };
}

impl<'a> Ordered<'a> {
    /// Computes the fronts, by the races of all receives.
    ///
    /// F6: it fails only if there is no memory.
    pub fn of(alloc: Global, closure: &'a Closure<'a>) -> Result<Ordered<'a>, AllocError>
        ensures { IfOk result (λ ordered. ordered ≡ closure.now) }
    {
        let fronts = fronts_of(alloc, closure)?;
        Ok(Ordered { closure, fronts })
    }

    /// The number of lines.
    pub fn len(&self) -> usize
        ensures { result ≡ length self.now }
    {
        self.closure.len()
    }

    /// The chart's lines.
    pub fn lines(&self) -> &[Line]
        ensures { result.now ≡ self.now }
    {
        self.closure.lines()
    }

    /// The fronts of a line's receives, from its first event on.
    pub(crate) fn fronts_on(&self, instance: InstanceNo) -> &[usize]
        ensures fronts { AreFronts (chart_lines self.now) instance result.now }
        ensures possible { IsPossible (length self.now) (chart_lines self.now) }
    {
        let start = instance.place() * MAX_EVENTS + 1;
        if self.fronts.len() < start {
            return &[];
        }
        &self.fronts.as_slice()[start..]
    }
}
