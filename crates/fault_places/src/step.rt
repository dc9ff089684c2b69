//! The steps of a cycle, by the names of instances and the lines of the text.
ghost use Rattle.std.specs.Prelude.{◌≡◌, ◌≤◌, length, map, IfOk};
ghost use Rattle.chart.specs.Charts.{Place, chart_lines, HasNoSend};
ghost use Rattle.chart.specs.Order.{IsCyclic};
ghost use Rattle.texts.specs.Instances.{name_at};
ghost use Rattle.fault_places.specs.NamedCycles.{named_event, step_of, HasNames, HaveNames, AreStepsOf};

use crate::lines::line_of_event;
use chart::{Chart, EventNo, InstanceNo, Name, Names};
use closure::chain::{Link, Rule};
use closure::cycle::shortest_cycle;
use std::alloc::{AllocError, Global};

/// An event: the name of its instance, and its number on that line.
#[derive(Clone, Copy, Debug)]
pub struct NamedEvent {
    pub name: Name,
    pub index: u32,
}

/// A direct step of the enforced order.
#[derive(Clone, Copy, Debug)]
pub struct Step {
    /// The number of the line with the earlier event.
    pub line: u64,
    pub earlier: NamedEvent,
    pub later: NamedEvent,
    pub rule: Rule,
}

fn name_of(names: &Names, instance: InstanceNo) -> Name
    requires { instance ≤ length names.now }
    ensures { result ≡ name_at names.now instance }
{
    let place = instance.place();
    prove!(place < names.len());
    match names.name(instance) {
        Some(name) => name,
        None => unreachable!(),
    }
}

fn named_event(names: &Names, event: &EventNo) -> NamedEvent
    requires { event.now.instance ≤ length names.now }
    ensures { result ≡ named_event names.now event.now }
{
    NamedEvent {
        name: name_of(names, event.instance),
        index: event.index,
    }
}

fn step_of(text: &[u8], names: &Names, link: &Link) -> Step
    requires { HasNames names.now link.now }
    ensures { result ≡ step_of text.now names.now link.now }
{
    Step {
        line: line_of_event(text, link.earlier.instance.number(), link.earlier.index),
        earlier: named_event(names, &link.earlier),
        later: named_event(names, &link.later),
        rule: link.rule,
    }
}

fn all_of(
    alloc: Global,
    text: &[u8],
    names: &Names,
    links: &[Link],
) -> Result<Vec<Step>, AllocError>
    requires { HaveNames names.now links.now }
    ensures { IfOk result (λ steps. steps.items ≡ map (step_of text.now names.now) links.now) }
{
    let mut steps = Vec::new(alloc);
    for link in links {
        steps.push(step_of(text, names, link))?;
    }
    Ok(steps)
}

/// The steps of a shortest cycle of a chart. All receives of the chart have their sends, its instances have these
/// names, and some event is before itself. F6 is the only refusal.
pub fn steps_of(
    alloc: Global,
    text: &[u8],
    names: &Names,
    chart: &Chart,
) -> Result<Vec<Step>, AllocError>
    requires sends { (r : Place) → HasNoSend (chart_lines chart.now) r → ⊥ }
    requires names { length chart.now ≡ length names.now }
    requires cyclic { IsCyclic (chart_lines chart.now) }
    ensures { IfOk result (λ steps. AreStepsOf text.now names.now chart.now steps.items) }
{
    match shortest_cycle(alloc, chart)? {
        Some(links) => all_of(alloc, text, names, links.as_slice()),
        None => unreachable!(),
    }
}
