//! The chart of a diagram.
ghost use Rattle.std.specs.Prelude.{◌≡◌, ◌≤◌, length, map, IfOk};
ghost use Rattle.chart.specs.Charts.{chart_lines, IsPossible};
ghost use Rattle.diagrams.specs.Diagrams.{diagram_view, participant_view, item_view};
ghost use Rattle.diagrams.specs.Building.{Gives, staying, diagram_chart_view, has_no_chart, chart_built, built};
ghost use Rattle.diagrams.specs.Naming.{named_from};
ghost use Rattle.diagrams.specs.declared.built.BuildError.TheVariants.{Memory};
ghost use Rattle.diagram_labels.specs.Labels.{none};
ghost use Rattle.diagrams.specs.Messages.Following.{AreBuildable};

use crate::collecting::collect;
use crate::crossing::first_fault;
use crate::diagram::{Diagram, Item, Participant};
use crate::full::first_full;
use crate::left_out::LeftOut;
use crate::losing::without_lost;
use crate::message::Message;
use crate::messages::chart_of;
use crate::naming::{name_messages, names_of};
use crate::renaming::renamed_labels;
use chart::{Chart, MAX_INSTANCES, Names};
use diagram_labels::{LabelNames, Renamed};
use std::alloc::{AllocError, AllocFailed, Global};
use thiserror::Error;

/// Why a diagram has no chart.
#[derive(Clone, Copy, Debug, PartialEq, Eq, Error)]
pub enum BuildError {
    /// F6: a growth was refused.
    #[error("there is no memory left")]
    Memory,
    /// F8: there are fewer than two participants, or more than a chart has instances.
    #[error("there are too few instances, or too many")]
    Instances,
    /// F7: the message in this line of the text gives an instance more events than a chart's line holds.
    #[error("line {0}: an instance has too many events")]
    LineFull(u64),
    /// F37: no chart is possible with the arrow or note in this line.
    #[error("line {0}: no chart is possible with this")]
    NotPossible(u64),
}

impl From<AllocError> for BuildError {
    ghost from_gives = { λ _ e. e ≡ Memory };

    fn from(_e: AllocError) -> BuildError {
        BuildError::Memory
    }
}

impl<T: Drop> From<AllocFailed<T>> for BuildError {
    ghost from_gives = { λ _ e. e ≡ Memory };

    fn from(_e: AllocFailed<T>) -> BuildError {
        BuildError::Memory
    }
}

/// The chart of a diagram, with what warnings report about it.
#[derive(Debug, Drop)]
pub struct DiagramChart {
    pub names: Names,
    pub chart: Chart,
    /// The skipped constructs: one entry for each kind.
    pub left_out: Vec<LeftOut>,
    /// The labels whose names have to be reported, those of participants first.
    pub renamed: Vec<Renamed>,
}

/// The collected messages that stay. The lost ones that don't stay are added to the skipped constructs.
#[tactic(auto, unfolding(crate::specs::Building::staying))]
fn staying(
    alloc: Global,
    fault: Option<u64>,
    messages: &[Message],
    left_out: &mut Vec<LeftOut>,
) -> Result<Vec<Message>, BuildError>
    ensures { Gives (λ stay. (stay.items, left_out.new.items)) result (staying fault messages.now left_out.old.items) }
{
    if let Some(line) = first_fault(alloc, fault, messages)? {
        return Err(BuildError::NotPossible(line));
    }
    let stay = without_lost(alloc, messages, left_out)?;
    if let Some(line) = first_full(alloc, &stay)? {
        return Err(BuildError::LineFull(line));
    }
    Ok(stay)
}

/// The chart of the messages that stay, with the names to report.
#[tactic(auto, unfolding(crate::specs::Building::chart_built))]
fn chart_built(
    alloc: Global,
    participants: &[Participant],
    items: &[Item],
    names: Names,
    messages: &[Message],
    left_out: Vec<LeftOut>,
) -> Result<DiagramChart, AllocError>
    requires several { 2 ≤ length names }
    requires built { AreBuildable (length names) (named_from none (map item_view items.now) messages.now) }
    ensures built { IfOk result (λ d. diagram_chart_view d ≡ chart_built (map participant_view participants.now)
        (map item_view items.now) names (messages.now, left_out.items)) }
    ensures possible { IfOk result (λ d. IsPossible (length d.chart) (chart_lines d.chart)) }
{
    let mut labels = LabelNames::new(alloc);
    let named = name_messages(alloc, items, messages, &mut labels)?;
    let chart = chart_of(alloc, &named, names.len())?;
    let renamed = renamed_labels(alloc, participants, &names, &labels)?;
    Ok(DiagramChart {
        names,
        chart,
        left_out,
        renamed,
    })
}

/// Whether no chart has this number of instances.
pub fn has_no_chart(count: usize) -> bool
    ensures { result ≡ has_no_chart count }
{
    count < 2 || MAX_INSTANCES < count
}

/// The chart of a diagram, or the first of F8, F37 and F7 that applies. F6 may come at any point. The time is in
/// proportion to n log n for n items.
///
/// Each participant is an instance, in the order of the text. An arrow that is neither skipped nor lost is a send and a
/// receive. So are two notes that state them in the words of our own exports. A lost message is a send alone. Nothing
/// else is an event.
///
/// The rows decide the order along each line. In each row the sends of an instance come first, in the order of the
/// text, and then its receives. Several receives are a coregion. A lost message is skipped if a later message of its
/// lane is received. Different labels have different names.
#[tactic(auto, unfolding(crate::specs::Building::built, crate::specs::Building::built_by))]
pub fn build(alloc: Global, diagram: Diagram) -> Result<DiagramChart, BuildError>
    ensures built { Gives diagram_chart_view result (built (diagram_view diagram)) }
    ensures possible { IfOk result (λ d. IsPossible (length d.chart) (chart_lines d.chart)) }
    ensures named { IfOk result (λ d. length d.names ≡ length d.chart) }
{
    let Diagram {
        participants,
        items,
        left_out,
    } = diagram;
    if has_no_chart(participants.len()) {
        return Err(BuildError::Instances);
    }
    let names = names_of(alloc, &participants)?;
    let (messages, mut left_out, fault) = collect(alloc, &names, &items, left_out)?.into_parts();
    let messages = staying(alloc, fault, &messages, &mut left_out)?;
    let built = chart_built(alloc, &participants, &items, names, &messages, left_out)?;
    Ok(built)
}
