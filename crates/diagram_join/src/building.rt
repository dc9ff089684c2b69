//! The chart of a diagram whose lines are joined.
ghost use Rattle.std.specs.Prelude.{◌≡◌, ◌≤◌, length, map, IfOk};
ghost use Rattle.chart.specs.Charts.{chart_lines, IsPossible};
ghost use Rattle.diagrams.specs.Diagrams.{diagram_view, participant_view, item_view};
ghost use Rattle.diagrams.specs.Building.{built};
ghost use Rattle.diagrams.specs.Naming.{named_from};
ghost use Rattle.diagram_join.specs.Coregions.{cut_from};
ghost use Rattle.diagram_join.specs.Building.{joined_chart_view, alone, checked, joined_chart_of, lines_joined, built_joined};
ghost use Rattle.diagram_join.specs.Joined.{Gives, joined_view};
ghost use Rattle.diagram_join.specs.Joins.{join_view};
ghost use Rattle.diagram_labels.specs.Labels.{none};
ghost use Rattle.diagrams.specs.Messages.Following.{AreBuildable};

use crate::error::{JoinError, join_error};
use crate::join::Join;
use crate::joined::{Joined, join_lines};
use crate::moves::Overtaking;
use crate::rows::cut_rows;
use chart::Names;
use diagram_labels::LabelNames;
use diagrams::messages::chart_of;
use diagrams::{
    Diagram, DiagramChart, Item, Message, Participant, build, collect, first_fault, first_full,
    has_no_chart, name_messages, names_of, renamed_labels,
};
use std::alloc::{AllocError, Global};

/// The chart of a diagram whose lines may be joined.
#[derive(Debug, Drop)]
pub struct JoinedChart {
    pub built: DiagramChart,
    /// Messages that are skipped because they overtake another one.
    pub overtaking: Vec<Overtaking>,
}

/// The chart without joins.
fn build_alone(alloc: Global, diagram: Diagram) -> Result<JoinedChart, JoinError>
    ensures built { Gives joined_chart_view result (alone (built (diagram_view diagram))) }
    ensures possible { IfOk result (λ d. IsPossible (length d.built.chart) (chart_lines d.built.chart)) }
    ensures named { IfOk result (λ d. length d.built.names ≡ length d.built.chart) }
{
    match build(alloc, diagram) {
        Ok(built) => Ok(JoinedChart {
            built,
            overtaking: Vec::new(alloc),
        }),
        Err(error) => Err(join_error(error)),
    }
}

/// Refuses messages that cross, instances with too many events, and a single instance.
#[tactic(auto, unfolding(crate::specs::Building::checked))]
fn check(
    alloc: Global,
    fault: Option<u64>,
    messages: &[Message],
    joined: &Joined,
) -> Result<(), JoinError>
    ensures { Gives (λ _. joined_view joined.now) result (checked fault messages.now (joined_view joined.now)) }
{
    if let Some(line) = first_fault(alloc, fault, messages)? {
        return Err(JoinError::NotPossible(line));
    }
    if let Some(line) = first_full(alloc, &joined.messages)? {
        return Err(JoinError::LineFull(line));
    }
    if joined.names.len() < 2 {
        return Err(JoinError::Instances);
    }
    Ok(())
}

/// The chart of the messages that stay, with the names to report.
#[tactic(auto, unfolding(crate::specs::Building::joined_chart_of))]
fn joined_chart_of(
    alloc: Global,
    participants: &[Participant],
    items: &[Item],
    lines: &Names,
    joined: Joined,
) -> Result<JoinedChart, AllocError>
    requires several { 2 ≤ length joined.names }
    requires built { AreBuildable (length joined.names) (named_from none (map item_view items.now)
        (cut_from joined.messages.items 0 joined.messages.items)) }
    ensures built { IfOk result (λ d. joined_chart_view d ≡ joined_chart_of (map participant_view participants.now)
        (map item_view items.now) lines.now (joined_view joined)) }
    ensures possible { IfOk result (λ d. IsPossible (length d.built.chart) (chart_lines d.built.chart)) }
{
    let Joined {
        names,
        messages,
        left_out,
        overtaking,
    } = joined;
    let rows = cut_rows(alloc, &messages)?;
    let mut labels = LabelNames::new(alloc);
    let named = name_messages(alloc, items, &rows, &mut labels)?;
    let chart = chart_of(alloc, &named, names.len())?;
    let renamed = renamed_labels(alloc, participants, lines, &labels)?;
    Ok(JoinedChart {
        built: DiagramChart {
            names,
            chart,
            left_out,
            renamed,
        },
        overtaking,
    })
}

/// The chart with joins.
#[tactic(auto, unfolding(crate::specs::Building::lines_joined, crate::specs::Building::joined_by))]
fn build_with(alloc: Global, diagram: Diagram, joins: &[Join<'_>]) -> Result<JoinedChart, JoinError>
    ensures built { Gives joined_chart_view result (lines_joined (diagram_view diagram) (map join_view joins.now)) }
    ensures possible { IfOk result (λ d. IsPossible (length d.built.chart) (chart_lines d.built.chart)) }
    ensures named { IfOk result (λ d. length d.built.names ≡ length d.built.chart) }
{
    let Diagram {
        participants,
        items,
        left_out,
    } = diagram;
    if has_no_chart(participants.len()) {
        return Err(JoinError::Instances);
    }
    let lines = names_of(alloc, &participants)?;
    let (messages, left_out, fault) = collect(alloc, &lines, &items, left_out)?.into_parts();
    let joined = join_lines(alloc, &participants, &lines, joins, &messages, left_out)?;
    check(alloc, fault, &messages, &joined)?;
    let built = joined_chart_of(alloc, &participants, &items, &lines, joined)?;
    Ok(built)
}

/// The chart of a diagram whose lines are joined, or its refusal. Without joins the result is that of [`build`]. With
/// joins the first of F8, F34, F22, F37, F7 and, for the instances, again F8 refuses. F6 may come at any point. The
/// time is in proportion to n log n for n items.
///
/// The lines of a join are one instance, in the order of the rows. Messages within it are skipped. So are messages that
/// would overtake an earlier one of their lane, and each of these is reported. A coregion stays if no receive of
/// another joined line comes between its receives. If messages cross in the diagram without joins, there is no chart.
pub fn build_joined(
    alloc: Global,
    diagram: Diagram,
    joins: &[Join<'_>],
) -> Result<JoinedChart, JoinError>
    ensures built { Gives joined_chart_view result (built_joined (diagram_view diagram) (map join_view joins.now)) }
    ensures possible { IfOk result (λ d. IsPossible (length d.built.chart) (chart_lines d.built.chart)) }
    ensures named { IfOk result (λ d. length d.built.names ≡ length d.built.chart) }
{
    match joins {
        [] => build_alone(alloc, diagram),
        _ => build_with(alloc, diagram, joins),
    }
}
