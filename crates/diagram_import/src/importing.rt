//! Whole texts.
ghost use Rattle.std.specs.Prelude.{◌≡◌, None, length, map, IfOk};
ghost use Rattle.chart.specs.Charts.{chart_lines, IsPossible};
ghost use Rattle.diagram_join.specs.Building.{joined_chart_view};
ghost use Rattle.diagram_join.specs.Joins.{join_view};
ghost use Rattle.diagram_import.specs.Refusals.{Gives};
ghost use Rattle.diagram_import.specs.Importing.{options_view, behind_mark, with_place, first_place, first_overtaking, strictly, imported_from, imported};

use crate::error::ImportError;
use crate::places::words_at;
use crate::reading::{diagram_in, tool_in};
use crate::skipping::{Skip, blanked, count_of_lines, is_beyond};
use diagram_join::{Join, JoinError, JoinedChart, Overtaking, build_joined};
use diagram_tool::Tool;
use diagrams::{LeftOut, Place};
use std::alloc::Global;

/// How a text is imported.
#[derive(Clone, Copy, Debug)]
pub struct Options<'a> {
    /// The lines to skip.
    pub skipped: &'a [Skip],
    /// The lines of the diagram to join.
    pub joins: &'a [Join<'a>],
    /// Whether the first construct that would be skipped is refused.
    pub is_strict: bool,
}

/// The text after its byte order mark, if it begins with one.
#[tactic(auto, unfolding(crate::specs::Importing::behind_mark))]
pub fn behind_mark(text: &[u8]) -> &[u8]
    ensures { result.now ≡ behind_mark text.now }
{
    if text.starts_with(&[0xef, 0xbb, 0xbf]) {
        &text[3..]
    } else {
        text
    }
}

/// The earlier of two places: the one so far, if there is one, and this one.
fn with_place(so_far: Option<Place>, place: Place) -> Option<Place>
    ensures { result ≡ with_place so_far place }
{
    match so_far {
        None => Some(place),
        Some(first) => {
            if place.is_before(&first) {
                Some(place)
            } else {
                Some(first)
            }
        }
    }
}

/// The place of the first skipped construct.
fn first_place(left_out: &[LeftOut]) -> Option<Place>
    ensures { result ≡ first_place None left_out.now }
{
    let mut first = None;
    for kind in left_out {
        first = with_place(first, kind.first);
    }
    first
}

/// The earliest of this place and the places of overtaking messages.
fn first_overtaking(so_far: Option<Place>, overtaking: &[Overtaking]) -> Option<Place>
    ensures { result ≡ first_overtaking so_far overtaking.now }
{
    let mut first = so_far;
    for message in overtaking {
        first = with_place(first, message.place);
    }
    first
}

/// The chart, unless the import is strict and something is skipped.
#[tactic(auto, unfolding(crate::specs::Importing::strictly))]
fn strictly(
    alloc: Global,
    is_strict: bool,
    text: &[u8],
    built: JoinedChart,
) -> Result<JoinedChart, ImportError>
    ensures reads { Gives joined_chart_view result (strictly is_strict text.now (joined_chart_view built)) }
    ensures same { IfOk result (λ d. d ≡ built) }
{
    if !is_strict {
        return Ok(built);
    }
    match first_overtaking(first_place(&built.built.left_out), &built.overtaking) {
        None => Ok(built),
        Some(place) => {
            let words = words_at(alloc, text, place)?;
            Err(ImportError::NotRead(place, words))
        }
    }
}

/// The chart of a text without skipped lines and without a byte order mark.
#[tactic(auto, unfolding(crate::specs::Importing::imported_from))]
fn imported_from(
    alloc: Global,
    tool: Option<Tool>,
    joins: &[Join<'_>],
    is_strict: bool,
    text: &[u8],
) -> Result<JoinedChart, ImportError>
    ensures reads { Gives joined_chart_view result (imported_from tool (map join_view joins.now) is_strict text.now) }
    ensures named { IfOk result (λ d. length d.built.names ≡ length d.built.chart) }
    ensures possible { IfOk result (λ d. IsPossible (length d.built.chart) (chart_lines d.built.chart)) }
{
    let tool = tool_in(alloc, tool, text)?;
    let diagram = diagram_in(alloc, tool, text)?;
    match build_joined(alloc, diagram, joins) {
        Ok(built) => strictly(alloc, is_strict, text, built),
        Err(JoinError::Memory) => Err(ImportError::Memory),
        Err(error) => Err(ImportError::NoChart(error)),
    }
}

/// The chart of another tool's diagram, or its first refusal. The time is in proportion to n log n for a text of n
/// bytes, and the memory in proportion to n.
///
/// The tool is the named one, or otherwise the detected one. G1 refuses lines to skip that don't exist. Then F35 and
/// F21 refuse text that can't be read, and F23 an arc of mscgen with an entity that doesn't exist. F8, F34, F22, F37
/// and F7 refuse a diagram without a chart. A strict import refuses the first construct that would be skipped, as F35.
/// F6 may come at any point.
#[tactic(auto, unfolding(crate::specs::Importing::imported))]
pub fn import_text(
    alloc: Global,
    tool: Option<Tool>,
    text: &[u8],
    options: Options<'_>,
) -> Result<JoinedChart, ImportError>
    ensures reads { Gives joined_chart_view result (imported tool text.now (options_view options.entry)) }
    ensures named { IfOk result (λ d. length d.built.names ≡ length d.built.chart) }
    ensures possible { IfOk result (λ d. IsPossible (length d.built.chart) (chart_lines d.built.chart)) }
{
    let count = count_of_lines(text)?;
    if is_beyond(options.skipped, count) {
        return Err(ImportError::Usage);
    }
    let bytes = blanked(alloc, options.skipped, text)?;
    imported_from(
        alloc,
        tool,
        options.joins,
        options.is_strict,
        behind_mark(&bytes),
    )
}
