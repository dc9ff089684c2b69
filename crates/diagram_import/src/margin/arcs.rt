//! The notes of an mscgen text that aren't items of its diagram, and its dividers.
ghost use Rattle.std.specs.Prelude.{◌≡◌, ◌++◌, map, bytes_eq, IfOk, OnOk};
ghost use Rattle.diagram_mscgen.specs.Grammar.Arcs.{arc_view};
ghost use Rattle.diagram_import.specs.Margin.Arcs.{label_remark, arc_remark, arc_remarks};
ghost use Rattle.diagram_import.specs.Margin.Remarks.{remark_view};

use crate::margin::plain::plain_text;
use crate::margin::remark::Remark;
use diagram_mscgen::grammar::{Arc, ArcKind};
use std::alloc::{AllocError, Global};

/// Adds the label of an arc as a remark, if it has one.
fn add_label(
    alloc: Global,
    divides: bool,
    arc: &Arc<'_>,
    remarks: &mut Vec<Remark>,
) -> Result<(), AllocError>
    ensures { OnOk result (map remark_view remarks.new.items
        ≡ map remark_view remarks.old.items ++ label_remark divides (arc_view arc.now) (arc_view arc.now).label) }
{
    let Some(label) = arc.label else {
        return Ok(());
    };
    if label.is_empty() {
        return Ok(());
    }
    let text = plain_text(alloc, label)?;
    remarks.push(Remark {
        line: arc.place.line,
        text,
        divides,
    })?;
    Ok(())
}

/// Whether an arc is at a single entity.
fn is_at_one(arc: &Arc<'_>) -> bool
    ensures { result ≡ bytes_eq arc.now.from.now arc.now.to.now }
{
    arc.from == arc.to
}

/// Adds the remark of an arc, if it has one.
#[tactic(auto, unfolding(crate::specs::Margin::Arcs::arc_remark))]
fn add_arc(alloc: Global, arc: &Arc<'_>, remarks: &mut Vec<Remark>) -> Result<(), AllocError>
    ensures { OnOk result (map remark_view remarks.new.items
        ≡ map remark_view remarks.old.items ++ arc_remark (arc_view arc.now)) }
{
    match arc.kind {
        ArcKind::Spacer => add_label(alloc, true, arc, remarks),
        ArcKind::Note if !is_at_one(arc) => add_label(alloc, false, arc, remarks),
        _ => Ok(()),
    }
}

/// The notes of these arcs that aren't items, and their dividers.
#[tactic(auto, unfolding(crate::specs::Margin::Arcs::arc_remarks))]
pub(crate) fn arc_remarks(alloc: Global, arcs: &[Arc<'_>]) -> Result<Vec<Remark>, AllocError>
    ensures { IfOk result (λ remarks. map remark_view remarks.items ≡ arc_remarks (map arc_view arcs.now)) }
{
    let mut remarks = Vec::new(alloc);
    for arc in arcs {
        add_arc(alloc, arc, &mut remarks)?;
    }
    Ok(remarks)
}
