//! The notes of a diagram that are neither sends nor receives.
ghost use Rattle.std.specs.Prelude.{◌≡◌, ◌≤◌, ◌++◌, length, map, IfOk, OnOk};
ghost use Rattle.std.specs.List.{flat_map};
ghost use Rattle.chart.specs.declared.instance.TheConstants.{MAX_INSTANCES};
ghost use Rattle.diagrams.specs.Diagrams.{item_view, participant_view};
ghost use Rattle.diagram_import.specs.Margin.Owns.{comes_to_nothing, own_remark, own_remarks};
ghost use Rattle.diagram_import.specs.Margin.Remarks.{remark_view};

use crate::margin::remark::Remark;
use crate::margin::statements::remark_of;
use chart::Names;
use diagrams::{Diagram, Item, Participant, collect, names_of};
use std::alloc::{AllocError, Global};
use std::slice::from_ref;

/// Whether an item is skipped in the chart: it is a note that states neither a send nor a receive.
fn comes_to_nothing(alloc: Global, names: &Names, item: &Item) -> Result<bool, AllocError>
    ensures { IfOk result (λ nothing. nothing ≡ comes_to_nothing names.now (item_view item.now)) }
{
    let (_, left_out, _) = collect(alloc, names, from_ref(item), Vec::new(alloc))?.into_parts();
    Ok(!left_out.is_empty())
}

/// Adds a note that states neither a send nor a receive.
#[tactic(auto, unfolding(crate::specs::Margin::Owns::own_remark))]
fn add_own(
    alloc: Global,
    names: &Names,
    item: &Item,
    remarks: &mut Vec<Remark>,
) -> Result<(), AllocError>
    ensures { OnOk result (map remark_view remarks.new.items
        ≡ map remark_view remarks.old.items ++ own_remark names.now (item_view item.now)) }
{
    match item {
        Item::Arrow(_) => Ok(()),
        Item::Note(note) => {
            if !comes_to_nothing(alloc, names, item)? {
                return Ok(());
            }
            let remark = remark_of(alloc, false, note)?;
            remarks.push(remark)?;
            Ok(())
        }
    }
}

fn own_items(alloc: Global, names: &Names, items: &[Item]) -> Result<Vec<Remark>, AllocError>
    ensures { IfOk result (λ remarks. map remark_view remarks.items
        ≡ flat_map (own_remark names.now) (map item_view items.now)) }
{
    let mut remarks = Vec::new(alloc);
    for item in items {
        add_own(alloc, names, item, &mut remarks)?;
    }
    Ok(remarks)
}

/// The notes of a diagram that state neither a send nor a receive.
#[tactic(auto, unfolding(crate::specs::Margin::Owns::own_remarks))]
pub(crate) fn own_remarks(
    alloc: Global,
    participants: &[Participant],
    items: &[Item],
) -> Result<Vec<Remark>, AllocError>
    requires { length participants.now ≤ MAX_INSTANCES }
    ensures { IfOk result (λ remarks. map remark_view remarks.items
        ≡ own_remarks (map participant_view participants.now) (map item_view items.now)) }
{
    let names = names_of(alloc, participants)?;
    own_items(alloc, &names, items)
}
