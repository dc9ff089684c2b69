//! Names that differ from their labels.
ghost use Rattle.std.specs.Prelude.{◌≡◌, map, slice_get, OnOk};
ghost use Rattle.diagram_labels.specs.Renaming.{renamed_view, with_renamed, renamed_from};

use crate::labels::is_renamed;
use chart::Name;
use std::alloc::{AllocError, Global};

/// A label, and its name.
#[derive(Debug, Drop)]
pub struct Renamed {
    /// A line feed begins a new line in it.
    pub label: Vec<u8>,
    pub name: Name,
}

/// Adds a label and its name, unless the name is the label with one `_` for each blank.
pub fn add_if_renamed(
    alloc: Global,
    renames: &mut Vec<Renamed>,
    label: &[u8],
    name: Name,
) -> Result<(), AllocError>
    ensures { OnOk result (map renamed_view renames.new.items ≡ with_renamed (map renamed_view renames.old.items) label.now name) }
{
    if is_renamed(label, &name) {
        let label = Vec::from_slice(alloc, label)?;
        renames.push(Renamed { label, name })?;
    }
    Ok(())
}

/// The name at this place, from 0.
fn name_in(names: &[Name], place: usize) -> Option<Name>
    ensures { result ≡ slice_get names.now place }
{
    names.get(place).copied()
}

/// Adds the labels whose names have to be reported, each with its name, in their order.
pub fn add_renamed_labels(
    alloc: Global,
    renames: &mut Vec<Renamed>,
    labels: &[Vec<u8>],
    names: &[Name],
) -> Result<(), AllocError>
    ensures { OnOk result (map renamed_view renames.new.items ≡ renamed_from (map renamed_view renames.old.items)
        (map (λ label. label.items) labels.now) names.now) }
{
    for (place, label) in labels.iter().enumerate() {
        let Some(name) = name_in(names, place) else {
            return Ok(());
        };
        add_if_renamed(alloc, renames, label.as_slice(), name)?;
    }
    Ok(())
}
