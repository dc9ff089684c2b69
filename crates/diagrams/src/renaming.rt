//! Names that differ from their labels.
ghost use Rattle.std.specs.Prelude.{◌≡◌, [], map, slice_get, IfOk, OnOk};
ghost use Rattle.diagram_labels.specs.Renaming.{renamed_view, renamed_from};

use crate::diagram::Participant;
use chart::{InstanceNo, MAX_INSTANCES, Name, Names};
use diagram_labels::{LabelNames, Renamed, add_if_renamed, add_renamed_labels};
use std::alloc::{AllocError, Global};

/// The name at this place, from 0.
fn name_at(names: &Names, place: usize) -> Option<Name>
    ensures { result ≡ slice_get names.now place }
{
    if place >= names.len() {
        return None;
    }
    names.name(InstanceNo::at_place(place))
}

/// Adds the names of participants that have to be reported.
fn add_renamed_participants(
    alloc: Global,
    renames: &mut Vec<Renamed>,
    participants: &[Participant],
    names: &Names,
) -> Result<(), AllocError>
    ensures { OnOk result (map renamed_view renames.new.items ≡ renamed_from (map renamed_view renames.old.items)
        (map (λ p. p.label.items) participants.now) names.now) }
{
    for (place, participant) in participants.iter().enumerate() {
        let Some(name) = name_at(names, place) else {
            return Ok(());
        };
        add_if_renamed(alloc, renames, participant.label.as_slice(), name)?;
    }
    Ok(())
}

/// The labels whose names have to be reported, each with its name. Those of participants come first.
pub fn renamed_labels(
    alloc: Global,
    participants: &[Participant],
    names: &Names,
    labels: &LabelNames,
) -> Result<Vec<Renamed>, AllocError>
    ensures { IfOk result (λ renames. map renamed_view renames.items
        ≡ renamed_from (renamed_from [] (map (λ p. p.label.items) participants.now) names.now) labels.now.labels labels.now.names) }
{
    let mut renames = Vec::new(alloc);
    add_renamed_participants(alloc, &mut renames, participants, names)?;
    add_renamed_labels(alloc, &mut renames, labels.labels(), labels.names())?;
    Ok(renames)
}
