//! The parts of the warnings about a log's chart.
ghost use Rattle.std.specs.Prelude.{◌≡◌, [], map, IfOk};
ghost use Rattle.diagram_labels.specs.Renaming.{renamed_view};
ghost use Rattle.cmd_import_log.specs.Alike.{has_line};
ghost use Rattle.cmd_import_log.specs.Imported.{log_place, log_overtaking, with_lineless, with_lined, renames_of};

use crate::answers::Overtaking;
use chart::Name;
use diagram_labels::{LabelNames, Renamed, add_renamed_labels};
use log_lines::Place;
use log_lines::names::NamedLine;
use std::alloc::{AllocError, Global};

/// A line of the log, as warnings name it.
pub(crate) fn log_place(place: &log_chart::Place) -> Place
    ensures { result ≡ log_place place.now }
{
    Place {
        text: place.file,
        line: place.line,
    }
}

/// Lines of the log, as warnings name them.
pub(crate) fn places_of(
    alloc: Global,
    places: &[log_chart::Place],
) -> Result<Vec<Place>, AllocError>
    ensures { IfOk result (λ diagnostics. diagnostics.items ≡ map log_place places.now) }
{
    places.iter().map(|place| log_place(place)).collect(alloc)
}

fn overtaking_of(overtaking: &log_chart::charts::Overtaking) -> Overtaking
    ensures { result ≡ log_overtaking overtaking.now }
{
    Overtaking {
        line: log_place(&overtaking.line),
        overtaken: log_place(&overtaking.overtaken),
    }
}

/// The overtaking messages, as warnings name them.
pub(crate) fn overtakings_of(
    alloc: Global,
    overtakings: &[log_chart::charts::Overtaking],
) -> Result<Vec<Overtaking>, AllocError>
    ensures { IfOk result (λ diagnostics. diagnostics.items ≡ map log_overtaking overtakings.now) }
{
    overtakings
        .iter()
        .map(|overtaking| overtaking_of(overtaking))
        .collect(alloc)
}

/// Whether a host has a line of its own.
pub(crate) fn has_line(lines: &[NamedLine], name: &Name) -> bool
    ensures { result ≡ has_line lines.now name.now }
{
    lines.iter().any(|line| line.host == *name)
}

/// The hosts without a line of their own, among all these.
pub(crate) fn lineless_hosts(
    alloc: Global,
    lines: &[NamedLine],
    hosts: &[Name],
) -> Result<Vec<Name>, AllocError>
    ensures { IfOk result (λ lineless. lineless.items ≡ with_lineless lines.now [] hosts.now) }
{
    let mut lineless = Vec::new(alloc);
    for name in hosts {
        if !has_line(lines, name) {
            lineless.push(*name)?;
        }
    }
    Ok(lineless)
}

/// The hosts with a line of their own, among all these.
pub(crate) fn lined_hosts(
    alloc: Global,
    lines: &[NamedLine],
    hosts: &[Name],
) -> Result<Vec<Name>, AllocError>
    ensures { IfOk result (λ lined. lined.items ≡ with_lined lines.now [] hosts.now) }
{
    let mut lined = Vec::new(alloc);
    for name in hosts {
        if has_line(lines, name) {
            lined.push(*name)?;
        }
    }
    Ok(lined)
}

/// The labels whose names differ from their words.
pub(crate) fn renamed_in(alloc: Global, labels: &LabelNames) -> Result<Vec<Renamed>, AllocError>
    ensures { IfOk result (λ diagnostics. map renamed_view diagnostics.items ≡ renames_of labels.now) }
{
    let mut diagnostics = Vec::new(alloc);
    add_renamed_labels(alloc, &mut diagnostics, labels.labels(), labels.names())?;
    Ok(diagnostics)
}
