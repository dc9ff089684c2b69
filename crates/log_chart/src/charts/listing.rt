//! What is skipped, invented or freed for the chart of a log.
ghost use Rattle.std.specs.Prelude.{◌≡◌, ◌++◌, ◌<◌, ◌≤◌, length, slice_index_or, is_none, All, IfOk, OnOk};
ghost use Rattle.chart.specs.declared.instance.TheConstants.{MAX_INSTANCES};
ghost use Rattle.chart.specs.declared.line.TheConstants.{MAX_EVENTS};
ghost use Rattle.log_chart.specs.Charts.Listing.{is_freed, freed_places, has_taken, has_freed, is_one_ended, is_lost, lost_of, place_at, overtaking_of, overtakings_of};
ghost use Rattle.log_chart.specs.Charts.Listing.{invented_from, all_invented};
ghost use Rattle.log_chart.specs.declared.fate.Fate.{Fate};

use crate::{Entry, Fate, HostLine, Item, Kind, LogLine, Place};
use chart::{EventNo, InstanceNo};
use std::alloc::{AllocError, Global};

/// A message that overtakes another one of its lane, by the lines of both sends.
#[derive(Clone, Copy, Debug, PartialEq, Eq)]
pub struct Overtaking {
    /// The send of the message that overtakes, which is skipped.
    pub line: Place,
    /// An earlier send, whose message is received later.
    pub overtaken: Place,
}

fn is_freed(kind: Kind) -> bool
    ensures { result ≡ is_freed kind }
{
    match kind {
        Kind::Freed => true,
        Kind::Send | Kind::Receive => false,
    }
}

/// The places of the lines of freed receives. It fails only if there is no memory.
pub(crate) fn freed_places(alloc: Global, log: &[Entry]) -> Result<Vec<Place>, AllocError>
    ensures { IfOk result (λ places. places.items ≡ freed_places log.now) }
{
    log.iter()
        .filter(|entry| is_freed(entry.kind))
        .map(|entry| entry.place)
        .collect(alloc)
}

/// Whether one of these lines takes a send.
fn has_taken(lines: &[LogLine]) -> bool
    ensures { result ≡ has_taken lines.now }
{
    lines.iter().any(|line| line.send.is_some())
}

/// Whether some receive of the log is freed.
fn has_freed(log: &[Entry]) -> bool
    ensures { result ≡ has_freed log.now }
{
    log.iter().any(|entry| is_freed(entry.kind))
}

/// Whether a log has events, none of its lines takes a send, and no receive is freed.
pub(crate) fn is_one_ended(lines: &[LogLine], log: &[Entry]) -> bool
    ensures { result ≡ is_one_ended lines.now log.now }
{
    if log.is_empty() {
        return false;
    }
    !has_taken(lines) && !has_freed(log)
}

fn is_lost(fate: Fate) -> bool
    ensures { result ≡ is_lost fate }
{
    match fate {
        Fate::Lost => true,
        Fate::Stays | Fate::Overtakes(_) => false,
    }
}

/// The fate of the line with this number.
fn fate_at(fates: &[Fate], number: usize) -> Fate
    requires { number < length fates.now }
    ensures { (d : Fate) → result ≡ slice_index_or fates.now number d }
{
    fates[number]
}

/// The places of the lines with the sends of lost messages. It fails only if there is no memory.
pub(crate) fn lost_places(
    alloc: Global,
    lines: &[LogLine],
    fates: &[Fate],
) -> Result<Vec<Place>, AllocError>
    requires { length fates.now ≡ length lines.now }
    ensures { IfOk result (λ places. places.items ≡ lost_of lines.now fates.now) }
{
    let mut places = Vec::new(alloc);
    for (number, line) in lines.iter().enumerate() {
        if is_lost(fate_at(fates, number)) {
            places.push(line.entry.place)?;
        }
    }
    Ok(places)
}

/// The place of the line with this number.
fn place_at(log: &[Entry], number: usize) -> Option<Place>
    ensures { result ≡ place_at log.now number }
{
    if number < log.len() {
        Some(log[number].place)
    } else {
        None
    }
}

/// Adds the message of a line, if the line is a send whose message overtakes.
fn push_overtaking(
    listed: &mut Vec<Overtaking>,
    log: &[Entry],
    line: &LogLine,
    fate: Fate,
) -> Result<(), AllocError>
    ensures { OnOk result (listed.new.items ≡ listed.old.items ++ overtaking_of log.now line.now fate) }
{
    let Fate::Overtakes(send) = fate else {
        return Ok(())
    };
    if line.entry.kind != Kind::Send {
        return Ok(());
    }
    if let Some(overtaken) = place_at(log, send) {
        listed.push(Overtaking {
            line: line.entry.place,
            overtaken,
        })?;
    }
    Ok(())
}

/// The messages that overtake, each once. It fails only if there is no memory.
pub(crate) fn overtakings(
    alloc: Global,
    log: &[Entry],
    lines: &[LogLine],
    fates: &[Fate],
) -> Result<Vec<Overtaking>, AllocError>
    requires { length fates.now ≡ length lines.now }
    ensures { IfOk result (λ listed. listed.items ≡ overtakings_of log.now lines.now fates.now) }
{
    let mut listed = Vec::new(alloc);
    for (number, line) in lines.iter().enumerate() {
        push_overtaking(&mut listed, log, line, fate_at(fates, number))?;
    }
    Ok(listed)
}

/// Whether an event has no line in the log.
fn is_invented(item: &Item) -> bool
    ensures { result ≡ is_none item.now.line }
{
    item.line.is_none()
}

/// Adds the invented sends of a host's line.
fn push_invented(
    listed: &mut Vec<EventNo>,
    host: InstanceNo,
    items: &[Item],
) -> Result<(), AllocError>
    requires { length items.now ≤ MAX_EVENTS }
    ensures { OnOk result (listed.new.items ≡ listed.old.items ++ invented_from host 1 items.now) }
{
    for (place, item) in items.iter().enumerate() {
        if is_invented(item) {
            listed.push(EventNo {
                instance: host,
                index: place as u32 + 1,
            })?;
        }
    }
    Ok(())
}

/// The invented sends, by instance and number. It fails only if there is no memory.
pub(crate) fn invented_sends(alloc: Global, lines: &[HostLine]) -> Result<Vec<EventNo>, AllocError>
    requires count { length lines.now ≤ MAX_INSTANCES }
    requires short { All (λ items. length items ≤ MAX_EVENTS) lines.now }
    ensures { IfOk result (λ listed. listed.items ≡ all_invented 1 lines.now) }
{
    let mut listed = Vec::new(alloc);
    for (place, line) in lines.iter().enumerate() {
        push_invented(&mut listed, InstanceNo::at_place(place), line.as_slice())?;
    }
    Ok(listed)
}
