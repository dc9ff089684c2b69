//! The places of events, by their hosts.
ghost use Rattle.std.specs.Prelude.{◌≡◌, Some, map, option_map, if◌then◌else◌, bytes_eq, IfOk, OnOk};
ghost use Rattle.std.specs.Map.{lookup};
ghost use Rattle.log_formats.specs.Clocks.Moments.{moment_view, is_of};
ghost use Rattle.log_formats.specs.Clocks.Stamps.{stamp_view, same_stamp, count_of};
ghost use Rattle.log_formats.specs.Clocks.Tables.{same_as, same_host, ArePlaces, stamps_of, stamps_at};
ghost use Rattle.log_formats.specs.declared.clocks.stamp.Stamp.{Stamp};
ghost use Rattle.log_formats.specs.declared.clocks.tables.Host.{Host};

use crate::clocks::moment::{Moment, own_stamp};
use crate::clocks::stamp::{Stamp, count_of};
use indexmap::IndexMap;
use std::alloc::{AllocError, Global};

/// A host by its name.
#[derive(Clone, Copy, Debug, PartialEq, Eq, Hash)]
pub(crate) struct Host<'a> {
    pub name: &'a [u8],
}

/// Notes the place of the event with this entry as its own.
fn put_place<'a>(
    places: &mut IndexMap<Stamp<'a>, usize>,
    stamp: Stamp<'a>,
    place: usize,
) -> Result<(), AllocError>
    ensures { OnOk result ((s : Stamp) → lookup (same_as s) places.new.entries
        ≡ (if same_stamp (stamp_view stamp.entry) (stamp_view s) then Some place else lookup (same_as s) places.old.entries)) }
{
    places.insert(stamp, place)?;
    Ok(())
}

/// For each entry the place of the first event that has it as its own. It fails only if there is no memory.
pub(crate) fn places_of<'a>(
    alloc: Global,
    moments: &[Moment<'a>],
) -> Result<IndexMap<Stamp<'a>, usize>, AllocError>
    ensures { IfOk result (λ places. ArePlaces (map moment_view moments.now) places.entries) }
{
    let mut places = IndexMap::new(alloc);
    let mut place = moments.len();
    'places: while place > 0 {
        place -= 1;
        put_place(&mut places, own_stamp(&moments[place]), place)?;
    }
    Ok(places)
}

/// The place of the event with this entry as its own, if the log has it.
pub(crate) fn place_in<'a>(places: &IndexMap<Stamp<'a>, usize>, stamp: Stamp<'a>) -> Option<usize>
    ensures { result ≡ lookup (same_as stamp.entry) places.now.entries }
{
    places.get(&stamp).copied()
}

/// Notes the place of the host's last event.
fn put_last<'a>(
    lasts: &mut IndexMap<Host<'a>, usize>,
    host: Host<'a>,
    at: usize,
) -> Result<(), AllocError>
    ensures { OnOk result ((h : Host) → lookup (same_host h) lasts.new.entries
        ≡ (if bytes_eq host.entry.name.now h.name.now then Some at else lookup (same_host h) lasts.old.entries)) }
{
    lasts.insert(host, at)?;
    Ok(())
}

/// Notes the event at this place as its host's last one, if its clock gives its number.
pub(crate) fn note_last<'a>(
    lasts: &mut IndexMap<Host<'a>, usize>,
    at: usize,
    moment: &Moment<'a>,
) -> Result<(), AllocError>
    ensures { OnOk result ((h : Host) → lookup (same_host h) lasts.new.entries
        ≡ (if is_of h.name.now (moment_view moment.now) then Some at else lookup (same_host h) lasts.old.entries)) }
{
    if moment.own > 0 {
        let name = moment.clocked.host;
        put_last(lasts, Host { name }, at)?;
    }
    Ok(())
}

/// The place of the host's last event, if it has one.
pub(crate) fn last_in<'a>(lasts: &IndexMap<Host<'a>, usize>, host: Host<'a>) -> Option<usize>
    ensures { result ≡ lookup (same_host host.entry) lasts.now.entries }
{
    lasts.get(&host).copied()
}

/// The count that an event has of a host, or 0 if there is no event.
fn count_in(moment: Option<&Moment<'_>>, host: &[u8]) -> u32
    ensures { result ≡ count_of (stamps_of (option_map (λ m. moment_view m.now) moment.entry)) host.now }
{
    match moment {
        None => 0,
        Some(moment) => count_of(&moment.stamps, host),
    }
}

/// The count that the event at a place has of a host, or 0 if there is no event.
pub(crate) fn count_at(moments: &[Moment<'_>], place: Option<usize>, host: &[u8]) -> u32
    ensures { result ≡ count_of (stamps_at (map moment_view moments.now) place) host.now }
{
    match place {
        None => 0,
        Some(place) => count_in(moments.get(place), host),
    }
}
