//! What events have heard of other hosts, by their clocks.
ghost use Rattle.std.specs.Prelude.{◌≡◌, [], List, map, option_map, if◌then◌else◌, IfOk, OnOk};
ghost use Rattle.log_formats.specs.Clocks.Hearing.{heard_view, grew, heard_of, with_grown, grown, knows_of, may_know_of, may_imply, implies, is_implied, with_direct, with_heard, all_heard};
ghost use Rattle.log_formats.specs.Clocks.Moments.{MomentView, moment_view, is_by_clock};
ghost use Rattle.log_formats.specs.Clocks.Stamps.{stamp_view};
ghost use Rattle.log_formats.specs.Clocks.Tables.{ArePlaces, AreLasts, stamps_at};

use crate::clocks::moment::{Moment, is_by_clock};
use crate::clocks::stamp::{Stamp, count_of};
use crate::clocks::tables::{Host, count_at, last_in, note_last, place_in, places_of};
use indexmap::IndexMap;
use std::alloc::{AllocError, Global};

/// A heard entry: an entry of an event's clock that grew.
#[derive(Clone, Copy, Debug)]
pub(crate) struct Heard<'a> {
    pub stamp: Stamp<'a>,
    /// The place of the event to which it refers: the event of its host with this entry as its own, if the log has it.
    pub source: Option<usize>,
    /// The place of the event that has heard of it, and the host of that event.
    pub at: usize,
    pub host: &'a [u8],
}

/// Whether this is the entry of another host, and grew since the event at the place `before`.
fn grew(host: &[u8], moments: &[Moment<'_>], before: Option<usize>, stamp: &Stamp<'_>) -> bool
    ensures { result ≡ grew host.now (stamps_at (map moment_view moments.now) before) (stamp_view stamp.now) }
{
    stamp.host != host && count_at(moments, before, stamp.host) < stamp.count
}

/// The heard entry of an event, for this entry of its clock.
fn heard_of<'a>(
    places: &IndexMap<Stamp<'a>, usize>,
    at: usize,
    moment: &Moment<'a>,
    stamp: Stamp<'a>,
) -> Heard<'a>
    ensures { (moments : List MomentView) → ArePlaces moments places.now.entries
        → heard_view result ≡ heard_of moments at (moment_view moment.now) (stamp_view stamp.entry) }
{
    let source = place_in(places, stamp);
    Heard {
        stamp,
        source,
        at,
        host: moment.clocked.host,
    }
}

/// The entries of an event's clock that grew since the event at a place. It fails only if there is no memory.
fn grown_since<'a>(
    alloc: Global,
    moments: &[Moment<'a>],
    places: &IndexMap<Stamp<'a>, usize>,
    at: usize,
    moment: &Moment<'a>,
    before: Option<usize>,
) -> Result<Vec<Heard<'a>>, AllocError>
    ensures { IfOk result (λ found. (all : List MomentView) → ArePlaces all places.now.entries → map heard_view found.items
        ≡ with_grown all at (moment_view moment.now) (stamps_at (map moment_view moments.now) before) [] (moment_view moment.now).stamps) }
{
    let mut found = Vec::new(alloc);
    for stamp in &moment.stamps {
        if grew(moment.clocked.host, moments, before, stamp) {
            found.push(heard_of(places, at, moment, *stamp))?;
        }
    }
    Ok(found)
}

/// The entries of an event's clock that grew since its host's last event. It fails only if there is no memory.
fn grown<'a>(
    alloc: Global,
    moments: &[Moment<'a>],
    places: &IndexMap<Stamp<'a>, usize>,
    lasts: &IndexMap<Host<'a>, usize>,
    at: usize,
    moment: &Moment<'a>,
) -> Result<Vec<Heard<'a>>, AllocError>
    requires places { ArePlaces (map moment_view moments.now) places.now.entries }
    requires lasts { AreLasts (map moment_view moments.now) at lasts.now.entries }
    ensures { IfOk result (λ found. map heard_view found.items ≡ grown (map moment_view moments.now) at (moment_view moment.now)) }
{
    let name = moment.clocked.host;
    let before = last_in(lasts, Host { name });
    grown_since(alloc, moments, places, at, moment, before)
}

/// Whether `moment`, the event to which the entry `by` refers, is of another host and knows of what was heard.
fn knows_of(by: &Heard<'_>, heard: &Heard<'_>, moment: Option<&Moment<'_>>) -> bool
    ensures { result ≡ knows_of (heard_view by.now) (heard_view heard.now) (option_map (λ m. moment_view m.now) moment.entry) }
{
    match moment {
        None => false,
        Some(moment) => {
            by.stamp.host != heard.stamp.host
                && heard.stamp.count <= count_of(&moment.stamps, heard.stamp.host)
        }
    }
}

/// Whether an event of another host that the log lacks may know of what was heard. `moment` is the event to which the
/// heard entry refers. If that event knows of the lacking one, this one can't know of it.
fn may_know_of(by: &Heard<'_>, heard: &Heard<'_>, moment: Option<&Moment<'_>>) -> bool
    ensures { result ≡ may_know_of (heard_view by.now) (heard_view heard.now) (option_map (λ m. moment_view m.now) moment.entry) }
{
    match moment {
        None => false,
        Some(moment) => {
            by.stamp.host != heard.stamp.host
                && count_of(&moment.stamps, by.stamp.host) < by.stamp.count
        }
    }
}

/// Whether an entry may imply another one that grew, if the log lacks the event to which it refers.
fn may_imply(moments: &[Moment<'_>], by: &Heard<'_>, heard: &Heard<'_>) -> bool
    ensures { result ≡ may_imply (map moment_view moments.now) (heard_view by.now) (heard_view heard.now) }
{
    match heard.source {
        None => false,
        Some(place) => may_know_of(by, heard, moments.get(place)),
    }
}

/// Whether an entry implies another one that grew: the event to which it refers knows of the other, or may know of it
/// if the log lacks this event. So a message that follows from clocks never came by a host whose lines are missing.
fn implies(moments: &[Moment<'_>], by: &Heard<'_>, heard: &Heard<'_>) -> bool
    ensures { result ≡ implies (map moment_view moments.now) (heard_view by.now) (heard_view heard.now) }
{
    match by.source {
        None => may_imply(moments, by, heard),
        Some(place) => knows_of(by, heard, moments.get(place)),
    }
}

/// Whether one of the entries that grew implies this one.
fn is_implied(moments: &[Moment<'_>], found: &[Heard<'_>], heard: &Heard<'_>) -> bool
    ensures { result ≡ is_implied (map moment_view moments.now) (map heard_view found.now) (heard_view heard.now) }
{
    for by in found {
        if implies(moments, by, heard) {
            return true;
        }
    }
    false
}

/// Adds those of the entries that grew that no other one implies.
fn add_direct<'a>(
    moments: &[Moment<'a>],
    found: &[Heard<'a>],
    all: &mut Vec<Heard<'a>>,
) -> Result<(), AllocError>
    ensures { OnOk result (map heard_view all.new.items
        ≡ with_direct (map moment_view moments.now) (map heard_view found.now) (map heard_view all.old.items) (map heard_view found.now)) }
{
    for heard in found {
        if !is_implied(moments, found, heard) {
            all.push(*heard)?;
        }
    }
    Ok(())
}

/// Adds what an event has heard of directly, if its clock decides about it.
fn add_heard<'a>(
    alloc: Global,
    moments: &[Moment<'a>],
    places: &IndexMap<Stamp<'a>, usize>,
    lasts: &IndexMap<Host<'a>, usize>,
    at: usize,
    moment: &Moment<'a>,
    all: &mut Vec<Heard<'a>>,
) -> Result<(), AllocError>
    requires places { ArePlaces (map moment_view moments.now) places.now.entries }
    requires lasts { AreLasts (map moment_view moments.now) at lasts.now.entries }
    ensures { OnOk result (map heard_view all.new.items ≡ (if is_by_clock (moment_view moment.now)
        then with_heard (map moment_view moments.now) at (map heard_view all.old.items) (moment_view moment.now)
        else map heard_view all.old.items)) }
{
    if !is_by_clock(moment) {
        return Ok(());
    }
    let found = grown(alloc, moments, places, lasts, at, moment)?;
    add_direct(moments, &found, all)
}

/// What events have heard of directly, of the events about which clocks decide. It fails only if there is no memory.
#[tactic(auto, unfolding(crate::specs::Clocks::Hearing::all_heard))]
pub(crate) fn all_heard<'a>(
    alloc: Global,
    moments: &[Moment<'a>],
) -> Result<Vec<Heard<'a>>, AllocError>
    ensures { IfOk result (λ all. map heard_view all.items ≡ all_heard (map moment_view moments.now)) }
{
    let places = places_of(alloc, moments)?;
    let mut lasts = IndexMap::new(alloc);
    let mut all = Vec::new(alloc);
    for (at, moment) in moments.iter().enumerate() {
        add_heard(alloc, moments, &places, &lasts, at, moment, &mut all)?;
        note_last(&mut lasts, at, moment)?;
    }
    Ok(all)
}
