//! What a match of an expression gives, by its groups.
ghost use Rattle.std.specs.Prelude.{◌≡◌, option_map};
ghost use Rattle.regex.specs.Locations.{location};
ghost use Rattle.log_lines.specs.Events.{line_view};
ghost use Rattle.log_formats.specs.Patterns.Found.{span_bytes, located, id_of, captured_found, clocked_found, found_in, found_by};

use crate::patterns::groups::{CaptureGroups, ClockGroups, Groups};
use crate::patterns::host_event::event_found;
use log_lines::{Act, Clocked, Event, LineSays};
use regex::CaptureLocations;

/// The bytes of a span, if it is within the window.
#[tactic(auto, unfolding(crate::specs::Patterns::Found::span_bytes))]
fn span_bytes(window: &[u8], start: usize, end: usize) -> Option<&[u8]>
    ensures { option_map (λ b. b.now) result ≡ span_bytes window.now (start, end) }
{
    if start <= end && end <= window.len() {
        Some(&window[start..end])
    } else {
        None
    }
}

/// The bytes of a group, if it takes part in the match.
pub(crate) fn group_bytes<'a>(
    locations: &CaptureLocations,
    window: &'a [u8],
    group: usize,
) -> Option<&'a [u8]>
    ensures { option_map (λ b. b.now) result ≡ located window.now (location locations.now) group }
{
    match locations.get(group) {
        Some((start, end)) => span_bytes(window, start, end),
        None => None,
    }
}

/// The bytes of an optional group, if the expression has the group, and they aren't empty. They are an id, or what a
/// receive would have taken.
pub(crate) fn id_of<'a>(
    locations: &CaptureLocations,
    window: &'a [u8],
    group: Option<usize>,
) -> Option<&'a [u8]>
    ensures { option_map (λ b. b.now) result ≡ id_of (located window.now (location locations.now)) group }
{
    match group {
        None => None,
        Some(group) => match group_bytes(locations, window, group) {
            None => None,
            Some([]) => None,
            Some(id) => Some(id),
        },
    }
}

fn captured_found<'a>(
    locations: &CaptureLocations,
    window: &'a [u8],
    groups: CaptureGroups,
) -> Option<LineSays<'a>>
    ensures { option_map line_view result ≡ captured_found (located window.now (location locations.now)) groups }
{
    let host = group_bytes(locations, window, groups.source)?;
    let peer = group_bytes(locations, window, groups.destination)?;
    let name = group_bytes(locations, window, groups.name)?;
    Some(LineSays::Message(Event {
        host,
        act: Act::Send,
        peer,
        name,
        id: id_of(locations, window, groups.id),
    }))
}

fn clocked_found<'a>(
    locations: &CaptureLocations,
    window: &'a [u8],
    groups: ClockGroups,
) -> Option<LineSays<'a>>
    ensures { option_map line_view result ≡ clocked_found (located window.now (location locations.now)) groups }
{
    let host = group_bytes(locations, window, groups.host)?;
    let clock = group_bytes(locations, window, groups.clock)?;
    let event = group_bytes(locations, window, groups.event)?;
    Some(LineSays::Clocked(Clocked { host, clock, event }))
}

/// What a match gives, if each group that it needs takes part.
fn found_in<'a>(
    locations: &CaptureLocations,
    window: &'a [u8],
    groups: Groups,
) -> Option<LineSays<'a>>
    ensures { option_map line_view result ≡ found_in (located window.now (location locations.now)) groups }
{
    match groups {
        Groups::Event(groups) => event_found(locations, window, groups),
        Groups::Capture(groups) => captured_found(locations, window, groups),
        Groups::Clock(groups) => clocked_found(locations, window, groups),
    }
}

/// What a match gives, by its groups. If one of the groups takes no part, the match isn't read.
#[tactic(auto, unfolding(crate::specs::Patterns::Found::found_by))]
pub(crate) fn found_by<'a>(
    locations: &CaptureLocations,
    window: &'a [u8],
    groups: Groups,
) -> LineSays<'a>
    ensures { line_view result ≡ found_by (located window.now (location locations.now)) groups }
{
    match found_in(locations, window, groups) {
        Some(says) => says,
        None => LineSays::Other,
    }
}
