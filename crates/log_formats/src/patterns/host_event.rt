//! What a match of an expression gives of a host.
ghost use Rattle.std.specs.Prelude.{◌≡◌, option_map};
ghost use Rattle.regex.specs.Locations.{location};
ghost use Rattle.log_lines.specs.Events.{line_view, event_view};
ghost use Rattle.log_formats.specs.Patterns.Found.{located, by_direction, has_part, direction_found, host_event_view, host_event, line_meaning, event_found};

use crate::patterns::found::{group_bytes, id_of};
use crate::patterns::groups::EventGroups;
use log_lines::{Act, Direction, Event, LineSays, direction_of};
use regex::CaptureLocations;

/// What a host did with a message, or that a message reached it.
#[derive(Clone, Copy, Debug)]
pub(crate) struct HostEvent<'a> {
    pub host: &'a [u8],
    pub direction: Direction,
    pub peer: &'a [u8],
    pub name: &'a [u8],
    pub id: Option<&'a [u8]>,
    /// What its receive would have taken, as the match has it.
    pub takes: Option<&'a [u8]>,
}

/// Whether an optional group takes part in the match.
pub(crate) fn has_part(locations: &CaptureLocations, window: &[u8], group: Option<usize>) -> bool
    ensures { result ≡ has_part (located window.now (location locations.now)) group }
{
    match group {
        None => false,
        Some(group) => match group_bytes(locations, window, group) {
            Some(_) => true,
            None => false,
        },
    }
}

/// The direction of a match: an arrival if the group `arrive` takes part, and otherwise by the word for the direction.
pub(crate) fn direction_found(
    locations: &CaptureLocations,
    window: &[u8],
    groups: EventGroups,
) -> Option<Direction>
    ensures { result ≡ direction_found (located window.now (location locations.now)) groups }
{
    if has_part(locations, window, groups.arrive) {
        return Some(Direction::Arrives);
    }
    match group_bytes(locations, window, groups.direction) {
        Some(word) => Some(direction_of(word)),
        None => None,
    }
}

/// What a match gives of a host, if each group that it needs takes part.
pub(crate) fn host_event<'a>(
    locations: &CaptureLocations,
    window: &'a [u8],
    groups: EventGroups,
) -> Option<HostEvent<'a>>
    ensures { option_map host_event_view result ≡ host_event (located window.now (location locations.now)) groups }
{
    let host = group_bytes(locations, window, groups.host)?;
    let direction = direction_found(locations, window, groups)?;
    let peer = group_bytes(locations, window, groups.peer)?;
    let name = group_bytes(locations, window, groups.name)?;
    Some(HostEvent {
        host,
        direction,
        peer,
        name,
        id: id_of(locations, window, groups.id),
        takes: id_of(locations, window, groups.takes),
    })
}

/// What a line gives for this event, by its direction.
fn by_direction<'a>(direction: Direction, event: Event<'a>) -> LineSays<'a>
    ensures { line_view result ≡ by_direction direction (event_view event.entry) }
{
    match direction {
        Direction::Sends => LineSays::Event(Event {
            host: event.host,
            act: Act::Send,
            peer: event.peer,
            name: event.name,
            id: event.id,
        }),
        Direction::Receives => LineSays::Event(Event {
            host: event.host,
            act: Act::Receive,
            peer: event.peer,
            name: event.name,
            id: event.id,
        }),
        Direction::Arrives => LineSays::Nothing,
        Direction::Unknown => LineSays::Other,
    }
}

/// What a line gives for what a match gives of a host.
fn line_meaning<'a>(event: HostEvent<'a>) -> LineSays<'a>
    ensures { line_view result ≡ line_meaning (host_event_view event.entry) }
{
    let line_event = Event {
        host: event.host,
        act: Act::Send,
        peer: event.peer,
        name: event.name,
        id: event.id,
    };
    by_direction(event.direction, line_event)
}

pub(crate) fn event_found<'a>(
    locations: &CaptureLocations,
    window: &'a [u8],
    groups: EventGroups,
) -> Option<LineSays<'a>>
    ensures { option_map line_view result ≡ event_found (located window.now (location locations.now)) groups }
{
    let event = host_event(locations, window, groups)?;
    Some(line_meaning(event))
}
