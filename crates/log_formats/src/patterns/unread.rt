//! Why a match of an expression isn't read.
ghost use Rattle.std.specs.Prelude.{◌≡◌, is_some, option_map};
ghost use Rattle.regex.specs.Locations.{location};
ghost use Rattle.log_lines.specs.Events.{line_view};
ghost use Rattle.log_formats.specs.Patterns.Found.{located};
ghost use Rattle.log_formats.specs.Patterns.Unread.{unread_view, unknown_word, word_unread, event_unread, capture_unread, clock_unread, unread_in, if_other};

use crate::patterns::found::group_bytes;
use crate::patterns::groups::{CaptureGroups, ClockGroups, EventGroups, Groups};
use crate::patterns::host_event::{direction_found, has_part};
use crate::patterns::missing::Group;
use log_lines::{Direction, LineSays, direction_of};
use regex::CaptureLocations;

/// Why a match isn't read.
#[derive(Clone, Copy, Debug, PartialEq, Eq)]
pub enum Unread<'a> {
    /// This group takes no part in it.
    Absent(Group),
    /// This is its word for the direction, and the word is unknown.
    Word(&'a [u8]),
}

/// Whether a group takes part in the match.
fn takes_part(locations: &CaptureLocations, window: &[u8], group: usize) -> bool
    ensures { result ≡ is_some (located window.now (location locations.now) group) }
{
    group_bytes(locations, window, group).is_some()
}

/// The word for a direction, if it is unknown.
fn unknown_word<'a>(word: &'a [u8]) -> Option<Unread<'a>>
    ensures { option_map unread_view result ≡ unknown_word word.now }
{
    match direction_of(word) {
        Direction::Sends | Direction::Receives | Direction::Arrives => None,
        Direction::Unknown => Some(Unread::Word(word)),
    }
}

/// The word for the direction of a match, if it is unknown. An arrival by its own group needs no such word.
fn word_unread<'a>(
    locations: &CaptureLocations,
    window: &'a [u8],
    groups: EventGroups,
) -> Option<Unread<'a>>
    ensures { option_map unread_view result ≡ word_unread (located window.now (location locations.now)) groups }
{
    if has_part(locations, window, groups.arrive) {
        return None;
    }
    match group_bytes(locations, window, groups.direction) {
        None => None,
        Some(word) => unknown_word(word),
    }
}

/// Why the match of an event isn't read: the first of its groups that takes no part, and otherwise its direction.
fn event_unread<'a>(
    locations: &CaptureLocations,
    window: &'a [u8],
    groups: EventGroups,
) -> Option<Unread<'a>>
    ensures { option_map unread_view result ≡ event_unread (located window.now (location locations.now)) groups }
{
    if !takes_part(locations, window, groups.host) {
        Some(Unread::Absent(Group::Host))
    } else if !direction_found(locations, window, groups).is_some() {
        Some(Unread::Absent(Group::Direction))
    } else if !takes_part(locations, window, groups.peer) {
        Some(Unread::Absent(Group::Peer))
    } else if !takes_part(locations, window, groups.name) {
        Some(Unread::Absent(Group::Name))
    } else {
        word_unread(locations, window, groups)
    }
}

/// The group of a captured message that takes no part in its match: the first, if there is one.
fn capture_unread<'a>(
    locations: &CaptureLocations,
    window: &'a [u8],
    groups: CaptureGroups,
) -> Option<Unread<'a>>
    ensures { option_map unread_view result ≡ capture_unread (located window.now (location locations.now)) groups }
{
    if !takes_part(locations, window, groups.source) {
        Some(Unread::Absent(Group::Source))
    } else if !takes_part(locations, window, groups.destination) {
        Some(Unread::Absent(Group::Destination))
    } else if !takes_part(locations, window, groups.name) {
        Some(Unread::Absent(Group::Name))
    } else {
        None
    }
}

/// The group of an event with its vector time that takes no part in its match: the first, if there is one.
fn clock_unread<'a>(
    locations: &CaptureLocations,
    window: &'a [u8],
    groups: ClockGroups,
) -> Option<Unread<'a>>
    ensures { option_map unread_view result ≡ clock_unread (located window.now (location locations.now)) groups }
{
    if !takes_part(locations, window, groups.host) {
        Some(Unread::Absent(Group::Host))
    } else if !takes_part(locations, window, groups.clock) {
        Some(Unread::Absent(Group::Clock))
    } else if !takes_part(locations, window, groups.event) {
        Some(Unread::Absent(Group::Event))
    } else {
        None
    }
}

/// Why a match isn't read.
fn unread_in<'a>(
    locations: &CaptureLocations,
    groups: Groups,
    window: &'a [u8],
) -> Option<Unread<'a>>
    ensures { option_map unread_view result ≡ unread_in groups (located window.now (location locations.now)) }
{
    match groups {
        Groups::Event(groups) => event_unread(locations, window, groups),
        Groups::Capture(groups) => capture_unread(locations, window, groups),
        Groups::Clock(groups) => clock_unread(locations, window, groups),
    }
}

/// Why a match isn't read, if its line counts as one that doesn't match.
pub(crate) fn unread_if_other<'a>(
    locations: &CaptureLocations,
    groups: Groups,
    window: &'a [u8],
    says: LineSays<'_>,
) -> Option<Unread<'a>>
    ensures { option_map unread_view result ≡ if_other (line_view says.entry) (unread_in groups (located window.now (location locations.now))) }
{
    match says {
        LineSays::Other => unread_in(locations, groups, window),
        _ => None,
    }
}
