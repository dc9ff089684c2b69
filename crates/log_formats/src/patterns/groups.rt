//! The groups of an expression.
ghost use Rattle.std.specs.Prelude.{◌≡◌, ◌≤◌, ◌<◌, length, option_map, string_bytes, IfSome};
ghost use Rattle.regex.specs.Bytes.{regex_names};
ghost use Rattle.log_formats.specs.Patterns.Groups.{is_named, named_at, group_in, event_groups, capture_groups, clock_groups, groups_in, IsAmong, AreAmong};

use regex::bytes::Regex;

/// The groups of an event of a host, by their numbers.
#[derive(Clone, Copy, Debug, PartialEq, Eq)]
pub struct EventGroups {
    pub host: usize,
    pub direction: usize,
    pub peer: usize,
    pub name: usize,
    pub id: Option<usize>,
    /// The group of what a receive would have taken.
    pub takes: Option<usize>,
    /// The group that marks arrivals, whatever the direction is.
    pub arrive: Option<usize>,
}

/// The groups of a captured message.
#[derive(Clone, Copy, Debug, PartialEq, Eq)]
pub struct CaptureGroups {
    pub source: usize,
    pub destination: usize,
    pub name: usize,
    pub id: Option<usize>,
}

/// The groups of an event with its vector time.
#[derive(Clone, Copy, Debug, PartialEq, Eq)]
pub struct ClockGroups {
    pub host: usize,
    pub clock: usize,
    pub event: usize,
}

/// The set of groups of an expression.
#[derive(Clone, Copy, Debug, PartialEq, Eq)]
pub enum Groups {
    /// `host`, `dir`, `peer`, `name` and perhaps `id`, `takes` and `arrive`.
    Event(EventGroups),
    /// `src`, `dst`, `name` and perhaps `id`.
    Capture(CaptureGroups),
    /// `host`, `clock` and `event`.
    Clock(ClockGroups),
}

/// Whether the group has this name.
fn is_named(group: &Option<String>, name: &[u8]) -> bool
    ensures { result ≡ is_named name.now (option_map string_bytes group.now) }
{
    match group {
        Some(word) => word.as_bytes() == name,
        None => false,
    }
}

/// The place of the first group with this name, from 0.
fn named_at(groups: &[Option<String>], name: &[u8]) -> Option<usize>
    ensures value { result ≡ named_at name.now groups.now }
    ensures within { IfSome result (λ place. place < length groups.now) }
{
    groups.iter().position(|group| is_named(group, name))
}

/// The number of the first group with this name, from 1.
pub(crate) fn group_in(expression: &Regex, name: &[u8]) -> Option<usize>
    ensures value { result ≡ group_in (regex_names expression.now) name.now }
    ensures among { IfSome result (IsAmong (length (regex_names expression.now))) }
{
    match expression.capture_names() {
        [] => None,
        [_, groups @ ..] => match named_at(groups, name) {
            Some(place) => Some(place + 1),
            None => None,
        },
    }
}

fn event_groups(expression: &Regex) -> Option<Groups>
    ensures value { result ≡ event_groups (regex_names expression.now) }
    ensures among { IfSome result (AreAmong (length (regex_names expression.now))) }
{
    let host = group_in(expression, b"host")?;
    let direction = group_in(expression, b"dir")?;
    let peer = group_in(expression, b"peer")?;
    let name = group_in(expression, b"name")?;
    Some(Groups::Event(EventGroups {
        host,
        direction,
        peer,
        name,
        id: group_in(expression, b"id"),
        takes: group_in(expression, b"takes"),
        arrive: group_in(expression, b"arrive"),
    }))
}

fn capture_groups(expression: &Regex) -> Option<Groups>
    ensures value { result ≡ capture_groups (regex_names expression.now) }
    ensures among { IfSome result (AreAmong (length (regex_names expression.now))) }
{
    let source = group_in(expression, b"src")?;
    let destination = group_in(expression, b"dst")?;
    let name = group_in(expression, b"name")?;
    Some(Groups::Capture(CaptureGroups {
        source,
        destination,
        name,
        id: group_in(expression, b"id"),
    }))
}

fn clock_groups(expression: &Regex) -> Option<Groups>
    ensures value { result ≡ clock_groups (regex_names expression.now) }
    ensures among { IfSome result (AreAmong (length (regex_names expression.now))) }
{
    let host = group_in(expression, b"host")?;
    let clock = group_in(expression, b"clock")?;
    let event = group_in(expression, b"event")?;
    Some(Groups::Clock(ClockGroups { host, clock, event }))
}

/// The set of groups of an expression: the first of the three sets that it has.
pub(crate) fn groups_in(expression: &Regex) -> Option<Groups>
    ensures value { result ≡ groups_in (regex_names expression.now) }
    ensures among { IfSome result (AreAmong (length (regex_names expression.now))) }
{
    if let Some(groups) = event_groups(expression) {
        return Some(groups);
    }
    if let Some(groups) = capture_groups(expression) {
        return Some(groups);
    }
    clock_groups(expression)
}
