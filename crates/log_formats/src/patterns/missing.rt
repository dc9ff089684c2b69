//! The group that an expression lacks.
ghost use Rattle.std.specs.Prelude.{◌≡◌};
ghost use Rattle.regex.specs.Bytes.{regex_names};
ghost use Rattle.log_formats.specs.Patterns.Missing.{has_group, clock_lacks, capture_lacks, event_lacks, is_timed, is_captured, lacks, is_of_host, is_mixed, lacks_besides};

use crate::patterns::groups::group_in;
use regex::bytes::Regex;

/// A group of an expression, by its name.
#[derive(Clone, Copy, Debug, PartialEq, Eq)]
pub enum Group {
    /// `host`
    Host,
    /// `dir`
    Direction,
    /// `peer`
    Peer,
    /// `name`
    Name,
    /// `src`
    Source,
    /// `dst`
    Destination,
    /// `clock`
    Clock,
    /// `event`
    Event,
}

/// Whether a group has this name.
fn has_group(expression: &Regex, name: &[u8]) -> bool
    ensures { result ≡ has_group (regex_names expression.now) name.now }
{
    group_in(expression, name).is_some()
}

/// The first group that an event with its vector time lacks.
fn clock_lacks(expression: &Regex) -> Group
    ensures { result ≡ clock_lacks (regex_names expression.now) }
{
    if !has_group(expression, b"host") {
        Group::Host
    } else if !has_group(expression, b"clock") {
        Group::Clock
    } else {
        Group::Event
    }
}

/// The first group that a captured message lacks.
fn capture_lacks(expression: &Regex) -> Group
    ensures { result ≡ capture_lacks (regex_names expression.now) }
{
    if !has_group(expression, b"src") {
        Group::Source
    } else if !has_group(expression, b"dst") {
        Group::Destination
    } else {
        Group::Name
    }
}

/// The first group that an event of a host lacks.
fn event_lacks(expression: &Regex) -> Group
    ensures { result ≡ event_lacks (regex_names expression.now) }
{
    if !has_group(expression, b"host") {
        Group::Host
    } else if !has_group(expression, b"dir") {
        Group::Direction
    } else if !has_group(expression, b"peer") {
        Group::Peer
    } else {
        Group::Name
    }
}

/// Whether there is a group that only events with vector time have.
fn is_timed(expression: &Regex) -> bool
    ensures { result ≡ is_timed (regex_names expression.now) }
{
    has_group(expression, b"clock") || has_group(expression, b"event")
}

/// Whether there is a group that only captured messages have.
fn is_captured(expression: &Regex) -> bool
    ensures { result ≡ is_captured (regex_names expression.now) }
{
    has_group(expression, b"src") || has_group(expression, b"dst")
}

/// The first group that the expression lacks of the set that is meant. With `clock` or `event` this is the set of
/// vector time. Otherwise it is the set of captured messages with `src` or `dst`, and without them that of events.
pub(crate) fn lacks(expression: &Regex) -> Group
    ensures { result ≡ lacks (regex_names expression.now) }
{
    if is_timed(expression) {
        clock_lacks(expression)
    } else if is_captured(expression) {
        capture_lacks(expression)
    } else {
        event_lacks(expression)
    }
}

/// Whether there is a group of events of a host that captured messages don't have.
fn is_of_host(expression: &Regex) -> bool
    ensures { result ≡ is_of_host (regex_names expression.now) }
{
    has_group(expression, b"host")
        || (has_group(expression, b"dir") || has_group(expression, b"peer"))
}

/// Whether there are groups of captured messages and of events of a host, and `name`, which both have.
fn is_mixed(expression: &Regex) -> bool
    ensures { result ≡ is_mixed (regex_names expression.now) }
{
    is_captured(expression) && (is_of_host(expression) && has_group(expression, b"name"))
}

/// The first group that the expression lacks of events of a host, if it may mean these as well as captured messages.
pub(crate) fn lacks_besides(expression: &Regex) -> Option<Group>
    ensures { result ≡ lacks_besides (regex_names expression.now) }
{
    if is_timed(expression) {
        return None;
    }
    if is_mixed(expression) {
        Some(event_lacks(expression))
    } else {
        None
    }
}
