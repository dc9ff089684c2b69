//! The free space beside a line.
ghost use Rattle.std.specs.Prelude.{◌≡◌, ◌≤◌};
ghost use Rattle.picture_parts.specs.Columns.Rooms.{plus, has_races_on, has_column, events_with, is_mirrored, bracket_room};
ghost use Rattle.picture_parts.specs.Columns.Rooms.{number_room, room_of};

use crate::columns::columns::{Column, Room};
use chart::{Event, InstanceNo, Report};

/// The sum of two numbers of pixels, but at most the greatest number of 32 bits.
pub(crate) fn plus(pixels: u32, more: u32) -> u32
    ensures { result ≡ plus pixels more }
{
    pixels.saturating_add(more)
}

/// Whether a receive of the instance may come before earlier events.
pub(crate) fn has_races_on(reports: &[Report], instance: InstanceNo) -> bool
    ensures { result ≡ has_races_on instance reports.now }
{
    reports.iter().any(|report| report.receive().instance == instance
        && !report.earlier().is_empty())
}

/// Whether the instance has one of these columns.
fn has_column(columns: &[Column], instance: InstanceNo) -> bool
    ensures { result ≡ has_column instance columns.now }
{
    columns.iter().any(|column| column.instance == instance)
}

/// The number of the events that are with an instance of one of these columns.
fn events_with(columns: &[Column], events: &[Event]) -> u32
    ensures { result ≡ events_with columns.now events.now }
{
    events.iter().fold(0u32, |count, event| {
        if has_column(columns, event.partner()) {
            plus(count, 1)
        } else {
            count
        }
    })
}

/// Whether the brackets of a line with these events are on its right. They are if most of its arrows lead to these
/// columns, which are on its left.
pub(crate) fn is_mirrored(columns: &[Column], events: &[Event]) -> bool
    ensures { result ≡ is_mirrored columns.now events.now }
{
    (events.len() as u64) < 2 * u64::from(events_with(columns, events))
}

/// The room that brackets need.
fn bracket_room(width: u32) -> u32
    requires { width ≤ 22 }
    ensures { result ≡ bracket_room width }
{
    3 * width + 24
}

/// The room that a number needs.
fn number_room(width: u32) -> u32
    requires { width ≤ 22 }
    ensures { result ≡ number_room width }
{
    width + 10
}

/// The room of a line whose greatest number has this width.
#[tactic(auto, unfolding(crate::specs::Columns::Rooms::room_of))]
pub(crate) fn room_of(races: bool, numbers: bool, mirrored: bool, width: u32) -> Room
    requires { width ≤ 22 }
    ensures { result ≡ room_of races numbers mirrored width }
{
    let brackets = bracket_room(width);
    let number = number_room(width);
    let step = width / 2 + 2;
    if !races {
        let right = if numbers { number } else { 7 };
        return Room {
            left: 7,
            right,
            step,
            mirrored: false,
        };
    }
    if mirrored {
        Room {
            left: number,
            right: brackets,
            step,
            mirrored,
        }
    } else {
        Room {
            left: brackets,
            right: number,
            step,
            mirrored,
        }
    }
}
