//! The kinds of marks that a picture has.
ghost use Rattle.std.specs.Prelude.{◌≡◌};
ghost use Rattle.std.specs.List.{list_any};
ghost use Rattle.pictures.specs.MarksThere.{is_marked, has_marks, is_waiting, has_waiting, is_in_region, has_region};

use crate::picture::Picture;
use chart::{Event, EventNo, Report};
use chart_layout::Row;
use picture_parts::elements::Marks;

/// Whether the receive of a report has a dot.
fn is_marked(picture: &Picture<'_>, report: &Report) -> bool
    ensures { result ≡ is_marked picture.now report.now }
{
    !report.earlier().is_empty() && picture.cell_of(&report.receive()).is_some()
}

fn has_marks(picture: &Picture<'_>) -> bool
    ensures { result ≡ has_marks picture.now }
{
    picture
        .reports()
        .iter()
        .any(|report| is_marked(picture, report))
}

/// Whether the event is a send that is drawn, and its message waits for an instance with a column.
fn is_waiting(picture: &Picture<'_>, event: &EventNo) -> bool
    ensures { result ≡ is_waiting picture.now event.now }
{
    if picture.cell_of(event).is_none() {
        return false;
    }
    let Some(found) = picture.event_of(event) else {
        return false;
    };
    match found {
        Event::Send { to, .. } => {
            picture.end_of(event).is_none() && picture.column_of(to).is_some()
        }
        Event::Receive { .. } => false,
    }
}

fn has_waiting(picture: &Picture<'_>, row: &Row) -> bool
    ensures { result ≡ has_waiting picture.now row.now }
{
    match row {
        Row::Message { .. } => false,
        Row::Event(event) => is_waiting(picture, event),
    }
}

/// Whether the event is drawn and in a coregion.
fn is_in_region(picture: &Picture<'_>, event: &EventNo) -> bool
    ensures { result ≡ is_in_region picture.now event.now }
{
    if picture.cell_of(event).is_none() {
        return false;
    }
    match picture.event_of(event) {
        Some(found) => found.region() != 0,
        None => false,
    }
}

fn has_region(picture: &Picture<'_>, row: &Row) -> bool
    ensures { result ≡ has_region picture.now row.now }
{
    match row {
        Row::Message { receive, .. } => is_in_region(picture, receive),
        Row::Event(event) => is_in_region(picture, event),
    }
}

fn is_any_waiting(picture: &Picture<'_>) -> bool
    ensures { result ≡ list_any (has_waiting picture.now) picture.now.choice.rows }
{
    picture.rows().iter().any(|row| has_waiting(picture, row))
}

fn is_any_in_region(picture: &Picture<'_>) -> bool
    ensures { result ≡ list_any (has_region picture.now) picture.now.choice.rows }
{
    picture.rows().iter().any(|row| has_region(picture, row))
}

/// The kinds of marks that a picture has.
pub(crate) fn marks_in(picture: &Picture<'_>) -> Marks
    ensures races { result.races ≡ has_marks picture.now }
    ensures waits { result.waits ≡ list_any (has_waiting picture.now) picture.now.choice.rows }
    ensures regions { result.regions ≡ list_any (has_region picture.now) picture.now.choice.rows }
{
    Marks {
        races: has_marks(picture),
        waits: is_any_waiting(picture),
        regions: is_any_in_region(picture),
    }
}
