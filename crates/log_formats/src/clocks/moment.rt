//! Events with their vector time, read.
ghost use Rattle.std.specs.Prelude.{◌≡◌, [], map, IfOk};
ghost use Rattle.log_lines.specs.Events.{clocked_at_view};
ghost use Rattle.log_lines.specs.Reading.{read_view};
ghost use Rattle.log_formats.specs.Clocks.Moments.{moment_view, worded, moment_of, with_moments, is_by_clock, own_stamp, any_by_clock};
ghost use Rattle.log_formats.specs.Clocks.Stamps.{stamp_view};

use crate::clocks::stamp::{Stamp, count_of, stamps_in};
use log_lines::{Clocked, ClockedAt, Place, Read, by_words};
use std::alloc::{AllocError, Global};

/// An event with its vector time.
#[derive(Drop)]
pub(crate) struct Moment<'a> {
    pub clocked: Clocked<'a>,
    pub place: Place,
    /// What its words alone give.
    pub worded: Read<'a>,
    pub stamps: Vec<Stamp<'a>>,
    /// The number of this event among those of its host, by its clock, from 1. It is 0 if the clock doesn't give it.
    pub own: u32,
}

/// Reads the words of an event. It fails only if there is no memory.
fn worded<'a>(alloc: Global, event: ClockedAt<'a>) -> Result<Read<'a>, AllocError>
    ensures { IfOk result (λ read. read_view read ≡ worded (clocked_at_view event.entry)) }
{
    let mut read = Read::new(alloc);
    read.clocked.push(event)?;
    by_words(alloc, read)
}

/// Reads an event. It fails only if there is no memory.
fn moment_of<'a>(alloc: Global, event: ClockedAt<'a>) -> Result<Moment<'a>, AllocError>
    ensures { IfOk result (λ m. moment_view m ≡ moment_of (clocked_at_view event.entry)) }
{
    let clocked = event.clocked;
    let stamps = stamps_in(alloc, clocked.clock)?;
    let own = count_of(&stamps, clocked.host);
    Ok(Moment {
        clocked,
        place: event.place,
        worded: worded(alloc, event)?,
        stamps,
        own,
    })
}

/// Reads events. It fails only if there is no memory.
pub(crate) fn moments_of<'a>(
    alloc: Global,
    events: &[ClockedAt<'a>],
) -> Result<Vec<Moment<'a>>, AllocError>
    ensures { IfOk result (λ moments. map moment_view moments.items ≡ with_moments [] (map clocked_at_view events.now)) }
{
    let mut moments = Vec::new(alloc);
    for event in events {
        moments.push(moment_of(alloc, *event)?)?;
    }
    Ok(moments)
}

/// Whether the event isn't read by its words, and its clock gives its number.
pub(crate) fn is_by_clock(moment: &Moment<'_>) -> bool
    ensures { result ≡ is_by_clock (moment_view moment.now) }
{
    moment.worded.others.is_some() && 0 < moment.own
}

/// The event's own entry: its host, and its number among the events of this host.
pub(crate) fn own_stamp<'a>(moment: &Moment<'a>) -> Stamp<'a>
    ensures { stamp_view result ≡ own_stamp (moment_view moment.now) }
{
    Stamp {
        host: moment.clocked.host,
        count: moment.own,
    }
}

/// Whether clocks decide about one of the events.
pub(crate) fn any_by_clock(moments: &[Moment<'_>]) -> bool
    ensures { result ≡ any_by_clock (map moment_view moments.now) }
{
    for moment in moments {
        if is_by_clock(moment) {
            return true;
        }
    }
    false
}
