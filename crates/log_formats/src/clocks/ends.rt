//! The ends of messages at each event.
ghost use Rattle.std.specs.Prelude.{◌≡◌, [], map, replicate, IfOk, OnOk};
ghost use Rattle.log_formats.specs.Clocks.Ends.{place_of, with_end, AreEnds};
ghost use Rattle.log_formats.specs.Clocks.Hearing.{heard_view};

use crate::clocks::heard::Heard;
use std::alloc::{AllocError, Global};

/// An end of a message.
#[derive(Clone, Copy, Debug, PartialEq, Eq)]
pub(crate) enum End {
    Send,
    Receive,
}

/// The place of the event at this end, if the log has it.
fn place_of(end: End, heard: &Heard<'_>) -> Option<usize>
    ensures { result ≡ place_of end (heard_view heard.now) }
{
    match end {
        End::Send => heard.source,
        End::Receive => Some(heard.at),
    }
}

/// An empty list for each of `count` events. It fails only if there is no memory.
fn no_ends<'a>(alloc: Global, count: usize) -> Result<Vec<Vec<Heard<'a>>>, AllocError>
    ensures { IfOk result (λ lists. map (λ list. map heard_view list.items) lists.items ≡ replicate count []) }
{
    let mut lists = Vec::new(alloc);
    'lists: while lists.len() < count {
        lists.push(Vec::new(alloc))?;
    }
    Ok(lists)
}

/// Adds a heard entry to the list of this place, if there is one.
fn put<'a>(
    lists: &mut Vec<Vec<Heard<'a>>>,
    place: Option<usize>,
    heard: Heard<'a>,
) -> Result<(), AllocError>
    ensures { OnOk result (map (λ list. map heard_view list.items) lists.new.items
        ≡ with_end (map (λ list. map heard_view list.items) lists.old.items) place (heard_view heard.entry)) }
{
    if let Some(place) = place {
        if place < lists.len() {
            lists[place].push(heard)?;
        }
    }
    Ok(())
}

/// For each of `count` events the heard entries whose messages have this end there, in the order of `all`. It fails
/// only if there is no memory.
pub(crate) fn ends_of<'a>(
    alloc: Global,
    end: End,
    count: usize,
    all: &[Heard<'a>],
) -> Result<Vec<Vec<Heard<'a>>>, AllocError>
    ensures { IfOk result (λ lists. AreEnds end count (map heard_view all.now) (map (λ list. map heard_view list.items) lists.items)) }
{
    let mut lists = no_ends(alloc, count)?;
    for heard in all {
        put(&mut lists, place_of(end, heard), *heard)?;
    }
    Ok(lists)
}
