//! The result of reading a log.
ghost use Rattle.std.specs.Prelude.{◌≡◌, OnOk};
ghost use Rattle.log_lines.specs.Events.{event_view, line_view, received};
ghost use Rattle.log_lines.specs.Places.{earlier};
ghost use Rattle.log_lines.specs.Reading.{nothing_read, read_view, with_other, with_line};

use crate::event::{Act, ClockedAt, Event, LineSays, LoggedEvent, Place};
use std::alloc::{AllocError, Global};

/// Lines that aren't read.
#[derive(Clone, Copy, Debug, PartialEq, Eq)]
pub struct Others {
    pub count: u64,
    pub first: Place,
}

/// The result of reading a log: its events, in the order of the lines, and the lines that aren't read.
#[derive(Debug, Drop)]
pub struct Read<'a> {
    pub logged: Vec<LoggedEvent<'a>>,
    /// The events with their vector time.
    pub clocked: Vec<ClockedAt<'a>>,
    pub others: Option<Others>,
}

/// The earlier one of two places.
fn earlier(first: Place, place: Place) -> Place
    ensures { result ≡ earlier first place }
{
    if place.is_before(&first) {
        place
    } else {
        first
    }
}

/// Adds a line that isn't read. The earlier place is kept. The count stops at its type's greatest number.
pub fn one_more(others: Option<Others>, place: Place) -> Others
    ensures { result ≡ with_other place others }
{
    match others {
        None => Others {
            count: 1,
            first: place,
        },
        Some(others) => Others {
            count: others.count.saturating_add(1),
            first: earlier(others.first, place),
        },
    }
}

/// The receive of a message, by its send.
fn received<'a>(event: Event<'a>) -> Event<'a>
    ensures { event_view result ≡ received (event_view event.entry) }
{
    Event {
        host: event.peer,
        act: Act::Receive,
        peer: event.host,
        name: event.name,
        id: event.id,
    }
}

impl<'a> Read<'a> {
    /// An empty result. It takes no memory.
    pub fn new(alloc: Global) -> Read<'a>
        ensures { read_view result ≡ nothing_read }
    {
        Read {
            logged: Vec::new(alloc),
            clocked: Vec::new(alloc),
            others: None,
        }
    }

    /// Adds the meaning of the line at this place.
    pub fn add(&mut self, place: Place, line: LineSays<'a>) -> Result<(), AllocError>
        ensures { OnOk result (read_view self.new ≡ with_line place (line_view line.entry) (read_view self.old)) }
    {
        match line {
            LineSays::Event(event) => self.logged.push(LoggedEvent { event, place })?,
            LineSays::Clocked(clocked) => self.clocked.push(ClockedAt { clocked, place })?,
            LineSays::Message(event) => {
                self.logged.push(LoggedEvent { event, place })?;
                let event = received(event);
                self.logged.push(LoggedEvent { event, place })?;
            }
            LineSays::Nothing => {}
            LineSays::Other => self.others = Some(one_more(self.others, place)),
        }
        Ok(())
    }
}
