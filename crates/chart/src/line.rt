//! Lines: the events of one instance.
ghost use Rattle.std.specs.Prelude.{◌≡◌, ◌≢◌, ◌≤◌, ◌++◌, ◌∷◌, [], ◌↔◌, ◌==◌, length, vec_capacity, OnOk, OnErr};
ghost use Rattle.std.specs.Prelude.{Err};
ghost use Rattle.chart.specs.Events.{partner_of, region_of, greatest_region, MayHaveRegion};
ghost use Rattle.chart.specs.Charts.{IsLine};
ghost use Rattle.chart.specs.declared.line.TheConstants.{MAX_EVENTS};
ghost use Rattle.chart.specs.declared.line.LineError.TheVariants.{Memory};

use crate::event::Event;
use crate::growing_line::GrowingLine;
use crate::instance::InstanceNo;
use std::alloc::{AllocError, AllocFailed, Global};
use std::marker::Model;
use thiserror::Error;

/// The most events on a line.
pub const MAX_EVENTS: usize = 4096;

const _: () = prove!(MAX_EVENTS == 4096);

/// Why a line takes no event: the first of these that applies.
#[derive(Clone, Copy, Debug, PartialEq, Eq, Error)]
pub enum LineError {
    /// F13: the event's partner is the line's own instance.
    #[error("an instance sends no message to itself")]
    ToItself,
    /// F7: the line has [`MAX_EVENTS`] events.
    #[error("the line is full")]
    LineFull,
    /// F6: a growth was refused.
    #[error("out of memory")]
    Memory,
}

impl From<AllocError> for LineError {
    ghost from_gives = { λ _ e. e ≡ Memory };

    fn from(_e: AllocError) -> LineError {
        LineError::Memory
    }
}

impl<T: Drop> From<AllocFailed<T>> for LineError {
    ghost from_gives = { λ _ e. e ≡ Memory };

    fn from(_e: AllocFailed<T>) -> LineError {
        LineError::Memory
    }
}

/// The line of one instance in a chart (its lifeline, in UML). It has a [`GrowingLine`], whose room doesn't matter, and
/// its events as a list. A contract sees a record of the instance and of the events.
#[derive(Debug)]
pub struct Line {
    growing: GrowingLine,
    events: Vec<Event>,
}

// Written by hand, as that of a chart is.
impl Drop for Line {
    #[inline(never)]
    fn drop(self) {
        let Line {
            growing: _,
            events: _,
        } = self;
    }
}

impl Model for Line {
    ghost use Rattle.std.specs.Prelude.{◌≡◌};
    ghost use Rattle.chart.specs.Charts.{LineView};

    ghost Value = { LineView };

    ghost view = { λ l. l.growing.line };

    ghost invariant = { λ l. l.events.items ≡ l.growing.line.events };
}

impl Line {
    /// An empty line. It takes no memory.
    pub fn new(alloc: Global, instance: InstanceNo) -> Line
        ensures { result ≡ record { instance = instance; events = [] } }
    {
        Line {
            growing: GrowingLine::new(alloc, instance),
            events: Vec::new(alloc),
        }
    }

    /// The line that has grown so far. Its events are put into this list, which has room for them. It takes no memory.
    pub fn of(growing: GrowingLine, events: Vec<Event>) -> Line
        requires empty { events.items ≡ [] }
        requires room { length growing.line.events ≤ vec_capacity events }
        ensures { result ≡ growing.line }
    {
        let mut events = events;
        for place in 0..growing.len() {
            events.push_reserved(growing.event(place));
        }
        Line { growing, events }
    }

    /// The line as a growing line, with its room.
    pub fn as_growing(&self) -> &GrowingLine
        ensures { result.now.line ≡ self.now }
    {
        &self.growing
    }

    pub fn instance(&self) -> InstanceNo
        ensures { result ≡ self.now.instance }
    {
        self.growing.instance()
    }

    /// The events, the first of the line first.
    pub fn events(&self) -> &[Event]
        ensures value { result.now ≡ self.now.events }
        ensures line { IsLine self.now }
    {
        self.growing.keeps();
        self.events.as_slice()
    }

    pub fn len(&self) -> usize
        ensures value { result ≡ length self.now.events }
        ensures limit { result ≤ MAX_EVENTS }
    {
        self.growing.len()
    }

    pub fn is_empty(&self) -> bool
        ensures { result ≡ (length self.now.events == 0) }
    {
        self.growing.is_empty()
    }

    /// The greatest coregion of the line, as [`GrowingLine::greatest_region`] returns it.
    pub fn greatest_region(&self) -> u32
        ensures value { result ≡ greatest_region self.now.events }
        ensures limit { result ≤ length self.now.events }
    {
        self.growing.greatest_region()
    }

    /// Adds an event at the end, as [`GrowingLine::push`] does.
    pub fn push(&mut self, event: Event) -> Result<(), LineError>
        requires { MayHaveRegion self.old.events (region_of event) }
        ensures ok { OnOk result (self.new ≡ record self.old { events = self.old.events ++ event ∷ [] }) }
        ensures itself { (result ≡ Err LineError.ToItself) ↔ (partner_of event ≡ self.old.instance) }
        ensures full { (result ≡ Err LineError.LineFull)
            ↔ ((partner_of event ≢ self.old.instance) × (length self.old.events ≡ MAX_EVENTS)) }
        ensures err { OnErr result (self.new ≡ self.old) }
    {
        if event.partner() == self.growing.instance() {
            return Err(LineError::ToItself);
        }
        if self.growing.len() >= MAX_EVENTS {
            return Err(LineError::LineFull);
        }
        self.events.reserve(1)?;
        self.growing.push(event)?;
        self.events.push_reserved(event);
        Ok(())
    }
}
