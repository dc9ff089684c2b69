//! Lines while they grow.
ghost use Rattle.std.specs.Prelude.{◌≡◌, ◌≢◌, ◌≤◌, ◌<◌, ◌+◌, ◌++◌, ◌∷◌, [], ◌↔◌, ◌==◌, length, map, IsOk, OnOk, OnErr};
ghost use Rattle.std.specs.Prelude.{Ok, Err, slice_index_or};
ghost use Rattle.chart.specs.declared.event.Event.{Event};
ghost use Rattle.chart.specs.Events.{send_event, partner_of, region_of, is_receive_from, is_in, greatest_region};
ghost use Rattle.chart.specs.Events.{MayHaveRegion, is_receive};
ghost use Rattle.chart.specs.Charts.{IsLine};
ghost use Rattle.chart.specs.Runs.{IsStartOfRun, EndsWithRun};
ghost use Rattle.chart.specs.LineLayout.{IsNext};
ghost use Rattle.chart.specs.declared.line.TheConstants.{MAX_EVENTS};

use crate::event::Event;
use crate::instance::{InstanceNo, MAX_INSTANCES};
use crate::line::{LineError, MAX_EVENTS};
use crate::message_names::MessageNames;
use crate::name::Name;
use std::alloc::{AllocError, Global};
use std::marker::Model;

/// An event as a growing line keeps it, in ten bytes.
#[derive(Clone, Copy, Debug)]
struct Entry {
    /// The instance at the other end of the message.
    partner: InstanceNo,
    receives: bool,
    /// The place of the message's name among the line's names.
    name: u16,
    /// The coregion of a receive.
    region: u16,
    starts: Starts,
}

/// Where the runs of an event start: for each run, the number of events of the line before it.
#[derive(Clone, Copy, Debug)]
struct Starts {
    /// The run of neighbouring receives from the event's sender.
    run: u16,
    /// The run of receives in the event's coregion.
    region: u16,
}

/// The line of one instance while it grows: its events in order, and room for more. A contract sees a record of the
/// line and of the room.
///
/// It has at most [`MAX_EVENTS`] events. None of them names the line's own instance, and their coregions are numbered
/// along the line. An event takes ten bytes. The name of its message takes more only if it isn't found among the names
/// of earlier events. For each event the line also keeps where its run of receives from one sender began, and where its
/// coregion began. So a walk back along the line can pass such a run in one step.
#[derive(Debug, Drop)]
pub struct GrowingLine {
    instance: InstanceNo,
    entries: Vec<Entry>,
    names: MessageNames,
    /// The greatest coregion, or 0.
    greatest: u32,
}

impl Model for GrowingLine {
    ghost use Rattle.std.specs.Prelude.{◌-◌, min};
    ghost use Rattle.std.specs.Vec.{vec_len, vec_capacity};
    ghost use Rattle.chart.specs.Charts.{GrowingView};

    ghost Value = { GrowingView };

    ghost use Rattle.chart.specs.LineLayout.{events_of, AreEntries};

    ghost view = { λ l. record {
      line = record { instance = l.instance; events = events_of l.names.names.items l.entries.items };
      room = min (vec_capacity l.entries - vec_len l.entries) (vec_capacity l.names.names - vec_len l.names.names);
    } };

    ghost invariant = { λ l. AreEntries l.instance l.names.names.items l.entries.items l.greatest };
}

impl GrowingLine {
    /// An empty line with no room. It takes no memory.
    pub fn new(alloc: Global, instance: InstanceNo) -> GrowingLine
        ensures { result ≡ record { line = record { instance = instance; events = [] }; room = 0 } }
    {
        GrowingLine {
            instance,
            entries: Vec::new(alloc),
            names: MessageNames::new(alloc),
            greatest: 0,
        }
    }

    #[inline(always)]
    pub fn instance(&self) -> InstanceNo
        ensures { result ≡ self.now.line.instance }
    {
        self.instance
    }

    /// What holds of each line.
    #[inline(always)]
    pub(crate) fn keeps(&self)
        ensures { IsLine self.now.line }
    {
        let _ = &self.entries;
    }

    /// The event of this index, from 0.
    #[inline(always)]
    pub fn event(&self, index: usize) -> Event
        requires { index < length self.now.line.events }
        ensures value { result ≡ slice_index_or self.now.line.events index result }
        ensures line { IsLine self.now.line }
    {
        let entry = self.entries[index];
        let name = self.names.name(entry.name);
        if entry.receives {
            Event::Receive {
                from: entry.partner,
                name,
                region: entry.region as u32,
            }
        } else {
            Event::Send {
                to: entry.partner,
                name,
            }
        }
    }

    /// Whether the event of this index, from 0, is a receive. The event's name isn't read.
    #[inline(always)]
    pub fn is_receive(&self, index: usize) -> bool
        requires { index < length self.now.line.events }
        ensures { (m : Event) → m ≡ slice_index_or self.now.line.events index m → result ≡ is_receive m }
    {
        self.entries[index].receives
    }

    /// Whether the event of this index, from 0, is a receive from this instance. The event's name isn't read.
    #[inline(always)]
    pub fn is_receive_from(&self, index: usize, sender: InstanceNo) -> bool
        requires { index < length self.now.line.events }
        ensures { (m : Event) → m ≡ slice_index_or self.now.line.events index m → result ≡ is_receive_from sender m }
    {
        let entry = self.entries[index];
        if !entry.receives {
            return false;
        }
        entry.partner == sender
    }

    /// Whether the event of this index, from 0, is a receive in this coregion. No event is in coregion 0.
    #[inline(always)]
    pub fn is_in(&self, index: usize, region: u32) -> bool
        requires { index < length self.now.line.events }
        ensures { (m : Event) → m ≡ slice_index_or self.now.line.events index m → result ≡ is_in region m }
    {
        let entry = self.entries[index];
        if region == 0 || !entry.receives {
            return false;
        }
        entry.region as u32 == region
    }

    #[inline(always)]
    pub fn len(&self) -> usize
        ensures value { result ≡ length self.now.line.events }
        ensures limit { result ≤ MAX_EVENTS }
    {
        self.entries.len()
    }

    #[inline(always)]
    pub fn is_empty(&self) -> bool
        ensures { result ≡ (length self.now.line.events == 0) }
    {
        self.entries.is_empty()
    }

    /// The greatest coregion of the line, or 0 if there is none. The next coregion's number is one above it.
    #[inline(always)]
    pub fn greatest_region(&self) -> u32
        ensures value { result ≡ greatest_region self.now.line.events }
        ensures limit { result ≤ length self.now.line.events }
    {
        self.greatest
    }

    /// The number of events that can be added without memory.
    #[inline(always)]
    pub fn room(&self) -> usize
        ensures { result ≡ self.now.room }
    {
        (self.entries.capacity() - self.entries.len()).min(self.names.room())
    }

    /// Makes room for this number of events.
    ///
    /// F6: it fails only if there is no memory, and then nothing has changed.
    #[inline(always)]
    pub fn reserve(&mut self, events: usize) -> Result<(), AllocError>
        ensures line { self.new.line ≡ self.old.line }
        ensures ok { OnOk result (events ≤ self.new.room) }
        ensures least { self.old.room ≤ self.new.room }
        ensures succeeds { events ≤ self.old.room → IsOk result }
        ensures err { OnErr result (self.new ≡ self.old) }
    {
        if events <= self.entries.capacity() - self.entries.len() && events <= self.names.room() {
            return Ok(());
        }
        self.grow(events)
    }

    /// Makes room for this number of events, as [`GrowingLine::reserve`] does if there is too little room.
    ///
    /// The list with more room grows first. If the growth of the other is then refused, the room is what it was.
    #[cold]
    #[inline(never)]
    fn grow(&mut self, events: usize) -> Result<(), AllocError>
        ensures line { self.new.line ≡ self.old.line }
        ensures ok { OnOk result (events ≤ self.new.room) }
        ensures least { self.old.room ≤ self.new.room }
        ensures err { OnErr result (self.new ≡ self.old) }
    {
        if self.entries.capacity() - self.entries.len() < self.names.room() {
            self.names.reserve(events)?;
            self.entries.reserve(events)
        } else {
            self.entries.reserve(events)?;
            self.names.reserve(events)
        }
    }

    /// The number of events before the run of neighbouring receives from one sender that ends with the event of this
    /// index, from 1. A send is in no such run. For a send the result is some number below the index.
    #[inline(always)]
    pub fn run_start(&self, index: usize) -> usize
        requires begun { 1 ≤ index }
        requires within { index ≤ length self.now.line.events }
        ensures { IsStartOfRun is_receive_from self.now.line.events index result }
    {
        self.entries[index - 1].starts.run as usize
    }

    /// The number of events before the part of its coregion that ends with the event of this index, from 1. Outside of
    /// a coregion the result is some number below the index.
    #[inline(always)]
    pub fn region_start(&self, index: usize) -> usize
        requires begun { 1 ≤ index }
        requires within { index ≤ length self.now.line.events }
        ensures { IsStartOfRun is_in self.now.line.events index result }
    {
        self.entries[index - 1].starts.region as usize
    }

    /// What is kept for a receive from this sender in this coregion, if it comes next.
    #[inline(always)]
    fn receive_starts(&self, sender: InstanceNo, region: u32) -> Starts
        ensures run { EndsWithRun (is_receive_from sender) self.now.line.events result.run }
        ensures region { EndsWithRun (is_in region) self.now.line.events result.region }
    {
        let length = self.len();
        let all = length as u16;
        if length == 0 {
            return Starts {
                run: all,
                region: all,
            };
        }
        Starts {
            run: if self.is_receive_from(length - 1, sender) {
                self.run_start(length) as u16
            } else {
                all
            },
            region: if self.is_in(length - 1, region) {
                self.region_start(length) as u16
            } else {
                all
            },
        }
    }

    /// What is kept for this event, if it comes next.
    #[inline(always)]
    fn next_starts(&self, event: &Event) -> Starts
        ensures { IsNext self.now.line.events event.now result }
    {
        match event {
            Event::Send { .. } => {
                let all = self.len() as u16;
                Starts {
                    run: all,
                    region: all,
                }
            }
            Event::Receive { from, region, .. } => self.receive_starts(*from, *region),
        }
    }

    /// Adds an event at the end. A refusal, the first of F13, F7 and F6 that applies, leaves the line as it was. If
    /// there is room, the call takes no memory.
    ///
    /// The caller ensures that the event's coregion may come next. It is 0, or one above the greatest so far, or that
    /// greatest one if the last event is a receive in it.
    #[inline(always)]
    pub fn push(&mut self, event: Event) -> Result<(), LineError>
        requires { MayHaveRegion self.old.line.events (region_of event) }
        ensures ok { OnOk result
            (self.new.line ≡ record self.old.line { events = self.old.line.events ++ event ∷ [] }) }
        ensures least { self.old.room ≤ self.new.room + 1 }
        ensures itself { (result ≡ Err LineError.ToItself) ↔ (partner_of event ≡ self.old.line.instance) }
        ensures full { (result ≡ Err LineError.LineFull)
            ↔ ((partner_of event ≢ self.old.line.instance) × (length self.old.line.events ≡ MAX_EVENTS)) }
        ensures room { 0 < self.old.room → result ≢ Err LineError.Memory }
        ensures err { OnErr result (self.new ≡ self.old) }
    {
        if event.partner() == self.instance {
            return Err(LineError::ToItself);
        }
        if self.entries.len() >= MAX_EVENTS {
            return Err(LineError::LineFull);
        }
        let starts = self.next_starts(&event);
        self.reserve(1)?;
        let guess = if event.is_receive() {
            MAX_INSTANCES + event.partner().place()
        } else {
            event.partner().place()
        };
        let name = self.names.place_of(guess, &event.name());
        self.entries.push_reserved(Entry {
            partner: event.partner(),
            receives: event.is_receive(),
            name,
            region: event.region() as u16,
            starts,
        });
        self.greatest = self.greatest.max(event.region());
        Ok(())
    }

    /// Adds a send to this instance for each name, in order, or none of them. A refusal, the first of F13, F7 and F6
    /// that applies, leaves the line as it was.
    pub fn push_sends(&mut self, to: InstanceNo, names: &[Name]) -> Result<(), LineError>
        ensures ok { OnOk result
            (self.new.line ≡ record self.old.line { events = self.old.line.events ++ map (send_event to) names.now }) }
        ensures least { self.old.room ≤ self.new.room + length names.now }
        ensures itself { (result ≡ Err LineError.ToItself) ↔ (to ≡ self.old.line.instance) }
        ensures full { (result ≡ Err LineError.LineFull)
            ↔ ((to ≢ self.old.line.instance) × (MAX_EVENTS < length self.old.line.events + length names.now)) }
        ensures err { OnErr result (self.new ≡ self.old) }
    {
        if to == self.instance {
            return Err(LineError::ToItself);
        }
        if names.len() > MAX_EVENTS - self.entries.len() {
            return Err(LineError::LineFull);
        }
        self.reserve(names.len())?;
        for name in names {
            let Ok(()) = self.push(Event::Send { to, name: *name }) else {
                unreachable!()
            };
        }
        Ok(())
    }
}
