//! The other end of each event's message.
ghost use Rattle.std.specs.Prelude.{◌≡◌, ◌<◌, ◌≤◌, suc, None, Some, length, replicate, slice_set, slice_index_or, IfOk};
ghost use Rattle.std.specs.Prelude.{OnOk};
ghost use Rattle.std.proofs.lemmas.List.{get_or_past};
ghost use Rattle.chart.specs.declared.instance.TheConstants.{MAX_INSTANCES};
ghost use Rattle.chart.specs.declared.line.TheConstants.{MAX_EVENTS};
ghost use Rattle.chart.specs.Charts.{chart_lines};
ghost use Rattle.chart_layout.specs.Ends.{AreEnds, HasSlot, IsPart, IsSet, end_of};

use crate::finding::len_of;
use chart::{EventNo, InstanceNo, Line};
use closure::Closure;
use std::alloc::{AllocError, Global};
use std::marker::Model;

/// The other ends of the messages of an instance's events. A contract sees the list.
#[derive(Drop)]
struct LineEnds {
    ends: Vec<Option<EventNo>>,
}

impl Model for LineEnds {
    ghost use Rattle.std.specs.Prelude.{List, Option};
    ghost use Rattle.chart.specs.declared.instance.EventNo.{EventNo};

    ghost Value = { List (Option EventNo) };

    ghost view = { λ l. l.ends.items };
}

impl LineEnds {
    /// The ends of this number of events, none of which is known yet.
    fn unknown(alloc: Global, events: usize) -> Result<LineEnds, AllocError>
        ensures { IfOk result (λ line. line ≡ replicate events None) }
    {
        let mut ends = Vec::with_capacity(alloc, events)?;
        for _ in 0..events {
            ends.push(None)?;
        }
        Ok(LineEnds { ends })
    }

    /// The end at a place from 0.
    fn get(&self, place: usize) -> Option<EventNo>
        ensures { result ≡ slice_index_or self.now place None }
    {
        if place < self.ends.len() {
            self.ends[place]
        } else {
            None
        }
    }

    /// Sets the end at a place from 0.
    fn set(&mut self, place: usize, end: EventNo)
        requires { place < length self.old }
        ensures { self.new ≡ slice_set self.old place (Some end) }
    {
        self.ends[place] = Some(end);
    }
}

/// Puts the other end of an event's message into the event's slot.
fn put(lines: &mut [LineEnds], event: &EventNo, end: &EventNo)
    requires { HasSlot lines.old event.now }
    ensures { IsSet event.now end.now lines.old lines.new }
{
    lines[event.instance.place()].set(event.index as usize - 1, *end);
}

/// Puts both ends of a receive's message into the table, if the event is a receive.
fn add_event(lines: &mut [LineEnds], closure: &Closure<'_>, line: usize, index: usize)
    requires limits { (length closure.now ≤ MAX_INSTANCES) × (index < MAX_EVENTS) }
    requires line { line < length closure.now }
    requires index { index < length (chart_lines closure.now (suc line)) }
    requires part { IsPart closure.now lines.old line index }
    ensures { IsPart closure.now lines.new line (suc index) }
{
    let event = EventNo {
        instance: InstanceNo::at_place(line),
        index: index as u32 + 1,
    };
    if let Some(send) = closure.send_of(&event) {
        put(lines, &event, &send);
        put(lines, &send, &event);
    }
}

/// Puts both ends of the messages of a line's receives into the table.
fn add_line(lines: &mut [LineEnds], closure: &Closure<'_>, line: usize)
    requires limit { length closure.now ≤ MAX_INSTANCES }
    requires line { line < length closure.now }
    requires part { IsPart closure.now lines.old line 0 }
    ensures { IsPart closure.now lines.new (suc line) 0 }
{
    for index in 0..len_of(closure.lines(), line) {
        add_event(lines, closure, line, index);
    }
}

/// A table for these lines, without known ends.
fn unknown(alloc: Global, lines: &[Line]) -> Result<Vec<LineEnds>, AllocError>
    ensures { IfOk result (λ ends. IsPart lines.now ends.items 0 0) }
{
    let mut ends = Vec::with_capacity(alloc, lines.len())?;
    for line in lines {
        ends.push(LineEnds::unknown(alloc, line.len())?)?;
    }
    Ok(ends)
}

/// The other end of the message of each event of a chart. A contract sees a table.
#[derive(Drop)]
pub struct Ends {
    lines: Vec<LineEnds>,
}

impl Model for Ends {
    ghost use Rattle.std.specs.Prelude.{List, Option};
    ghost use Rattle.chart.specs.declared.instance.EventNo.{EventNo};

    ghost Value = { List (List (Option EventNo)) };

    ghost view = { λ e. e.lines.items };
}

impl Ends {
    /// The other ends of a chart's messages.
    ///
    /// It looks at each event once. F6: it fails only if there is no memory.
    pub fn of(alloc: Global, closure: &Closure<'_>) -> Result<Ends, AllocError>
        ensures { IfOk result (AreEnds (chart_lines closure.now)) }
    {
        let mut lines = unknown(alloc, closure.lines())?;
        for line in 0..closure.len() {
            add_line(lines.as_mut_slice(), closure, line);
        }
        Ok(Ends { lines })
    }

    /// The other end of an event's message: its send, or its receive. There is none exactly if the event is a send
    /// whose message waits, or if the chart has no such event.
    pub fn of_event(&self, event: EventNo) -> Option<EventNo>
        ensures { result ≡ end_of self.now event }
    {
        if event.index == 0 {
            return None;
        }
        match self.lines.get(event.instance.place()) {
            Some(line) => line.get(event.index as usize - 1),
            None => None,
        }
    }
}
