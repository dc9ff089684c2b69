//! The events of a chart with their vector clocks.
ghost use Rattle.std.specs.Prelude.{◌≡◌, ◌++◌, IfOk, OnOk};
ghost use Rattle.diagram_export.specs.Clocks.{entry, tick, events_of, entries_from, ticks, log_of};

use crate::clocks::Times;
use crate::export::Export;
use chart::EventNo;
use chart_layout::Row;
use clock::Clock;
use std::alloc::{AllocError, Global};
use std::marker::Model;

/// An event with its vector clock.
#[derive(Drop)]
pub(crate) struct Stamped {
    pub(crate) event: EventNo,
    pub(crate) clock: Clock,
}

/// Adds an event with its clock.
fn add_event(
    alloc: Global,
    export: &Export<'_>,
    log: &mut Vec<Stamped>,
    times: &mut Times,
    at: &EventNo,
) -> Result<(), AllocError>
    ensures log { OnOk result (log.new.items ≡ log.old.items ++ entry export.now times.old at.now) }
    ensures times { OnOk result (times.new ≡ tick export.now times.old at.now) }
{
    let Some(event) = export.event_of(at) else {
        return Ok(());
    };
    if let Some(clock) = times.tick(alloc, export, at, &event)? {
        log.push(Stamped { event: *at, clock })?;
    }
    Ok(())
}

/// Adds the events of a row with their clocks.
fn add_row(
    alloc: Global,
    export: &Export<'_>,
    log: &mut Vec<Stamped>,
    times: &mut Times,
    row: &Row,
) -> Result<(), AllocError>
    ensures log { OnOk result
        (log.new.items ≡ log.old.items ++ entries_from export.now times.old (events_of row.now)) }
    ensures times { OnOk result (times.new ≡ ticks export.now times.old (events_of row.now)) }
{
    match row {
        Row::Message { send, receive } => {
            add_event(alloc, export, log, times, send)?;
            add_event(alloc, export, log, times, receive)
        }
        Row::Event(event) => add_event(alloc, export, log, times, event),
    }
}

/// The events of a chart with their vector clocks, in the order of the rows. A contract sees the list.
#[derive(Drop)]
pub struct Log {
    entries: Vec<Stamped>,
}

impl Model for Log {
    ghost use Rattle.std.specs.Prelude.{List};
    ghost use Rattle.diagram_export.specs.declared.log.Stamped.{Stamped};

    ghost Value = { List Stamped };

    ghost view = { λ l. l.entries.items };
}

impl Log {
    /// The log of an export.
    ///
    /// F6: it fails only if memory runs out.
    pub fn of(alloc: Global, export: &Export<'_>) -> Result<Log, AllocError>
        ensures { IfOk result (λ log. log ≡ log_of export.now) }
    {
        let mut times = Times::at_first(alloc, export)?;
        let mut entries = Vec::new(alloc);
        for row in export.rows() {
            add_row(alloc, export, &mut entries, &mut times, row)?;
        }
        Ok(Log { entries })
    }

    pub(crate) fn entries(&self) -> &[Stamped]
        ensures { result.now ≡ self.now }
    {
        self.entries.as_slice()
    }
}
