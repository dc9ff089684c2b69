//! Vector time along the rows of a layout.
ghost use Rattle.std.specs.Prelude.{◌≡◌, ◌≤◌, length, replicate, Some, IfOk, IfSome, OnOk, option_map};
ghost use Rattle.chart.specs.declared.instance.TheConstants.{MAX_INSTANCES};
ghost use Rattle.diagram_export.specs.Clocks.{clock_at, with_clock, carried_by, heard, stamp, with_carried};
ghost use Rattle.diagram_export.specs.Clocks.{ticked, at_first};

use crate::export::Export;
use chart::{Event, EventNo, InstanceNo};
use clock::Clock;
use std::alloc::{AllocError, Global};
use std::marker::Model;

/// The clock of each instance, and the clock that each message carries. A contract sees both lists.
#[derive(Drop)]
pub(crate) struct Times {
    clocks: Vec<Clock>,
    /// By the row of the message's send.
    carried: Vec<Clock>,
}

impl Model for Times {
    ghost use Rattle.std.specs.Prelude.{length};
    ghost use Rattle.diagram_export.specs.Clocks.{Times, AreClocks};

    ghost Value = { Times };

    ghost view = { λ t. record { clocks = t.clocks.items; carried = t.carried.items } };

    ghost invariant = { λ t. AreClocks (length t.clocks.items) t.clocks.items
        × AreClocks (length t.clocks.items) t.carried.items };
}

/// This number of clocks, all zero, for this number of instances.
fn zeros(alloc: Global, instances: usize, clocks: usize) -> Result<Vec<Clock>, AllocError>
    requires at_least_two { 2 ≤ instances }
    requires at_most { instances ≤ MAX_INSTANCES }
    ensures { IfOk result (λ zeros. zeros.items ≡ replicate clocks (replicate instances 0)) }
{
    let mut zeros = Vec::with_capacity(alloc, clocks)?;
    for _ in 0..clocks {
        zeros.push(Clock::zero(alloc, instances)?)?;
    }
    Ok(zeros)
}

impl Times {
    /// The clocks before the first event.
    pub(crate) fn at_first(alloc: Global, export: &Export<'_>) -> Result<Times, AllocError>
        ensures { IfOk result (λ times. times ≡ at_first export.now) }
    {
        let instances = export.instances();
        Ok(Times {
            clocks: zeros(alloc, instances, instances)?,
            carried: zeros(alloc, instances, export.rows().len())?,
        })
    }

    /// An instance's clock.
    fn clock_at(&self, instance: InstanceNo) -> Option<&Clock>
        ensures value { option_map (λ clock. clock.now) result ≡ clock_at self.now.clocks instance }
        ensures len { IfSome result (λ clock. length clock.now ≡ length self.now.clocks) }
        ensures within { IfSome result (λ clock. instance ≤ length clock.now) }
    {
        self.clocks.get(instance.place())
    }

    /// The clock that the message of this send carries.
    fn carried_by(&self, export: &Export<'_>, send: Option<EventNo>) -> Option<&Clock>
        ensures value { option_map (λ clock. clock.now) result ≡ carried_by export.now self.now.carried send }
        ensures len { IfSome result (λ clock. length clock.now ≡ length self.now.clocks) }
    {
        match send {
            Some(send) => match export.row_of(&send) {
                Some(row) => self.carried.get(row),
                None => None,
            },
            None => None,
        }
    }

    /// Merges the clock of an event's message into this clock, if the event is a receive.
    fn hear(&self, export: &Export<'_>, at: &EventNo, event: &Event, clock: &mut Clock)
        requires { length clock.old ≡ length self.now.clocks }
        ensures value { clock.new ≡ heard export.now self.now at.now event.now clock.old }
        ensures len { length clock.new ≡ length clock.old }
    {
        if let Event::Receive { .. } = event {
            if let Some(other) = self.carried_by(export, export.end_of(at)) {
                clock.merge(other);
            }
        }
    }

    /// Sets the clock that the message of a send carries.
    fn carry(&mut self, row: Option<usize>, clock: Clock)
        requires { length clock ≡ length self.old.clocks }
        ensures carried { self.new.carried ≡ with_carried self.old.carried row clock }
        ensures others { self.new.clocks ≡ self.old.clocks }
    {
        if let Some(row) = row {
            if row < self.carried.len() {
                self.carried[row] = clock;
            }
        }
    }

    /// Sets an instance's clock.
    fn put(&mut self, instance: InstanceNo, clock: Clock)
        requires len { length clock ≡ length self.old.clocks }
        requires within { instance ≤ length self.old.clocks }
        ensures clocks { self.new.clocks ≡ with_clock self.old.clocks instance clock }
        ensures others { self.new.carried ≡ self.old.carried }
    {
        self.clocks[instance.place()] = clock;
    }

    /// An event's clock, if its instance exists.
    fn stamp(
        &self,
        alloc: Global,
        export: &Export<'_>,
        at: &EventNo,
        event: &Event,
    ) -> Result<Option<Clock>, AllocError>
        ensures value { IfOk result (λ clock. clock ≡ option_map (stamp export.now self.now at.now event.now)
            (clock_at self.now.clocks at.now.instance)) }
        ensures len { IfOk result (λ clock. IfSome clock (λ clock. length clock ≡ length self.now.clocks)) }
        ensures within { IfOk result (λ clock. IfSome clock (λ clock. at.now.instance ≤ length self.now.clocks)) }
    {
        let Some(own) = self.clock_at(at.instance) else {
            return Ok(None);
        };
        let mut clock = own.copied(alloc)?;
        self.hear(export, at, event, &mut clock);
        clock.stamp(at.instance, at.index);
        Ok(Some(clock))
    }

    /// An event's clock. From now on it is the clock of its instance and, for a send, of its message.
    pub(crate) fn tick(
        &mut self,
        alloc: Global,
        export: &Export<'_>,
        at: &EventNo,
        event: &Event,
    ) -> Result<Option<Clock>, AllocError>
        ensures clock { IfOk result (λ clock. clock ≡ option_map (stamp export.now self.old at.now event.now)
            (clock_at self.old.clocks at.now.instance)) }
        ensures times { OnOk result (self.new
            ≡ ticked export.now self.old at.now (Some event.now) (clock_at self.old.clocks at.now.instance)) }
    {
        let Some(clock) = self.stamp(alloc, export, at, event)? else {
            return Ok(None);
        };
        if let Event::Send { .. } = event {
            self.carry(export.row_of(at), clock.copied(alloc)?);
        }
        self.put(at.instance, clock.copied(alloc)?);
        Ok(Some(clock))
    }
}
