//! The recorder of one instance.
ghost use Rattle.std.specs.Prelude.{◌≡◌, ◌≢◌, ◌≤◌, ◌<◌, ◌+◌, ◌++◌, ◌↔◌, [], length, vec_capacity, All, Err};
ghost use Rattle.std.specs.Prelude.{ℕ, take, OnOk, OnErr, IfOk, IsOk};
ghost use Rattle.chart.specs.Events.{MayHaveRegion};
ghost use Rattle.clock.specs.Clocks.{with_entry};
ghost use Rattle.clock.specs.Diffs.{IsDiff, apply_diff, AgreeBut};
ghost use Rattle.clock.specs.declared.clock.TheConstants.{INLINE_ENTRIES};
ghost use Rattle.line_recorder.specs.Recorders.{new_recorder, with_room, send_clock, after_send, begun_send, after_begun};
ghost use Rattle.line_recorder.specs.Recorders.{after_report, after_receive, IsReportAbove, IsReportOf};

use crate::error::RecordError;
use crate::kept_reports::KeptReports;
use chart::{
    Event, EventNo, GrowingLine, InstanceNo, Line, MAX_EVENTS, MAX_INSTANCES, Name, Report,
};
use clock::{Clock, Diff};
use online_races::next_races;
use std::alloc::{AllocError, Global};
use std::marker::Model;

/// What one of several instances records of itself: its line, its knowledge and its reports. A contract sees these
/// three, and the room that was made on the line.
///
/// For the instance itself, the knowledge has the number of its last send. For each other instance it has the greatest
/// entry in the clocks of the received messages.
pub struct Recorder {
    pub(crate) alloc: Global,
    pub(crate) line: GrowingLine,
    pub(crate) knowledge: Clock,
    reports: KeptReports,
    /// The number of further events for which room was made. The line has this much room, or more.
    pub(crate) room: usize,
}

// Written by hand, so that code which drops one calls this, and needs no code and no proof of its own for the parts.
impl Drop for Recorder {
    #[inline(never)]
    fn drop(self) {
        let Recorder {
            alloc: _,
            line: _,
            knowledge: _,
            reports: _,
            room: _,
        } = self;
    }
}

impl Model for Recorder {
    ghost use Rattle.std.specs.Prelude.{◌≡◌, ◌≤◌, length};
    ghost use Rattle.line_recorder.specs.Recorders.{RecorderView};

    ghost Value = { RecorderView };

    ghost view = { λ r. record {
      line = r.line.line;
      knowledge = r.knowledge;
      reports = r.reports.reports;
      room = r.room;
    } };

    ghost invariant = { λ r. (r.line.line.instance ≤ length r.knowledge) × (r.room ≤ r.line.room)
        × (r.reports.instance ≡ r.line.line.instance) };
}

impl Recorder {
    /// The recorder of instance `p` of `n`, which has done nothing yet.
    ///
    /// F6: it fails only if there is no memory. Up to [`clock::INLINE_ENTRIES`] instances it takes none.
    pub fn new(alloc: Global, p: InstanceNo, n: usize) -> Result<Recorder, AllocError>
        requires at_least_two { 2 ≤ n }
        requires at_most { n ≤ MAX_INSTANCES }
        requires among { p ≤ n }
        ensures value { IfOk result (λ recorder. recorder ≡ new_recorder p n) }
        ensures succeeds { n ≤ INLINE_ENTRIES → IsOk result }
    {
        Ok(Recorder {
            alloc,
            line: GrowingLine::new(alloc, p),
            knowledge: Clock::zero(alloc, n)?,
            reports: KeptReports::new(alloc, p),
            room: 0,
        })
    }

    /// The allocator of its memory.
    #[inline(always)]
    pub fn alloc(&self) -> Global {
        self.alloc
    }

    /// The instance's line so far.
    #[inline(always)]
    pub fn line(&self) -> &GrowingLine
        ensures { result.now.line ≡ self.now.line }
    {
        &self.line
    }

    /// The number of further events for which room was made on the line: they need no memory there. Each event takes
    /// one place of it.
    #[inline(always)]
    pub fn room(&self) -> usize
        ensures { result ≡ self.now.room }
    {
        self.room
    }

    /// Makes room for at least `events` further events on the line.
    ///
    /// F6: it fails only if there is no memory, and then nothing has changed.
    #[inline(always)]
    pub fn reserve(&mut self, events: usize) -> Result<(), AllocError>
        ensures ok { OnOk result (self.new ≡ with_room self.old events) }
        ensures err { OnErr result (self.new ≡ self.old) }
    {
        self.line.reserve(events)?;
        self.room = self.room.max(events);
        Ok(())
    }

    /// How many events it knows of each instance. Its next send knows the same, and itself.
    #[inline(always)]
    pub fn knowledge(&self) -> &Clock
        ensures value { result.now ≡ self.now.knowledge }
        ensures own { self.now.line.instance ≤ length self.now.knowledge }
    {
        &self.knowledge
    }

    /// The clock of the next event, if it is a send: what is known, with the send itself. Nothing is recorded.
    ///
    /// F6: it fails only if there is no memory. Up to [`clock::INLINE_ENTRIES`] instances it takes none.
    #[inline(always)]
    pub fn next_clock(&self) -> Result<Clock, AllocError>
        requires { length self.now.line.events < MAX_EVENTS }
        ensures clock { IfOk result (λ clock. clock ≡ send_clock self.now) }
        ensures entries { IfOk result (λ clock. length clock ≡ length self.now.knowledge) }
        ensures succeeds { length self.now.knowledge ≤ INLINE_ENTRIES → IsOk result }
    {
        let next = self.line.len() as u32 + 1;
        self.knowledge
            .stamped(self.alloc, self.line.instance(), next)
    }

    /// Adds the report of each receive of the line to a list, in their order. The reports are made again from what is
    /// kept of them.
    ///
    /// F6: it fails only if there is no memory, and never if there is no receive. After a failure the list has the
    /// first reports after its old elements.
    pub fn add_reports(&self, alloc: Global, reports: &mut Vec<Report>) -> Result<(), AllocError>
        ensures ok { OnOk result (reports.new.items ≡ reports.old.items ++ self.now.reports) }
        ensures err { OnErr result ((n : ℕ) × (reports.new.items ≡ reports.old.items ++ take n self.now.reports)) }
        ensures none { self.now.reports ≡ [] → IsOk result }
    {
        self.reports.add_to(alloc, reports)
    }

    /// Ends the recorder, and returns its line. The line's events go into `events`, which has room for them. It takes
    /// no memory.
    pub fn into_line(self, events: Vec<Event>) -> Line
        requires empty { events.items ≡ [] }
        requires room { length self.line.events ≤ vec_capacity events }
        ensures { result ≡ self.line }
    {
        let Recorder {
            line,
            alloc: _,
            knowledge: _,
            reports: _,
            room: _,
        } = self;
        Line::of(line, events)
    }

    /// Records a send to this instance, and returns its clock: what is known, with the send itself.
    ///
    /// The first of F7 and F6 that applies refuses it, and then nothing has changed. With room it takes no memory up to
    /// [`clock::INLINE_ENTRIES`] instances.
    #[inline(always)]
    pub fn send(&mut self, to: InstanceNo, name: Name) -> Result<Clock, RecordError>
        requires among { to ≤ length self.old.knowledge }
        requires not_itself { to ≢ self.old.line.instance }
        ensures ok { OnOk result (self.new ≡ after_send self.old to name) }
        ensures clock { IfOk result (λ clock. clock ≡ send_clock self.old) }
        ensures room { 0 < self.old.room → length self.old.knowledge ≤ INLINE_ENTRIES
            → result ≢ Err RecordError.Memory }
        ensures full { (result ≡ Err RecordError.LineFull) ↔ (length self.old.line.events ≡ MAX_EVENTS) }
        ensures err { OnErr result (self.new ≡ self.old) }
    {
        if self.line.len() >= MAX_EVENTS {
            return Err(RecordError::LineFull);
        }
        let own = self.line.instance();
        let index = self.line.len() as u32 + 1;
        let mut clock = self.knowledge.copied(self.alloc)?;
        self.line.push(Event::Send { to, name })?;
        self.room = self.room.saturating_sub(1);
        self.knowledge.stamp(own, index);
        clock.stamp(own, index);
        Ok(clock)
    }

    /// Prepares the next event as a send, which [`Recorder::record_begun`] then records. It makes room for the send on
    /// the line, stamps the knowledge with the send's number, and makes the difference: what changed in the send's
    /// clock since the base. Afterwards the base is this clock. No clock is copied. So the message can be on its way
    /// before its send is recorded.
    ///
    /// F6: it fails only if there is no memory, and then nothing has changed except the difference. With room it needs
    /// none up to [`clock::INLINE_ENTRIES`] instances, and none if nothing new is known of the others since the base.
    #[inline(always)]
    pub fn begin_send(&mut self, base: &mut Clock, diff: &mut Diff) -> Result<(), AllocError>
        requires entries { length base.old ≡ length self.old.knowledge }
        requires short { length self.old.line.events < MAX_EVENTS }
        ensures ok { OnOk result (self.new ≡ begun_send self.old) }
        ensures exact { OnOk result (IsDiff base.old (send_clock self.old) diff.new) }
        ensures clock { OnOk result (apply_diff base.old diff.new ≡ send_clock self.old) }
        ensures within { OnOk result (All (λ change. change.instance ≤ length base.old) diff.new) }
        ensures base { OnOk result (base.new ≡ send_clock self.old) }
        ensures room { 0 < self.old.room → length self.old.knowledge ≤ INLINE_ENTRIES → IsOk result }
        ensures alone { 0 < self.old.room → AgreeBut self.old.line.instance base.old self.old.knowledge → IsOk result }
        ensures err { OnErr result (self.new ≡ self.old) }
        ensures base_err { OnErr result (base.new ≡ base.old) }
    {
        self.line.reserve(1)?;
        let own = self.line.instance();
        let next = self.line.len() as u32 + 1;
        let before = self.knowledge.entry(own);
        self.knowledge.stamp(own, next);
        match self.knowledge.diff_over(base, diff) {
            Ok(()) => {}
            Err(AllocError) => {
                set_back(&mut self.knowledge, own, before);
                return Err(AllocError);
            }
        }
        self.room = self.room.max(1);
        Ok(())
    }

    /// Records the send to this instance that [`Recorder::begin_send`] prepared. It isn't refused, and takes no memory.
    #[inline(always)]
    pub fn record_begun(&mut self, to: InstanceNo, name: Name)
        requires not_itself { to ≢ self.old.line.instance }
        requires short { length self.old.line.events < MAX_EVENTS }
        requires begun { 0 < self.old.room }
        ensures { self.new ≡ after_begun self.old to name }
    {
        // This match also shows the compiler that there is room, since a proved build keeps it. Otherwise the compiled
        // code checks for room once more.
        let Some(_) = self.line.room().checked_sub(1) else {
            unreachable!()
        };
        let Ok(()) = self.line.push(Event::Send { to, name }) else {
            unreachable!()
        };
        self.room -= 1;
    }

    /// Records a receive of a message with this name and this clock from this instance, in the coregion `region` (0
    /// outside of one). It keeps the report of the receive, and returns it: the races later than the events of this
    /// line that the send knows. How many these are comes from the message's own clock, not from everything that is
    /// known here.
    ///
    /// The first of F7 and F6 that applies refuses it, and then nothing has changed. Without races, and with room on
    /// the line and for the report, it takes no memory.
    ///
    /// The caller ensures that the coregion may come next, as for [`Line::push`].
    #[inline(always)]
    pub fn receive(
        &mut self,
        from: InstanceNo,
        name: Name,
        clock: &Clock,
        region: u32,
    ) -> Result<Report, RecordError>
        requires among { from ≤ length self.old.knowledge }
        requires not_itself { from ≢ self.old.line.instance }
        requires entries { length clock.now ≡ length self.old.knowledge }
        requires coregion { MayHaveRegion self.old.line.events region }
        ensures ok { IfOk result (λ report. self.new ≡ after_receive self.old from name region clock.now report) }
        ensures report { IfOk result (IsReportOf self.old from region clock.now) }
        ensures full { (result ≡ Err RecordError.LineFull) ↔ (length self.old.line.events ≡ MAX_EVENTS) }
        ensures err { OnErr result (self.new ≡ self.old) }
    {
        let entry = clock.entry(self.line.instance());
        let report = self.receive_above(entry, from, name, region)?;
        self.knowledge.merge(clock);
        Ok(report)
    }

    /// Records a receive, as [`Recorder::receive`] does, of a message whose clock is given as a difference from the
    /// base. Afterwards the base is this clock. No clock is copied.
    ///
    /// The first of F7 and F6 that applies refuses it, and then nothing has changed, not even the base. Without races,
    /// and with room on the line and for the report, it takes no memory.
    ///
    /// The caller ensures that the coregion may come next, as for [`Line::push`].
    #[inline(always)]
    pub fn receive_over(
        &mut self,
        from: InstanceNo,
        name: Name,
        base: &mut Clock,
        diff: &Diff,
        region: u32,
    ) -> Result<Report, RecordError>
        requires among { from ≤ length self.old.knowledge }
        requires not_itself { from ≢ self.old.line.instance }
        requires entries { length base.old ≡ length self.old.knowledge }
        requires changes { All (λ change. change.instance ≤ length base.old) diff.now }
        requires coregion { MayHaveRegion self.old.line.events region }
        ensures ok { IfOk result (λ report.
            self.new ≡ after_receive self.old from name region (apply_diff base.old diff.now) report) }
        ensures report { IfOk result (IsReportOf self.old from region (apply_diff base.old diff.now)) }
        ensures base { OnOk result (base.new ≡ apply_diff base.old diff.now) }
        ensures full { (result ≡ Err RecordError.LineFull) ↔ (length self.old.line.events ≡ MAX_EVENTS) }
        ensures err { OnErr result (self.new ≡ self.old) }
        ensures base_err { OnErr result (base.new ≡ base.old) }
    {
        let entry = base.entry_after(diff, self.line.instance());
        let report = self.receive_above(entry, from, name, region)?;
        base.apply(diff);
        self.knowledge.merge(base);
        Ok(report)
    }

    /// Records a receive of a message with this name from this instance, in this coregion, as [`Recorder::receive`]
    /// does. The message's send knows `entry` events of this line. The knowledge stays as it was.
    #[inline(always)]
    fn receive_above(
        &mut self,
        entry: u32,
        from: InstanceNo,
        name: Name,
        region: u32,
    ) -> Result<Report, RecordError>
        requires not_itself { from ≢ self.old.line.instance }
        requires coregion { MayHaveRegion self.old.line.events region }
        ensures ok { IfOk result (λ report. self.new ≡ after_report self.old from name region report) }
        ensures report { IfOk result (IsReportAbove self.old from region entry) }
        ensures full { (result ≡ Err RecordError.LineFull) ↔ (length self.old.line.events ≡ MAX_EVENTS) }
        ensures err { OnErr result (self.new ≡ self.old) }
    {
        if self.line.len() >= MAX_EVENTS {
            return Err(RecordError::LineFull);
        }
        let receive = EventNo {
            instance: self.line.instance(),
            index: self.line.len() as u32 + 1,
        };
        let earlier = next_races(self.alloc, &self.line, entry, from, region)?;
        let report = Report::new(receive, earlier);
        self.reports.make_room(&report)?;
        self.line.push(Event::Receive { from, name, region })?;
        self.room = self.room.saturating_sub(1);
        self.reports.keep(&report);
        Ok(report)
    }
}

/// Sets the entry of a send that isn't recorded back to its value before the send was stamped.
#[cold]
#[inline(never)]
fn set_back(knowledge: &mut Clock, own: InstanceNo, before: u32)
    requires { own ≤ length knowledge.old }
    ensures value { knowledge.new ≡ with_entry knowledge.old own before }
    ensures len { length knowledge.new ≡ length knowledge.old }
{
    knowledge.stamp(own, before);
}
