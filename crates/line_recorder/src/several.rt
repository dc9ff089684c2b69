//! Several sends of a recorder, one directly after another.
ghost use Rattle.std.specs.Prelude.{◌≡◌, ◌≢◌, ◌≤◌, ◌<◌, ◌+◌, ◌↔◌, length, All, Err, OnOk, OnErr, IfOk};
ghost use Rattle.clock.specs.Clocks.{entry_of};
ghost use Rattle.clock.specs.Diffs.{IsDiff, apply_diff};
ghost use Rattle.line_recorder.specs.Sends.{next_clocks, known_after};
ghost use Rattle.line_recorder.specs.Recorders.{with_room, send_clock, after_send, after_sends, send_clocks};

use crate::Recorder;
use crate::error::RecordError;
use chart::{InstanceNo, MAX_EVENTS, Name};
use clock::{Clock, Diff};
use std::alloc::AllocError;

impl Recorder {
    /// Prepares the next events as `sends` sends. It makes room for them on the line, and makes the difference: what
    /// changes in the clock with the first send since the base. No send is made yet.
    ///
    /// F6: it fails only if there is no memory, and then nothing has changed except the difference.
    #[inline(always)]
    pub fn ready_sends(
        &mut self,
        sends: usize,
        base: &Clock,
        diff: &mut Diff,
    ) -> Result<(), AllocError>
        requires entries { length base.now ≡ length self.old.knowledge }
        requires short { length self.old.line.events < MAX_EVENTS }
        ensures ok { OnOk result (self.new ≡ with_room self.old sends) }
        ensures exact { OnOk result (IsDiff base.now (send_clock self.old) diff.new) }
        ensures clock { OnOk result (apply_diff base.now diff.new ≡ send_clock self.old) }
        ensures within { OnOk result (All (λ change. change.instance ≤ length base.now) diff.new) }
        ensures err { OnErr result (self.new ≡ self.old) }
    {
        self.line.reserve(sends)?;
        let own = self.line.instance();
        let next = self.line.len() as u32 + 1;
        let last = self.knowledge.entry(own);
        self.knowledge.stamp(own, next);
        let made = self.knowledge.diff_into(base, diff);
        self.knowledge.stamp(own, last);
        match made {
            Ok(()) => {}
            Err(AllocError) => return Err(AllocError),
        }
        self.room = self.room.max(sends);
        Ok(())
    }

    /// Records a send to this instance. Room was made for it on the line, so it isn't refused, and takes no memory.
    #[inline(always)]
    pub fn send_ready(&mut self, to: InstanceNo, name: Name)
        requires not_itself { to ≢ self.old.line.instance }
        requires short { length self.old.line.events < MAX_EVENTS }
        requires room { 0 < self.old.room }
        ensures { self.new ≡ after_send self.old to name }
    {
        let own = self.line.instance();
        let next = self.line.len() as u32 + 1;
        self.knowledge.stamp(own, next);
        self.record_begun(to, name);
    }

    /// Records a send, as [`Recorder::send_ready`] does, directly after another one, whose clock is the present
    /// knowledge. The difference is then what changed since that send: only the sender's own entry. So no clocks are
    /// compared.
    #[inline(always)]
    pub fn send_next(&mut self, to: InstanceNo, name: Name, diff: &mut Diff)
        requires not_itself { to ≢ self.old.line.instance }
        requires short { length self.old.line.events < MAX_EVENTS }
        requires room { 0 < self.old.room }
        requires known { entry_of self.old.knowledge self.old.line.instance ≤ length self.old.line.events }
        ensures value { self.new ≡ after_send self.old to name }
        ensures exact { IsDiff self.old.knowledge (send_clock self.old) diff.new }
        ensures clock { apply_diff self.old.knowledge diff.new ≡ send_clock self.old }
        ensures within { All (λ change. change.instance ≤ length self.old.knowledge) diff.new }
    {
        let own = self.line.instance();
        let next = self.line.len() as u32 + 1;
        self.knowledge.stamp_over(own, next, diff);
        self.record_begun(to, name);
    }

    /// Records a send to this instance for each name, in their order, and returns their clocks, as if each were made by
    /// [`Recorder::send`].
    ///
    /// All sends are recorded, or none is. The first of F7 and F6 that applies refuses them, and then nothing has
    /// changed. F7: the line can't have as many more events. All memory is there before anything changes.
    pub fn send_many(&mut self, to: InstanceNo, names: &[Name]) -> Result<Vec<Clock>, RecordError>
        requires among { to ≤ length self.old.knowledge }
        requires not_itself { to ≢ self.old.line.instance }
        ensures ok { OnOk result (self.new ≡ after_sends self.old to names.now) }
        ensures clocks { IfOk result (λ clocks. clocks.items ≡ send_clocks self.old to names.now) }
        ensures full { (result ≡ Err RecordError.LineFull)
            ↔ (MAX_EVENTS < length self.old.line.events + length names.now) }
        ensures err { OnErr result (self.new ≡ self.old) }
    {
        if names.len() > MAX_EVENTS - self.line.len() {
            return Err(RecordError::LineFull);
        }
        let clocks = self.next_clocks(names.len())?;
        let known = self.known_after(names.len())?;
        self.line.push_sends(to, names)?;
        self.room = self.room.saturating_sub(names.len());
        self.knowledge = known;
        Ok(clocks)
    }

    /// The clocks of the next `sends` events, if they are sends.
    fn next_clocks(&self, sends: usize) -> Result<Vec<Clock>, AllocError>
        requires { length self.now.line.events + sends ≤ MAX_EVENTS }
        ensures { IfOk result (λ clocks. clocks.items ≡ next_clocks self.now sends) }
    {
        let mut clocks = Vec::with_capacity(self.alloc, sends)?;
        for place in 0..sends {
            let index = (self.line.len() + place + 1) as u32;
            let clock = self
                .knowledge
                .stamped(self.alloc, self.line.instance(), index)?;
            clocks.push_reserved(clock);
        }
        Ok(clocks)
    }

    /// The knowledge after the next `sends` events, if they are sends.
    fn known_after(&self, sends: usize) -> Result<Clock, AllocError>
        requires { length self.now.line.events + sends ≤ MAX_EVENTS }
        ensures { IfOk result (λ known. known ≡ known_after self.now sends) }
    {
        if sends == 0 {
            return self.knowledge.copied(self.alloc);
        }
        let index = (self.line.len() + sends) as u32;
        self.knowledge
            .stamped(self.alloc, self.line.instance(), index)
    }
}
