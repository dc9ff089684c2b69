//! A post without its board's words.
ghost use Rattle.std.specs.Prelude.{◌≡◌, ◌+◌, ◌<◌, ◌≤◌, ◌↔◌, [], length, vec_capacity, Ok, Err, OnOk, OnErr};
ghost use Rattle.chart.specs.declared.history.TheConstants.{MAX_CAPACITY};
ghost use Rattle.chart.specs.declared.instance.TheConstants.{MAX_INSTANCES};
ghost use Rattle.chart.specs.Events.{greatest_region};
ghost use Rattle.board_table.specs.Leaving.{HaveLeft};
ghost use Rattle.board.specs.Parked.{IsAtBoard};
ghost use Rattle.board.specs.Views.{Sound, line_of};
ghost use Rattle.board.specs.declared.error.RegionError.TheVariants.{CoregionOpen, CoregionNotOpen};

use crate::ends::{Incoming, Outgoing};
use crate::error::RegionError;
use crate::parting::Leaver;
use board_table::{Seat, Shape, SharedTable, leave};
use chart::{Event, GrowingLine, InstanceNo, Line, MAX_EVENTS};
use line_recorder::Recorder;
use std::alloc::Global;
use std::marker::Model;

/// A post that borrows nothing: a [`crate::Post`] without its board's words, which each call takes as an argument. So
/// it can be kept beside the table with these words, or be sent to where that table is shared.
///
/// A contract sees the same of it as of a post. Each call requires the words of the post's own board.
pub struct Parked {
    pub(crate) seat: Seat,
    pub(crate) alloc: Global,
    pub(crate) shape: Shape,
    pub(crate) number: InstanceNo,
    pub(crate) recorder: Recorder,
    /// By the other instance's place, as `incoming` is.
    pub(crate) outgoing: Vec<Outgoing>,
    pub(crate) incoming: Vec<Incoming>,
    /// The open coregion, 0 for none.
    pub(crate) region: u32,
}

// Written by hand, so that code which drops one calls this, and needs no code and no proof of its own for the parts.
impl Drop for Parked {
    #[inline(never)]
    fn drop(self) {
        let Parked {
            seat: _,
            alloc: _,
            shape: _,
            number: _,
            recorder: _,
            outgoing: _,
            incoming: _,
            region: _,
        } = self;
    }
}

impl Model for Parked {
    ghost use Rattle.board.specs.Views.{PostView};
    ghost use Rattle.board.specs.Known.{IsPost, view_of};

    ghost Value = { PostView };

    ghost view = { λ post. view_of post.seat.table_id post.seat.me post.shape.instances post.shape.capacity
        post.number post.region post.recorder.room };

    ghost invariant = { λ post. IsPost post.seat.me post.shape.instances post.shape.capacity post.number
        (record {
          recorder = post.recorder;
          region = post.region;
          outgoing = post.outgoing.items;
          incoming = post.incoming.items;
        }) };
}

impl Parked {
    /// The post's number among the instances of its board.
    pub fn number(&self) -> InstanceNo
        ensures { result ≡ self.now.number }
    {
        self.number
    }

    /// How many posts its board has. Its lanes have 1 to [`chart::MAX_CAPACITY`] slots. What the post has seen is
    /// sound, also before its first call.
    pub fn board_size(&self) -> usize
        ensures value { result ≡ self.now.board.size }
        ensures sized { (2 ≤ result) × (result ≤ MAX_INSTANCES) }
        ensures among { (1 ≤ self.now.number) × (self.now.number ≤ self.now.board.size) }
        ensures slots { (1 ≤ self.now.board.capacity) × (self.now.board.capacity ≤ MAX_CAPACITY) }
        ensures sound { Sound self.now self.now }
    {
        self.shape.instances
    }

    /// The post's line in the chart of what it has seen. The call takes no memory.
    pub fn line(&self) -> &GrowingLine
        ensures { result.now.line ≡ record { instance = self.now.number; events = line_of self.now } }
    {
        self.recorder.line()
    }

    /// Opens a coregion, to which the post's receives belong from now on. F28: a coregion is open already. The call
    /// takes no memory and looks at nothing.
    pub fn open_coregion(&mut self) -> Result<(), RegionError>
        ensures ok { OnOk result (self.new ≡ record self.old { region = greatest_region (line_of self.old) + 1 }) }
        ensures open { (result ≡ Err RegionError.CoregionOpen) ↔ (0 < self.old.region) }
        ensures not_open { (result ≡ Err RegionError.CoregionNotOpen) → ⊥ }
        ensures err { OnErr result (self.new ≡ self.old) }
    {
        if self.region > 0 {
            return Err(RegionError::CoregionOpen);
        }
        let line = self.recorder.line();
        prove!(line.len() <= MAX_EVENTS);
        self.region = line.greatest_region() + 1;
        Ok(())
    }

    /// Closes the open coregion. F29: no coregion is open. The call takes no memory and looks at nothing.
    pub fn close_coregion(&mut self) -> Result<(), RegionError>
        ensures ok { OnOk result (self.new ≡ record self.old { region = 0 }) }
        ensures not_open { (result ≡ Err RegionError.CoregionNotOpen) ↔ (self.old.region ≡ 0) }
        ensures open { (result ≡ Err RegionError.CoregionOpen) → ⊥ }
        ensures err { OnErr result (self.new ≡ self.old) }
    {
        if self.region == 0 {
            return Err(RegionError::CoregionNotOpen);
        }
        self.region = 0;
        Ok(())
    }

    /// Leaves the board, with the messages that wait for this post. The post's events go into `events`, which has room
    /// for them. The call takes no memory.
    pub(crate) fn part(self, words: &SharedTable, events: Vec<Event>) -> (Line, Leaver)
        requires empty { events.items ≡ [] }
        requires room { length (line_of self) ≤ vec_capacity events }
        requires board { IsAtBoard words.now.key words.now.table_id self }
        ensures line { result.0 ≡ record { instance = self.number; events = line_of self } }
        ensures table { result.1.seat.table_id ≡ self.board.table }
        ensures left { HaveLeft self.board.size self.board.capacity self.number self.seen 1
            self.board.size result.1.seat.me.1 }
    {
        let Parked {
            mut seat,
            alloc: _,
            shape: _,
            number,
            recorder,
            outgoing: _,
            incoming: _,
            region: _,
        } = self;
        leave(words, &mut seat);
        (recorder.into_line(events), Leaver { number, seat })
    }
}
