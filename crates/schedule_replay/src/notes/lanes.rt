//! A send of each lane.
ghost use Rattle.std.specs.Prelude.{◌≡◌, ◌<◌, ◌*◌, IfOk, None, Some};
ghost use Rattle.chart.specs.declared.instance.TheConstants.{MAX_INSTANCES};
ghost use Rattle.schedule_replay.specs.Notes.Lanes.{slot_of, IsInstance, LaneSends, AreLanes, changed};

use chart::{InstanceNo, MAX_INSTANCES};
use std::alloc::{AllocError, Global};
use std::marker::Model;

/// The number of possible lanes, including those from an instance to itself, which are never used.
const LANES: usize = MAX_INSTANCES * MAX_INSTANCES;

/// For each lane the line of a send, if there is one. A contract sees the list.
#[derive(Drop)]
pub(crate) struct LaneTable {
    lines: Vec<Option<u64>>,
}

impl Model for LaneTable {
    ghost use Rattle.std.specs.Prelude.{ℕ, List, Option, ◌≡◌, ◌*◌, length};
    ghost use Rattle.chart.specs.declared.instance.TheConstants.{MAX_INSTANCES};

    ghost Value = { List (Option ℕ) };

    ghost view = { λ c. c.lines.items };

    ghost invariant = { λ c. length c.lines.items ≡ MAX_INSTANCES * MAX_INSTANCES };
}

/// The place of a lane's send in the table.
fn slot(from: InstanceNo, to: InstanceNo) -> usize
    ensures value { result ≡ slot_of from to }
    ensures lane { IsInstance from × IsInstance to }
    ensures within { result < MAX_INSTANCES * MAX_INSTANCES }
{
    from.place() * MAX_INSTANCES + to.place()
}

impl LaneTable {
    /// No send for any lane. It fails only if there is no memory.
    pub(crate) fn none(alloc: Global) -> Result<LaneTable, AllocError>
        ensures { IfOk result (λ table. AreLanes table (λ q p. None)) }
    {
        Ok(LaneTable {
            lines: vec![in alloc; None; LANES]?,
        })
    }

    /// The send of a lane.
    pub(crate) fn at(&self, from: InstanceNo, to: InstanceNo) -> Option<u64>
        ensures { (sends : LaneSends) → AreLanes self.now sends → result ≡ sends from to }
    {
        self.lines[slot(from, to)]
    }

    /// Changes the send of a lane.
    pub(crate) fn set(&mut self, from: InstanceNo, to: InstanceNo, line: u64)
        ensures { (sends : LaneSends) → AreLanes self.old sends
            → AreLanes self.new (changed sends from to (Some line)) }
    {
        self.lines[slot(from, to)] = Some(line);
    }
}
