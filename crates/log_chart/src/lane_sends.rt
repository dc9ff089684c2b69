//! A send of each lane.
ghost use Rattle.std.specs.Prelude.{◌≡◌, ◌<◌, ◌*◌, IfOk, None};
ghost use Rattle.chart.specs.declared.instance.TheConstants.{MAX_INSTANCES};
ghost use Rattle.log_chart.specs.LaneTables.{slot_of, IsInstance, LaneSends, AreLanes, changed};

use chart::{InstanceNo, MAX_INSTANCES};
use std::alloc::{AllocError, Global};
use std::marker::Model;

/// The most lanes, including those from an instance to itself, which no message uses.
const LANES: usize = MAX_INSTANCES * MAX_INSTANCES;

/// For each lane the number of a line with a send, if there is one. A contract sees a list.
#[derive(Drop)]
pub struct LaneTable {
    sends: Vec<Option<usize>>,
}

impl Model for LaneTable {
    ghost use Rattle.std.specs.Prelude.{ℕ, List, Option, ◌≡◌, ◌*◌, length};
    ghost use Rattle.chart.specs.declared.instance.TheConstants.{MAX_INSTANCES};

    ghost Value = { List (Option ℕ) };

    ghost view = { λ c. c.sends.items };

    ghost invariant = { λ c. length c.sends.items ≡ MAX_INSTANCES * MAX_INSTANCES };
}

/// The index of a lane in the table.
fn slot(from: InstanceNo, to: InstanceNo) -> usize
    ensures value { result ≡ slot_of from to }
    ensures lane { IsInstance from × IsInstance to }
    ensures within { result < MAX_INSTANCES * MAX_INSTANCES }
{
    from.place() * MAX_INSTANCES + to.place()
}

impl LaneTable {
    /// No send for any lane.
    ///
    /// F6: it fails only if there is no memory.
    pub fn none(alloc: Global) -> Result<LaneTable, AllocError>
        ensures { IfOk result (λ table. AreLanes table (λ q p. None)) }
    {
        Ok(LaneTable {
            sends: vec![in alloc; None; LANES]?,
        })
    }

    /// The send of a lane.
    pub fn at(&self, from: InstanceNo, to: InstanceNo) -> Option<usize>
        ensures { (sends : LaneSends) → AreLanes self.now sends → result ≡ sends from to }
    {
        self.sends[slot(from, to)]
    }

    /// Sets the send of a lane.
    pub fn set(&mut self, from: InstanceNo, to: InstanceNo, send: Option<usize>)
        ensures { (sends : LaneSends) → AreLanes self.old sends → AreLanes self.new (changed sends from to send) }
    {
        self.sends[slot(from, to)] = send;
    }
}
