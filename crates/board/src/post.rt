//! The post of an instance.
ghost use Rattle.std.specs.Prelude.{◌≡◌, ◌+◌, ◌<◌, ◌≤◌, ◌↔◌, Ok, Err, OnOk, OnErr};
ghost use Rattle.chart.specs.declared.history.TheConstants.{MAX_CAPACITY};
ghost use Rattle.chart.specs.declared.instance.TheConstants.{MAX_INSTANCES};
ghost use Rattle.chart.specs.Events.{greatest_region};
ghost use Rattle.board.specs.Views.{Sound, line_of};
ghost use Rattle.board.specs.declared.error.RegionError.TheVariants.{CoregionOpen, CoregionNotOpen};

use crate::error::RegionError;
use crate::parked::Parked;
use board_table::SharedTable;
use chart::{GrowingLine, InstanceNo};
use std::marker::Model;

/// The post of an instance, its endpoint on a board: it sends, receives and closes lanes. It can be moved to a thread.
///
/// A contract sees the post's board and number, the history that it has seen, and the events that its own calls made.
/// It also sees how often the post looked at words of others, its open coregion, and the room on its line. After each
/// call the seen history is legal, and begins with the history that was seen before. The post's own events in it are
/// those that its calls made.
#[derive(Drop)]
pub struct Post<'a> {
    pub(crate) words: &'a SharedTable,
    pub(crate) parked: Parked,
}

impl<'a> Model for Post<'a> {
    ghost use Rattle.board.specs.Views.{PostView};
    ghost use Rattle.board.specs.Parked.{IsAtBoard};

    ghost Value = { PostView };

    ghost view = { λ post. post.parked };

    ghost invariant = { λ post. IsAtBoard post.words.now.key post.words.now.table_id post.parked };
}

impl<'a> Post<'a> {
    /// The post's number among the instances of its board.
    pub fn number(&self) -> InstanceNo
        ensures { result ≡ self.now.number }
    {
        self.parked.number()
    }

    /// How many posts its board has. Its lanes have 1 to [`chart::MAX_CAPACITY`] slots. What the post has seen is
    /// sound, also before its first call.
    pub fn board_size(&self) -> usize
        ensures value { result ≡ self.now.board.size }
        ensures sized { (2 ≤ result) × (result ≤ MAX_INSTANCES) }
        ensures among { (1 ≤ self.now.number) × (self.now.number ≤ self.now.board.size) }
        ensures slots { (1 ≤ self.now.board.capacity) × (self.now.board.capacity ≤ MAX_CAPACITY) }
        ensures sound { Sound self.now self.now }
    {
        self.parked.board_size()
    }

    /// The post's line in the chart of what it has seen. The call takes no memory.
    pub fn line(&self) -> &GrowingLine
        ensures { result.now.line ≡ record { instance = self.now.number; events = line_of self.now } }
    {
        self.parked.line()
    }

    /// Opens a coregion, to which the post's receives belong from now on. F28: a coregion is open already. The call
    /// takes no memory and looks at nothing.
    pub fn open_coregion(&mut self) -> Result<(), RegionError>
        ensures ok { OnOk result (self.new ≡ record self.old { region = greatest_region (line_of self.old) + 1 }) }
        ensures open { (result ≡ Err RegionError.CoregionOpen) ↔ (0 < self.old.region) }
        ensures not_open { (result ≡ Err RegionError.CoregionNotOpen) → ⊥ }
        ensures err { OnErr result (self.new ≡ self.old) }
    {
        self.parked.open_coregion()
    }

    /// Closes the open coregion. F29: no coregion is open. The call takes no memory and looks at nothing.
    pub fn close_coregion(&mut self) -> Result<(), RegionError>
        ensures ok { OnOk result (self.new ≡ record self.old { region = 0 }) }
        ensures not_open { (result ≡ Err RegionError.CoregionNotOpen) ↔ (self.old.region ≡ 0) }
        ensures open { (result ≡ Err RegionError.CoregionOpen) → ⊥ }
        ensures err { OnErr result (self.new ≡ self.old) }
    {
        self.parked.close_coregion()
    }
}
