//! The last sends of the events of a line.
ghost use Rattle.std.specs.Prelude.{◌≡◌, ◌<◌, ◌++◌, ◌∷◌, [], length, Some, slice_get, OnOk};

use crate::completion::last_sends::LastSends;
use std::alloc::{AllocError, Global};
use std::marker::Model;

/// The last sends of each event of a line. A contract sees the list.
#[derive(Drop)]
pub struct Row {
    values: Vec<LastSends>,
}

impl Model for Row {
    ghost use Rattle.std.specs.Prelude.{List};
    ghost use Rattle.reordering.specs.declared.completion.last_sends.LastSends.{LastSends};

    ghost Value = { List LastSends };

    ghost view = { λ r. r.values.items };
}

impl Row {
    /// The row of no event. It takes no memory.
    pub fn new(alloc: Global) -> Row
        ensures { result ≡ [] }
    {
        Row {
            values: Vec::new(alloc),
        }
    }

    /// Adds the last sends of the next event.
    pub fn push(&mut self, value: LastSends) -> Result<(), AllocError>
        ensures { OnOk result (self.new ≡ self.old ++ value ∷ []) }
    {
        self.values.push(value)?;
        Ok(())
    }

    /// The last sends of the event at a place.
    pub fn at(&self, place: usize) -> LastSends
        requires { place < length self.now }
        ensures { slice_get self.now place ≡ Some result }
    {
        self.values[place]
    }
}
