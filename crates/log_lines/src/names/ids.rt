//! Numbers for the ids of messages.
ghost use Rattle.std.specs.Prelude.{◌≡◌, [], false, position, bytes_eq, IfOk, OnOk};
ghost use Rattle.std.specs.List.{position_or_len};
ghost use Rattle.log_lines.specs.Names.Ids.{has_id, with_id};

use indexmap::IndexSet;
use std::alloc::{AllocError, Global};
use std::marker::Model;

/// Different ids, in the order in which they came. Contracts see their list.
#[derive(Debug, Drop)]
pub struct Ids {
    texts: IndexSet<Vec<u8>>,
}

impl Model for Ids {
    ghost use Rattle.std.specs.Prelude.{ℕ, List, map};

    ghost Value = { List (List ℕ) };

    ghost view = { λ t. map (λ text. text.items) t.texts.keys };
}

impl Ids {
    /// No ids. It takes no memory.
    pub fn new(alloc: Global) -> Ids
        ensures { result ≡ [] }
    {
        Ids {
            texts: IndexSet::new(alloc),
        }
    }

    /// The place of the id, from 0, if it is known.
    fn place_of(&self, text: &[u8]) -> Option<usize>
        ensures { result ≡ position (bytes_eq text.now) self.now }
    {
        self.texts.get_index_of(text)
    }

    /// Adds a new id, and returns its place.
    fn add(&mut self, alloc: Global, text: &[u8]) -> Result<usize, AllocError>
        requires { has_id self.old text.now ≡ false }
        ensures place { IfOk result (λ place. place ≡ position_or_len (bytes_eq text.now) self.new) }
        ensures added { OnOk result (self.new ≡ with_id self.old text.now) }
    {
        let place = self.texts.len();
        let bytes = Vec::from_slice(alloc, text)?;
        self.texts.insert(bytes)?;
        Ok(place)
    }

    /// The number of the id: its place in the list, to which a new id is added. It fails only if there is no memory.
    pub fn number(&mut self, alloc: Global, text: &[u8]) -> Result<usize, AllocError>
        ensures number { IfOk result (λ place. place ≡ position_or_len (bytes_eq text.now) self.new) }
        ensures kept { OnOk result (self.new ≡ with_id self.old text.now) }
    {
        match self.place_of(text) {
            Some(place) => Ok(place),
            None => self.add(alloc, text),
        }
    }
}
