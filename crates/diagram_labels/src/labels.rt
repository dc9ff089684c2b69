//! Labels with their names.

ghost use Rattle.std.specs.Prelude.{◌≡◌, ◌<◌, false, map, length, position, bytes_eq, IfOk, OnOk, OnErr, IfSome};
ghost use Rattle.diagram_labels.specs.Giving.{called};
ghost use Rattle.diagram_labels.specs.Spelling.{spelled};
ghost use Rattle.diagram_labels.specs.Labels.{none, has_label, with_new, with_label, name_of, line_for_blank, is_renamed};

use crate::giving::GivenNames;
use crate::spelling::spelled;
use chart::Name;
use indexmap::IndexSet;
use std::alloc::{AllocError, Global};
use std::marker::Model;

/// Different labels, in the order in which they came, and the name of each. A contract sees both lists.
#[derive(Debug, Drop)]
pub struct LabelNames {
    labels: IndexSet<Vec<u8>>,
    names: GivenNames,
}

impl Model for LabelNames {
    ghost use Rattle.std.specs.Prelude.{◌≡◌, ℕ, List, map, length};
    ghost use Rattle.diagram_labels.specs.Labels.{Labelling};

    ghost Value = { Labelling };

    ghost view = { λ l. record { labels = map (λ label. label.items) l.labels.keys; names = l.names } };

    ghost invariant = { λ l. length l.labels.keys ≡ length l.names };
}

fn line_for_blank(byte: u8) -> u8
    ensures { result ≡ line_for_blank byte }
{
    if byte == b' ' { b'_' } else { byte }
}

/// Whether the name is the label with one `_` for each blank.
fn is_plain(label: &[u8], name: &[u8]) -> bool
    ensures { result ≡ bytes_eq (map line_for_blank label.now) name.now }
{
    match label {
        [] => name.is_empty(),
        [byte, others @ ..] => match name {
            [] => false,
            [named, rest @ ..] => line_for_blank(*byte) == *named && is_plain(others, rest),
        },
    }
}

/// Whether a label's name has to be reported: it isn't the label with one `_` for each blank.
pub fn is_renamed(label: &[u8], name: &Name) -> bool
    ensures { result ≡ is_renamed label.now name.now }
{
    !is_plain(label, name.as_bytes())
}

impl LabelNames {
    /// No labels. It takes no memory.
    pub fn new(alloc: Global) -> LabelNames
        ensures { result ≡ none }
    {
        LabelNames {
            labels: IndexSet::new(alloc),
            names: GivenNames::new(alloc),
        }
    }

    /// The place of the label, from 0, if it came before.
    fn place_of(&self, label: &[u8]) -> Option<usize>
        ensures place { result ≡ position (bytes_eq label.now) self.now.labels }
        ensures within { IfSome result (λ place. place < length self.now.names) }
    {
        self.labels.get_index_of(label)
    }

    /// Adds a new label, and gives it its name.
    fn add(&mut self, alloc: Global, label: &[u8]) -> Result<Name, AllocError>
        requires { has_label self.old.labels label.now ≡ false }
        ensures name { IfOk result (λ name. name ≡ called self.old.names (spelled label.now)) }
        ensures added { OnOk result (self.new ≡ with_new self.old label.now) }
        ensures refused { OnErr result (self.new ≡ self.old) }
    {
        let word = spelled(alloc, label)?;
        let bytes = Vec::from_slice(alloc, label)?;
        self.labels.reserve(1)?;
        let name = self.names.give(alloc, word)?;
        self.labels.insert(bytes).unwrap();
        Ok(name)
    }

    /// The name of the label. A label that came before has its name already, and a new one gets a name after those
    /// before it. It fails only if memory runs out, and then leaves labels and names as they were.
    pub fn name(&mut self, alloc: Global, label: &[u8]) -> Result<Name, AllocError>
        ensures named { IfOk result (λ name. name ≡ name_of self.new label.now) }
        ensures kept { OnOk result (self.new ≡ with_label self.old label.now) }
        ensures refused { OnErr result (self.new ≡ self.old) }
    {
        match self.place_of(label) {
            Some(place) => Ok(self.names.as_slice()[place]),
            None => self.add(alloc, label),
        }
    }

    /// The labels, in the order in which they came.
    pub fn labels(&self) -> &[Vec<u8>]
        ensures { map (λ label. label.items) result.now ≡ self.now.labels }
    {
        self.labels.as_slice()
    }

    /// The name of each label.
    pub fn names(&self) -> &[Name]
        ensures names { result.now ≡ self.now.names }
        ensures same_many { length self.now.names ≡ length self.now.labels }
    {
        let _labels = &self.labels;
        self.names.as_slice()
    }
}
