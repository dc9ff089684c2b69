//! A sequence diagram, independent of the tool that it was drawn for.
use crate::left_out::LeftOut;
use crate::place::Place;

/// A participant: one line of the diagram.
#[derive(Debug, Drop)]
pub struct Participant {
    /// The text that is shown. A line feed begins a new line in it.
    pub label: Vec<u8>,
    /// The number of the line that first names it, from 1.
    pub line: u64,
}

/// An arrow from one participant to another.
#[derive(Debug, Drop)]
pub struct Arrow {
    pub place: Place,
    /// The row in which it begins. Rows are numbered from the top. No arrow begins above an earlier one of the text.
    pub begins: u64,
    /// The row in which it ends: the same, or a row further down.
    pub ends: u64,
    /// The sender: its place in the list of participants, from 0.
    pub sender: usize,
    /// The receiver: its place in that list. It isn't the sender.
    pub receiver: usize,
    /// The text at the arrow. A line feed begins a new line in it.
    pub label: Vec<u8>,
    /// Whether it is drawn as a lost message, which nobody receives.
    pub is_lost: bool,
}

/// A note at one participant. In the words of our own exports it states a send or a receive.
#[derive(Debug, Drop)]
pub struct Note {
    pub place: Place,
    pub row: u64,
    /// The participant: its place in the list, from 0.
    pub participant: usize,
    pub text: Vec<u8>,
}

/// An item of a diagram, which may be one event or two.
#[derive(Debug, Drop)]
pub enum Item {
    Arrow(Arrow),
    Note(Note),
}

/// A diagram.
#[derive(Debug, Drop)]
pub struct Diagram {
    /// In the order in which the text names them.
    pub participants: Vec<Participant>,
    /// In the order of the text.
    pub items: Vec<Item>,
    /// One entry for each kind, in the order in which they came.
    pub left_out: Vec<LeftOut>,
}
