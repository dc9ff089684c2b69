//! Statements of a diagram, in the order of its text.
ghost use Rattle.std.specs.Prelude.{◌≡◌};
ghost use Rattle.diagram_statements.specs.declared.statement.ReadError.TheVariants.{Memory};

use std::alloc::{AllocError, AllocFailed};

/// A place in a text.
#[derive(Clone, Copy, Debug, PartialEq, Eq)]
pub struct Place {
    /// From 1.
    pub line: u64,
    /// In bytes, from 1.
    pub column: u64,
}

/// A participant in a statement: the word for it, and its label, if the statement gives one.
#[derive(Clone, Copy, Debug)]
pub struct End<'a> {
    pub word: &'a [u8],
    pub label: Option<&'a [u8]>,
}

/// The form of an arrow.
#[derive(Clone, Copy, Debug, PartialEq, Eq)]
pub enum ArrowForm {
    Message,
    /// A lost message.
    Lost,
    /// It has a head at each end.
    BothWays,
    /// It has no head.
    Headless,
    /// It isn't drawn.
    Hidden,
}

/// An arrow.
#[derive(Clone, Copy, Debug)]
pub struct Arrow<'a> {
    /// The participant that is written first, or none for the edge of the diagram.
    pub first: Option<End<'a>>,
    /// The participant that is written second, or none for the edge.
    pub second: Option<End<'a>>,
    /// Whether it goes from the second to the first.
    pub goes_back: bool,
    pub form: ArrowForm,
    pub label: &'a [u8],
    /// Whether it is in the row of the arrow above it.
    pub is_beside: bool,
    /// Its effect on its receiver, if arrows activate: it begins an activation (`true`), ends one (`false`), or does
    /// neither.
    pub activates: Option<bool>,
}

/// The position of a note.
#[derive(Clone, Copy, Debug)]
pub enum NoteAt<'a> {
    /// The arrow above it.
    Arrow,
    /// One participant.
    Participant(&'a [u8]),
    /// Several participants, or all.
    Several,
}

/// A group of statements.
#[derive(Clone, Copy, Debug, PartialEq, Eq)]
pub enum Group {
    /// Its branches are parallel.
    Parallel,
    /// It breaks off the statements around it.
    Break,
    /// Any other group: one of its branches is taken.
    Choice,
}

/// The content of a statement.
#[derive(Clone, Copy, Debug)]
pub enum Element<'a> {
    /// A participant, perhaps with its label: the first statement that names it decides.
    Named(End<'a>),
    /// A participant with its label: the last such statement decides.
    Renamed(End<'a>),
    Arrow(Arrow<'a>),
    Note { at: NoteAt<'a>, text: &'a [u8] },
    /// The receiver of the arrow above it is active from here on.
    Activate,
    /// The innermost activation ends.
    Deactivate,
    /// An answer to the arrow of the innermost activation.
    Return { label: &'a [u8], is_beside: bool },
    /// From here on arrows activate, or no longer do.
    ArrowsActivate(bool),
    Begin(Group),
    /// Another branch of the innermost group.
    Branch,
    /// The innermost group or box ends.
    End,
    /// A box around statements.
    BeginBox,
    /// A box around participants, which needs no end.
    Box,
    Divider,
    Delay,
    Reference,
    /// A line of the preprocessor, which is skipped in each branch, taken or not.
    Preprocessor,
    /// Another diagram of the text, which is skipped in each branch, taken or not.
    OtherDiagram,
}

/// A statement, and where it begins.
#[derive(Clone, Copy, Debug)]
pub struct Statement<'a> {
    pub place: Place,
    pub element: Element<'a>,
}

/// Why a text isn't a diagram.
#[derive(Clone, Copy, Debug, PartialEq, Eq)]
pub enum Fault {
    /// The text at this place can't be read.
    NotRead(Place),
    /// The text ends too early.
    Unfinished,
}

/// Why a text was not read.
#[derive(Clone, Copy, Debug, PartialEq, Eq)]
pub enum ReadError {
    /// A growth was refused.
    Memory,
    Fault(Fault),
}

impl From<AllocError> for ReadError {
    ghost from_gives = { λ _ e. e ≡ Memory };

    fn from(_e: AllocError) -> ReadError {
        ReadError::Memory
    }
}

impl<T: Drop> From<AllocFailed<T>> for ReadError {
    ghost from_gives = { λ _ e. e ≡ Memory };

    fn from(_e: AllocFailed<T>) -> ReadError {
        ReadError::Memory
    }
}
