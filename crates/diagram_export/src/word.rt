//! The words between the parts of an export.
ghost use Rattle.std.specs.Prelude.{◌≡◌};
ghost use Rattle.diagram_export.specs.Words.{spelled};

/// A word of a tool's text, or the text between two of its parts.
#[derive(Clone, Copy)]
pub(crate) enum Word {
    Quote,
    /// Before the number of an instance.
    Number,
    /// Before the rows that an arrow goes down.
    ArcSkip,
    Note,
    Out,
    To,
    In,
    From,
    MayComeBefore,
    Participant,
    As,
    LineEnd,
    /// Before a clock, and after it.
    ClockStart,
    ClockEnd,
    Colon,
    Comma,
    UpTo,
}

impl Word {
    #[tactic(auto, unfolding(crate::specs::Words::spelled))]
    pub(crate) fn as_bytes(self) -> &'static [u8]
        ensures { result.now ≡ spelled self }
    {
        match self {
            Word::Quote => b"\"",
            Word::Number => b"i",
            Word::ArcSkip => b"\", arcskip=\"",
            Word::Note => b" note ",
            Word::Out => b"out ",
            Word::To => b" to ",
            Word::In => b"in ",
            Word::From => b" from ",
            Word::MayComeBefore => b"may come before ",
            Word::Participant => b"participant ",
            Word::As => b" as ",
            Word::LineEnd => b"\n",
            Word::ClockStart => b" {",
            Word::ClockEnd => b"} ",
            Word::Colon => b":",
            Word::Comma => b", ",
            Word::UpTo => b" up to ",
        }
    }
}
