//! The reserved words of a chart's text.
ghost use Rattle.std.specs.Prelude.{◌≡◌, bytes_eq};
ghost use Rattle.chart.specs.Keywords.{spelled, is_keyword, keywords, is_reserved};

/// A reserved word of the chart text, which is no name.
#[derive(Clone, Copy, Debug, PartialEq, Eq)]
pub enum Keyword {
    /// Begins the text.
    Msc,
    /// Ends it.
    EndMsc,
    /// Begins an instance.
    Instance,
    /// Ends it.
    EndInstance,
    /// Begins a send.
    Out,
    /// Precedes the instance to which a message goes.
    To,
    /// Begins a receive.
    In,
    /// Precedes the instance from which a message comes.
    From,
    /// Begins a coregion.
    Concurrent,
    /// Ends it.
    EndConcurrent,
}

/// Each reserved word.
const KEYWORDS: [Keyword; 10] = [
    Keyword::Msc,
    Keyword::EndMsc,
    Keyword::Instance,
    Keyword::EndInstance,
    Keyword::Out,
    Keyword::To,
    Keyword::In,
    Keyword::From,
    Keyword::Concurrent,
    Keyword::EndConcurrent,
];

impl Keyword {
    /// The spelling of the word.
    #[tactic(auto, unfolding(crate::specs::Keywords::spelled))]
    pub fn as_bytes(&self) -> &[u8]
        ensures { result.now ≡ spelled self.now }
    {
        match self {
            Keyword::Msc => b"msc",
            Keyword::EndMsc => b"endmsc",
            Keyword::Instance => b"instance",
            Keyword::EndInstance => b"endinstance",
            Keyword::Out => b"out",
            Keyword::To => b"to",
            Keyword::In => b"in",
            Keyword::From => b"from",
            Keyword::Concurrent => b"concurrent",
            Keyword::EndConcurrent => b"endconcurrent",
        }
    }

    /// Whether the bytes are this word.
    #[tactic(auto, unfolding(crate::specs::Keywords::is_keyword))]
    pub fn is(&self, word: &[u8]) -> bool
        ensures { result ≡ is_keyword self.now word.now }
    {
        word == self.as_bytes()
    }
}

/// Whether the bytes are a reserved word of the chart text.
#[tactic(auto, unfolding(crate::specs::Keywords::is_reserved))]
pub(crate) fn is_reserved(word: &[u8]) -> bool
    ensures { result ≡ is_reserved word.now }
{
    KEYWORDS.iter().any(|keyword| keyword.is(word))
}
