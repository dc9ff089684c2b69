//! The words of the text.
ghost use Rattle.std.specs.Prelude.{◌≡◌};
ghost use Rattle.cmd_compare.specs.Words.{word_text, verdict_word};

use crate::verdict::Verdict;

/// The fixed parts between names and numbers.
#[derive(Clone, Copy)]
pub(crate) enum Word {
    Colon,
    Open,
    To,
    From,
    There,
    CloseThere,
    Close,
    Before,
    InSecond,
    InFirst,
    InSecondEnd,
    OnlyFirst,
    OnlySecond,
    Race,
    Enforced,
    Unclaimed,
    Instance,
    Earlier,
    EarlierThere,
    EarlierMessage,
    Later,
    LaterThere,
    LaterMessage,
    First,
    Second,
    EndObject,
    FirstAlone,
    SecondAlone,
    Event,
    Message,
}

#[tactic(auto, unfolding(crate::specs::Words::word_text))]
pub(crate) fn word_of(word: &Word) -> &[u8]
    ensures { result.now ≡ word_text word.now }
{
    match word {
        Word::Colon => b": ",
        Word::Open => b" (",
        Word::To => b", to ",
        Word::From => b", from ",
        Word::There => b"; ",
        Word::CloseThere => b" in B)",
        Word::Close => b")\n",
        Word::Before => b" comes before ",
        Word::InSecond => b" in B: ",
        Word::InFirst => b" in A, ",
        Word::InSecondEnd => b" in B\n",
        Word::OnlyFirst => b": only A has ",
        Word::OnlySecond => b": only B has ",
        Word::Race => b"race",
        Word::Enforced => b"enforced",
        Word::Unclaimed => b"unclaimed",
        Word::Instance => b"{\"instance\":\"",
        Word::Earlier => b"\",\"earlier\":",
        Word::EarlierThere => b",\"earlier_in_b\":",
        Word::EarlierMessage => b",\"earlier_message\":\"",
        Word::Later => b"\",\"later\":",
        Word::LaterThere => b",\"later_in_b\":",
        Word::LaterMessage => b",\"later_message\":\"",
        Word::First => b"\",\"a\":\"",
        Word::Second => b"\",\"b\":\"",
        Word::EndObject => b"\"}\n",
        Word::FirstAlone => b"{\"only\":\"a\",\"instance\":\"",
        Word::SecondAlone => b"{\"only\":\"b\",\"instance\":\"",
        Word::Event => b"\",\"event\":",
        Word::Message => b",\"message\":\"",
    }
}

/// The word for a verdict.
pub(crate) fn verdict_word(verdict: Verdict) -> Word
    ensures { result ≡ verdict_word verdict }
{
    match verdict {
        Verdict::Enforced => Word::Enforced,
        Verdict::Race => Word::Race,
        Verdict::Unclaimed => Word::Unclaimed,
    }
}
