//! The last word of a line in a chart's text: a semicolon follows it.
ghost use Rattle.std.specs.Prelude.{◌≡◌};
ghost use Rattle.msc_text.specs.Reader.LastWords.{is_last_word};

/// Whether the word is `front` and a semicolon.
#[tactic(auto, unfolding(crate::specs::Reader::LastWords::is_last_word))]
pub(crate) fn is_last_word(front: &[u8], word: &[u8]) -> bool
    ensures { result ≡ is_last_word front.now word.now }
{
    match word {
        [] => false,
        [before @ .., last] => *last == b';' && before == front,
    }
}
