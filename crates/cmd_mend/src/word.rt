//! What stands between names and numbers.
ghost use Rattle.std.specs.Prelude.{◌≡◌};
ghost use Rattle.texts.specs.Writing.{Adds};
ghost use Rattle.cmd_mend.specs.Words.{word_text};

use texts::{Out, TextBuffer, WriteError};

/// What stands between names and numbers.
#[derive(Clone, Copy)]
pub(crate) enum Word {
    /// Before a message's sender.
    From,
    /// Before its receiver.
    To,
    /// Before the number of the event behind which it is sent.
    Sent,
    /// Before the number of the event behind which it is received, 0 at the line's head.
    Received,
    /// Before a race that goes.
    Goes,
    /// Before one that stays.
    Stays,
    /// Before one that comes.
    Comes,
    /// Before the sender of the message that there isn't.
    NoMessage,
    /// Behind its receiver.
    Does,
    /// Behind an event that the receive's send is before.
    Crossed,
    /// Behind a message that is on its way.
    OnItsWay,
    /// Before a race pair.
    Race,
    /// Between its words.
    Space,
    /// Behind them.
    Colon,
    /// Before the name of an instance whose line is full.
    LineFull,
    /// Before the number of race pairs that go.
    Pairs,
    /// Behind it.
    Go,
    /// Behind the number of those that stay.
    Stay,
    /// Behind the number of those that come.
    Come,
    /// Before the number of race pairs that were tried.
    StoppedAfter,
    /// Behind the number of those that are left.
    AreLeft,
    /// At a line's end.
    End,
}

#[tactic(auto, unfolding(crate::specs::Words::word_text))]
fn word_of(word: &Word) -> &[u8]
    ensures { result.now ≡ word_text word.now }
{
    match word {
        Word::From => b" from ",
        Word::To => b" to ",
        Word::Sent => b": sent behind event ",
        Word::Received => b", received behind event ",
        Word::Goes => b"goes: ",
        Word::Stays => b"stays: ",
        Word::Comes => b"comes: ",
        Word::NoMessage => b"no message from ",
        Word::Does => b" does: ",
        Word::Crossed => b" comes behind the receive's send\n",
        Word::OnItsWay => b" is on its way\n",
        Word::Race => b"race ",
        Word::Space => b" ",
        Word::Colon => b": ",
        Word::LineFull => b"refused: F7 LineFull ",
        Word::Pairs => b"race pairs: ",
        Word::Go => b" go, ",
        Word::Stay => b" stay, ",
        Word::Come => b" come\n",
        Word::StoppedAfter => b"stopped after ",
        Word::AreLeft => b" races are left\n",
        Word::End => b"\n",
    }
}

pub(crate) fn add_word<W: Out>(text: &mut TextBuffer<'_, W>, word: Word) -> Result<(), WriteError>
    ensures { Adds W.sink text.old text.new result (word_text word) }
{
    text.add(word_of(&word))
}
