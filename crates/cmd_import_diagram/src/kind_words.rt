//! The words for the kinds of skipped constructs.
ghost use Rattle.std.specs.Prelude.{◌≡◌};
ghost use Rattle.cmd_import_diagram.specs.KindWords.{kind_word, kind_words, kind_reading};

use diagrams::Kind;

/// The words for one construct of a kind.
#[tactic(auto, unfolding(crate::specs::KindWords::kind_word))]
pub(crate) fn kind_word(kind: Kind) -> &'static [u8]
    ensures { result.now ≡ kind_word kind }
{
    match kind {
        Kind::ArrowBothWays => b"arrow both ways",
        Kind::ArrowAtTheEdge => b"arrow from or to the edge",
        Kind::Box => b"box",
        Kind::Branch => b"branch",
        Kind::Delay => b"delay",
        Kind::Diagram => b"diagram",
        Kind::Divider => b"divider",
        Kind::Frame => b"frame",
        Kind::HiddenArrow => b"hidden arrow",
        Kind::Line => b"line without a head",
        Kind::LostMessage => b"lost message",
        Kind::MessageWithin => b"message between joined lines",
        Kind::MessageToItself => b"message to oneself",
        Kind::Note => b"note",
        Kind::Participant => b"participant",
        Kind::Preprocessor => b"pre-processor line",
        Kind::Reference => b"reference",
        Kind::Return => b"return",
    }
}

/// The words for several constructs of a kind.
#[tactic(auto, unfolding(crate::specs::KindWords::kind_words))]
pub(crate) fn kind_words(kind: Kind) -> &'static [u8]
    ensures { result.now ≡ kind_words kind }
{
    match kind {
        Kind::ArrowBothWays => b"arrows both ways",
        Kind::ArrowAtTheEdge => b"arrows from or to the edge",
        Kind::Box => b"boxes",
        Kind::Branch => b"branches",
        Kind::Delay => b"delays",
        Kind::Diagram => b"diagrams",
        Kind::Divider => b"dividers",
        Kind::Frame => b"frames",
        Kind::HiddenArrow => b"hidden arrows",
        Kind::Line => b"lines without a head",
        Kind::LostMessage => b"lost messages",
        Kind::MessageWithin => b"messages between joined lines",
        Kind::MessageToItself => b"messages to oneself",
        Kind::Note => b"notes",
        Kind::Participant => b"participants",
        Kind::Preprocessor => b"pre-processor lines",
        Kind::Reference => b"references",
        Kind::Return => b"returns",
    }
}

/// The way in which a construct with more than one run is read.
#[tactic(auto, unfolding(crate::specs::KindWords::kind_reading))]
pub(crate) fn kind_reading(kind: Kind) -> &'static [u8]
    ensures { result.now ≡ kind_reading kind }
{
    match kind {
        Kind::Frame =>
            b": one run is read, of par each branch in turn, of others the first branch, once",
        _ => b"",
    }
}
