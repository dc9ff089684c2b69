//! The second line after F39: the fault of an expression, in the words of Rust's regex crate.
ghost use Rattle.std.specs.Prelude.{◌≡◌};
ghost use Rattle.texts.specs.Writing.{Adds};
ghost use Rattle.log_text.specs.Faults.{later_message, message_of, group_word, lacks_text, lacks_either_text, fault_text};

use log_formats::patterns::{Fault, Group};
use regex_syntax::ErrorKind;
use texts::pieces::{Piece, add_pieces};
use texts::{Out, TextBuffer, WriteError};

/// The message for a fault of the later kinds, with that of the last kind for any other.
#[tactic(auto, unfolding(crate::specs::Faults::later_message))]
fn later_message(kind: ErrorKind) -> &'static [u8]
    ensures { result.now ≡ later_message kind }
{
    match kind {
        ErrorKind::GroupNameUnexpectedEof => b"unclosed capture group name",
        ErrorKind::GroupUnclosed => b"unclosed group",
        ErrorKind::GroupUnopened => b"unopened group",
        ErrorKind::InvalidUtf8 => b"pattern can match invalid UTF-8",
        ErrorKind::NestLimitExceeded =>
            b"groups, classes or repetitions nest deeper than the nesting limit allows",
        ErrorKind::OutOfMemory => b"out of memory",
        ErrorKind::RepetitionCountDecimalEmpty => b"repetition quantifier expects a valid decimal",
        ErrorKind::RepetitionCountInvalid =>
            b"invalid repetition count range, the start must be <= the end",
        ErrorKind::RepetitionCountUnclosed => b"unclosed counted repetition",
        ErrorKind::RepetitionMissing => b"repetition operator missing expression",
        ErrorKind::SpecialWordBoundaryUnclosed =>
            b"special word boundary assertion is either unclosed or contains an invalid character",
        ErrorKind::SpecialWordBoundaryUnrecognized =>
            b"unrecognized special word boundary assertion, valid choices are: start, end, start-half or end-half",
        ErrorKind::SpecialWordOrRepetitionUnexpectedEof =>
            b"a special word boundary or a bounded repetition on a \\b has no closing brace",
        ErrorKind::UnicodeClassInvalid => b"invalid Unicode character class",
        ErrorKind::UnicodeNotAllowed => b"Unicode not allowed here",
        ErrorKind::UnicodePropertyNotFound => b"Unicode property not found",
        ErrorKind::UnicodePropertyValueNotFound => b"Unicode property value not found",
        ErrorKind::UnsupportedBackreference => b"backreferences are not supported",
        _ => b"look-around, including look-ahead and look-behind, is not supported",
    }
}

/// The message for a fault that the grammar finds.
#[tactic(auto, unfolding(crate::specs::Faults::message_of))]
fn message_of(kind: ErrorKind) -> &'static [u8]
    ensures { result.now ≡ message_of kind }
{
    match kind {
        ErrorKind::CaptureLimitExceeded => b"exceeded the maximum number of capturing groups",
        ErrorKind::ClassEscapeInvalid => b"invalid escape sequence found in character class",
        ErrorKind::ClassRangeInvalid =>
            b"invalid character class range, the start must be <= the end",
        ErrorKind::ClassRangeLiteral => b"invalid range boundary, must be a literal",
        ErrorKind::ClassUnclosed => b"unclosed character class",
        ErrorKind::DecimalInvalid => b"decimal literal invalid",
        ErrorKind::EscapeHexEmpty => b"hexadecimal literal empty",
        ErrorKind::EscapeHexInvalid => b"hexadecimal literal is not a Unicode scalar value",
        ErrorKind::EscapeHexInvalidDigit => b"invalid hexadecimal digit",
        ErrorKind::EscapeUnexpectedEof =>
            b"incomplete escape sequence, reached end of pattern prematurely",
        ErrorKind::EscapeUnrecognized => b"unrecognized escape sequence",
        ErrorKind::FlagDanglingNegation => b"dangling flag negation operator",
        ErrorKind::FlagDuplicate => b"duplicate flag",
        ErrorKind::FlagRepeatedNegation => b"flag negation operator repeated",
        ErrorKind::FlagUnexpectedEof => b"expected flag but got end of regex",
        ErrorKind::FlagUnrecognized => b"unrecognized flag",
        ErrorKind::GroupNameDuplicate => b"duplicate capture group name",
        ErrorKind::GroupNameEmpty => b"empty capture group name",
        ErrorKind::GroupNameInvalid => b"invalid capture group character",
        _ => later_message(kind),
    }
}

/// The word that names a group.
pub fn group_word(group: Group) -> &'static [u8]
    ensures { result.now ≡ group_word group }
{
    match group {
        Group::Host => b"host",
        Group::Direction => b"dir",
        Group::Peer => b"peer",
        Group::Name => b"name",
        Group::Source => b"src",
        Group::Destination => b"dst",
        Group::Clock => b"clock",
        Group::Event => b"event",
    }
}

/// Adds that no group has this name.
#[tactic(auto, unfolding(crate::specs::Faults::lacks_text))]
fn add_lacks<V: Out>(text: &mut TextBuffer<'_, V>, word: &[u8]) -> Result<(), WriteError>
    ensures { Adds V.sink text.old text.new result (lacks_text word.now) }
{
    add_pieces(
        text,
        &[
            Piece::Bytes(b"no group is named "),
            Piece::Bytes(word),
            Piece::Bytes(b"\n"),
        ],
    )
}

/// Adds that no group has one of these two names. Each is of one set of groups.
#[tactic(auto, unfolding(crate::specs::Faults::lacks_either_text))]
fn add_lacks_either<'a, V: Out>(
    text: &mut TextBuffer<'_, V>,
    word: &'a [u8],
    besides: &'a [u8],
) -> Result<(), WriteError>
    ensures { Adds V.sink text.old text.new result (lacks_either_text word.now besides.now) }
{
    add_pieces(
        text,
        &[
            Piece::Bytes(b"no group is named "),
            Piece::Bytes(word),
            Piece::Bytes(b" (for src, dst, name) or "),
            Piece::Bytes(besides),
            Piece::Bytes(b" (for host, dir, peer, name)\n"),
        ],
    )
}

/// Adds the line about an expression's fault.
#[tactic(auto, unfolding(crate::specs::Faults::fault_text))]
pub fn add_fault<V: Out>(text: &mut TextBuffer<'_, V>, fault: Fault) -> Result<(), WriteError>
    ensures { Adds V.sink text.old text.new result (fault_text fault) }
{
    match fault {
        Fault::Unreadable(kind) => text.add_all(&[message_of(kind), b"\n"]),
        Fault::TooLarge => text.add(b"the expression is too large\n"),
        Fault::Lacks(group, None) => add_lacks(text, group_word(group)),
        Fault::Lacks(group, Some(besides)) => {
            add_lacks_either(text, group_word(group), group_word(besides))
        }
    }
}
