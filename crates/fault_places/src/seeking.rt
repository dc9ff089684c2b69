//! Whether a word has a fault of a given cause.
ghost use Rattle.std.specs.Prelude.{◌≡◌, is_err};
ghost use Rattle.fault_places.specs.Spots.{is_name, is_unknown, is_partner, is_again, is_too_many, other_line, instead, is_wrong, named_by, inner};
ghost use Rattle.texts.specs.Lines.{words_of, name_or_cause};

use crate::cutting::is_named;
use crate::parts::name_in;
use crate::want::{Want, is};
use chart::{MAX_INSTANCES, NameError};
use texts::Cause;

/// Whether a name is wanted there.
fn is_name(want: Want) -> bool
    ensures { result ≡ is_name want }
{
    match want {
        Want::FirstName
        | Want::OtherName
        | Want::Actor
        | Want::SendTo
        | Want::Partner
        | Want::Message
        | Want::InstanceName
        | Want::Sent
        | Want::Receiver
        | Want::Received
        | Want::Sender => true,
        _ => false,
    }
}

/// The part of a word that has to be a name. The last word of a chart's line has a semicolon after it.
fn named_by(want: Want, word: &[u8]) -> &[u8]
    ensures { result.now ≡ named_by want word.now }
{
    match want {
        Want::InstanceName | Want::Receiver | Want::Sender => name_in(word),
        _ => word,
    }
}

/// Whether the word is no name.
fn is_no_name(word: &[u8]) -> bool
    ensures { result ≡ is_err (name_or_cause word.now) }
{
    texts::name_in(word).is_err()
}

/// Whether a name is that of no instance. A schedule's first line has the names of its instances. In a chart's line the
/// partner is the unknown one.
#[tactic(auto, unfolding(crate::specs::Spots::is_unknown))]
fn is_unknown(known: &[u8], want: Want, word: &[u8]) -> bool
    ensures { result ≡ is_unknown (words_of known.now) want word.now }
{
    match want {
        Want::Actor | Want::SendTo | Want::Partner => !is_named(word, known, MAX_INSTANCES),
        Want::Receiver | Want::Sender => true,
        _ => false,
    }
}

/// Whether the partner of the acting instance is wanted there.
fn is_partner(want: Want) -> bool
    ensures { result ≡ is_partner want }
{
    match want {
        Want::SendTo | Want::Partner | Want::Receiver | Want::Sender => true,
        _ => false,
    }
}

/// Whether an earlier instance has this name: in a schedule's first line, a word before this one. In a chart's line the
/// instance that begins has the name again.
#[tactic(auto, unfolding(crate::specs::Spots::is_again))]
fn is_again(line: &[u8], want: Want, index: usize, word: &[u8]) -> bool
    ensures { result ≡ is_again (words_of line.now) want index word.now }
{
    match want {
        Want::OtherName => is_named(word, line, index.saturating_sub(1)),
        Want::InstanceName => true,
        _ => false,
    }
}

/// Whether this is the instance that is one too many, or in a chart the line that begins it, or that ends a chart with
/// too few.
#[tactic(auto, unfolding(crate::specs::Spots::is_too_many))]
fn is_too_many(want: Want, index: usize) -> bool
    ensures { result ≡ is_too_many want index }
{
    match want {
        Want::OtherName => index == MAX_INSTANCES + 1,
        Want::InstanceOrEnd => true,
        _ => false,
    }
}

/// What may be in the place of the line that begins one instance too many, or that ends a chart with too few.
fn other_line(word: &[u8]) -> Want
    ensures { result ≡ other_line word.now }
{
    if is(word, b"endmsc;") {
        Want::NextInstance
    } else {
        Want::End
    }
}

/// What may be in the place of a word that has a fault of this cause. If there are too many instances, or too few, it
/// isn't what the form of the line allows there.
#[tactic(auto, unfolding(crate::specs::Spots::instead))]
pub(crate) fn instead(cause: Cause, want: Want, word: &[u8]) -> Want
    ensures { result ≡ instead cause want word.now }
{
    match cause {
        Cause::Instances => match want {
            Want::OtherName => Want::LineEnd,
            Want::InstanceOrEnd => other_line(word),
            _ => want,
        },
        _ => want,
    }
}

/// Whether the word with this number in a line, from 0, has a fault of this cause.
#[tactic(auto, unfolding(crate::specs::Spots::is_wrong))]
pub(crate) fn is_wrong(
    cause: Cause,
    known: &[u8],
    line: &[u8],
    want: Want,
    index: usize,
    word: &[u8],
) -> bool
    ensures { result ≡ is_wrong cause (words_of known.now) (words_of line.now) want index word.now }
{
    match cause {
        Cause::Name(_) => is_name(want) && is_no_name(named_by(want, word)),
        Cause::UnknownInstance => is_unknown(known, want, word),
        Cause::ToItself => is_partner(want),
        Cause::Duplicate => is_again(line, want, index, word),
        Cause::Instances => is_too_many(want, index),
        Cause::Capacity => want == Want::Slots,
        Cause::LineFull => true,
        Cause::Syntax => false,
    }
}

/// The number of bytes of a word before its fault.
pub(crate) fn inner(cause: Cause) -> usize
    ensures { result ≡ inner cause }
{
    match cause {
        Cause::Name(NameError::BadByte(place)) => place.saturating_sub(1),
        _ => 0,
    }
}
