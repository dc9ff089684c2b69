//! The constructs of a diagram that are skipped, because a chart can't express them.
ghost use Rattle.std.specs.Prelude.{◌≡◌, ◌<◌, length, position, IfOk, IfSome, OnErr};
ghost use Rattle.diagrams.specs.LeftOuts.{number_of, is_kind, and_one, with_one};

use crate::place::Place;
use std::alloc::AllocError;

/// A kind of skipped constructs. The kinds are in the alphabetical order of their words in warnings.
#[derive(Clone, Copy, Debug, PartialEq, Eq)]
pub enum Kind {
    /// An arrow with a head at both ends.
    ArrowBothWays,
    /// An arrow from or to the edge of the diagram.
    ArrowAtTheEdge,
    /// A box around arcs, participants or statements.
    Box,
    /// A branch of a group that isn't taken.
    Branch,
    /// A delay: time that passes.
    Delay,
    /// A diagram after the first one.
    Diagram,
    /// A line or a word across all participants.
    Divider,
    /// The frame of a group whose branch is taken.
    Frame,
    /// An arrow that isn't drawn.
    HiddenArrow,
    /// A line that shows no direction.
    Line,
    /// A lost message, if a later message of its lane is received.
    LostMessage,
    /// A message between lines that are joined.
    MessageWithin,
    /// A message of a participant to itself.
    MessageToItself,
    /// A note that states no event.
    Note,
    /// A participant that was named before.
    Participant,
    /// A line for the preprocessor.
    Preprocessor,
    /// A reference to another diagram.
    Reference,
    /// A `return` that has no arrow to answer.
    Return,
}

/// How many constructs of a kind are skipped, and the place of the first of them.
#[derive(Clone, Copy, Debug, PartialEq, Eq)]
pub struct LeftOut {
    pub kind: Kind,
    pub count: u64,
    pub first: Place,
}

impl Kind {
    /// Its number, in the order of the kinds' words.
    fn number(self) -> u8
        ensures { result ≡ number_of self }
    {
        match self {
            Kind::ArrowBothWays => 0,
            Kind::ArrowAtTheEdge => 1,
            Kind::Box => 2,
            Kind::Branch => 3,
            Kind::Delay => 4,
            Kind::Diagram => 5,
            Kind::Divider => 6,
            Kind::Frame => 7,
            Kind::HiddenArrow => 8,
            Kind::Line => 9,
            Kind::LostMessage => 10,
            Kind::MessageWithin => 11,
            Kind::MessageToItself => 12,
            Kind::Note => 13,
            Kind::Participant => 14,
            Kind::Preprocessor => 15,
            Kind::Reference => 16,
            Kind::Return => 17,
        }
    }
}

/// The place of the kind in this list.
fn place_of(left_out: &[LeftOut], kind: Kind) -> Option<usize>
    ensures value { result ≡ position (is_kind kind) left_out.now }
    ensures within { IfSome result (λ place. place < length left_out.now) }
{
    left_out
        .iter()
        .position(|l| kind.number() == l.kind.number())
}

/// Counts one more construct of this kind. The count stops at its type's greatest number.
fn and_one(left_out: LeftOut, place: Place) -> LeftOut
    ensures { result ≡ and_one left_out place }
{
    let first = if place.is_before(&left_out.first) {
        place
    } else {
        left_out.first
    };
    LeftOut {
        kind: left_out.kind,
        count: left_out.count.saturating_add(1),
        first,
    }
}

/// Adds one more skipped construct. F6 leaves the list unchanged.
#[tactic(auto, unfolding(crate::specs::LeftOuts::with_one))]
pub fn leave_out(left_out: &mut Vec<LeftOut>, kind: Kind, place: Place) -> Result<(), AllocError>
    ensures ok { IfOk result (λ _. left_out.new.items ≡ with_one left_out.old.items kind place) }
    ensures err { OnErr result (left_out.new.items ≡ left_out.old.items) }
{
    match place_of(left_out.as_slice(), kind) {
        Some(at) => {
            let more = and_one(left_out[at], place);
            left_out[at] = more;
        }
        None => {
            left_out.push(LeftOut {
                kind,
                count: 1,
                first: place,
            })?;
        }
    }
    Ok(())
}
