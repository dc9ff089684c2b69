//! The signs of arrows.
ghost use Rattle.std.specs.Prelude.{◌≡◌, ◌≤◌, ◌<◌, ◌+◌, length, drop, map, option_map, IfSome};
ghost use Rattle.diagram_mermaid.specs.Signs.{first_spelled, bare_sign, circle_length, sign_at, may_begin, first_sign, moved};

use texts::begins_with;

/// The direction of an arrow.
#[derive(Clone, Copy, Debug)]
pub(crate) enum Direction {
    /// From the participant before the sign to the one after it.
    Forth,
    /// From the participant after the sign to the one before it.
    Back,
    /// Both ways.
    Both,
    /// Forth, but the message is lost.
    Lost,
}

/// A sign: the number of bytes before it, its own number of bytes, and the direction of its arrow.
#[derive(Clone, Copy, Debug)]
pub(crate) struct Sign {
    pub before: usize,
    pub length: usize,
    pub direction: Direction,
}

/// The signs of arrows. A longer sign comes before its own beginnings.
const SIGNS: [(&[u8], Direction); 28] = [
    (b"<<-->>", Direction::Both),
    (b"<<->>", Direction::Both),
    (b"\\|--", Direction::Back),
    (b"\\|-", Direction::Back),
    (b"/|--", Direction::Back),
    (b"/|-", Direction::Back),
    (b"//--", Direction::Back),
    (b"//-", Direction::Back),
    (b"\\\\--", Direction::Back),
    (b"\\\\-", Direction::Back),
    (b"--x", Direction::Lost),
    (b"--X", Direction::Lost),
    (b"-x", Direction::Lost),
    (b"-X", Direction::Lost),
    (b"-->>", Direction::Forth),
    (b"-->", Direction::Forth),
    (b"->>", Direction::Forth),
    (b"->", Direction::Forth),
    (b"--)", Direction::Forth),
    (b"-)", Direction::Forth),
    (b"--|\\", Direction::Forth),
    (b"--|/", Direction::Forth),
    (b"-|\\", Direction::Forth),
    (b"-|/", Direction::Forth),
    (b"--\\\\", Direction::Forth),
    (b"-\\\\", Direction::Forth),
    (b"--//", Direction::Forth),
    (b"-//", Direction::Forth),
];

/// The first of these spellings with which the bytes begin.
fn first_spelled(spellings: &[(&[u8], Direction)], bytes: &[u8]) -> Option<Sign>
    ensures value { result ≡ first_spelled (map (λ s. (s.0.now, s.1)) spellings.now) bytes.now }
    ensures within { IfSome result (λ sign. sign.before + sign.length ≤ length bytes.now) }
{
    for (spelled, direction) in spellings {
        if begins_with(bytes, *spelled) {
            return Some(Sign {
                before: 0,
                length: spelled.len(),
                direction: *direction,
            });
        }
    }
    None
}

/// The sign without circles with which the bytes begin.
#[tactic(auto, unfolding(crate::specs::Signs::bare_sign))]
fn bare_sign(bytes: &[u8]) -> Option<Sign>
    ensures value { result ≡ bare_sign bytes.now }
    ensures within { IfSome result (λ sign. sign.before + sign.length ≤ length bytes.now) }
{
    first_spelled(&SIGNS, bytes)
}

/// The length of a circle, if the bytes begin with one, or 0.
#[tactic(auto, unfolding(crate::specs::Signs::circle_length))]
fn circle_length(bytes: &[u8]) -> usize
    ensures value { result ≡ circle_length bytes.now }
    ensures within { result ≤ length bytes.now }
{
    if begins_with(bytes, b"()") { 2 } else { 0 }
}

/// Whether a sign may begin with this byte.
fn may_begin(byte: u8) -> bool
    ensures { result ≡ may_begin byte }
{
    byte == b'-' || byte == b'<' || byte == b'(' || byte == b'/' || byte == b'\\'
}

/// The sign with which the bytes begin, with the circles at its ends.
#[tactic(auto, unfolding(crate::specs::Signs::sign_at))]
fn sign_at(bytes: &[u8]) -> Option<Sign>
    ensures value { result ≡ sign_at bytes.now }
    ensures within { IfSome result (λ sign. sign.before + sign.length ≤ length bytes.now) }
{
    let circle = circle_length(bytes);
    let behind_circle = &bytes[circle..];
    match bare_sign(behind_circle) {
        None => None,
        Some(bare) => Some(Sign {
            before: 0,
            length: circle + bare.length + circle_length(&behind_circle[bare.length..]),
            direction: bare.direction,
        }),
    }
}

/// The first sign.
#[tactic(auto, unfolding(crate::specs::Signs::first_sign), using(crate::proofs::SignLoops::moved_on))]
pub(crate) fn first_sign(bytes: &[u8]) -> Option<Sign>
    ensures value { result ≡ first_sign bytes.now }
    ensures within { IfSome result (λ sign. sign.before + sign.length ≤ length bytes.now) }
{
    let mut before = 0;
    let mut rest = bytes;
    'bytes: while let [byte, others @ ..] = rest {
        if may_begin(*byte) {
            if let Some(sign) = sign_at(rest) {
                return Some(Sign {
                    before,
                    length: sign.length,
                    direction: sign.direction,
                });
            }
        }
        before += 1;
        rest = others;
    }
    None
}
