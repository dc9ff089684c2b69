//! The names of instances and messages.
ghost use Rattle.std.specs.Prelude.{◌≡◌, ◌≤◌, ◌<◌, length, nat_eq, [], ◌∷◌, position, not, replicate, IfSome};
ghost use Rattle.std.specs.Cmp.{on_equiv, on_per, partial_equiv_from_equiv};
ghost use Rattle.std.specs.Cmp.Lexicographic.{pointwise, nat_list_eq_equiv};
ghost use Rattle.std.specs.Cmp.Rules.{hashing};
ghost use Rattle.std.proofs.Common.{rules};
ghost use Rattle.chart.specs.Names.{IsName, name_of, bad_place, is_letter, is_name_byte};
ghost use Rattle.chart.specs.Padding.{held_len};
ghost use Rattle.chart.specs.declared.name.TheConstants.{MAX_NAME};

use crate::keyword::is_reserved;
use std::hash::{Hash, Hasher};
use std::marker::Model;
use std::simd::prelude::*;
use thiserror::Error;

/// The most bytes in a name.
pub const MAX_NAME: usize = 32;

const _: () = prove!(MAX_NAME == 32);

/// Why bytes are no name: the first of these that applies.
#[derive(Clone, Copy, Debug, PartialEq, Eq, Error)]
pub enum NameError {
    /// F1: there are no bytes.
    #[error("the name is empty")]
    Empty,
    /// F2: there are more than [`MAX_NAME`] bytes.
    #[error("the name is longer than 32 bytes")]
    TooLong,
    /// F3: the byte of this number, from 1, is the first that doesn't belong. A name is a letter `A` to `Z` or
    /// `a` to `z`, and then letters, digits and `_`.
    #[error("byte {0} doesn't belong in a name")]
    BadByte(usize),
    /// F4: the bytes are a reserved word of the chart text.
    #[error("the name is a reserved word")]
    Reserved,
}

/// The name of an instance or of a message: 1 to [`MAX_NAME`] bytes, held in place. A contract sees the bytes.
///
/// A shorter name is followed by zeros, and the last byte is the number of missing bytes. No byte of a name is less
/// than [`MAX_NAME`]. So the last byte shows which of the two it is, and two names are equal exactly if all 32 bytes
/// are.
#[derive(Clone, Copy, Debug)]
pub struct Name {
    bytes: [u8; MAX_NAME],
}

impl Model for Name {
    ghost use Rattle.std.specs.Prelude.{◌≡◌, ℕ, List};

    ghost Value = { List ℕ };

    ghost use Rattle.chart.specs.Names.{IsName};
    ghost use Rattle.chart.specs.Padding.{padded, unpadded};

    ghost view = { λ n. unpadded n.bytes };

    ghost invariant = { λ n. IsName (unpadded n.bytes) × (padded (unpadded n.bytes) ≡ n.bytes) };

    ghost inverse = { λ w. record { bytes = padded w } };

    ghost inverse_ok = { λ n h i. record { bytes = h.1 i } };
}

fn is_letter(byte: u8) -> bool
    ensures { result ≡ is_letter byte }
{
    (b'A' <= byte && byte <= b'Z') || (b'a' <= byte && byte <= b'z')
}

fn is_name_byte(byte: u8) -> bool
    ensures { result ≡ is_name_byte byte }
{
    is_letter(byte) || (b'0' <= byte && byte <= b'9') || byte == b'_'
}

fn first_other(bytes: &[u8]) -> Option<usize>
    ensures value { result ≡ position (λ b. not (is_name_byte b)) bytes.now }
    ensures within { IfSome result (λ place. place < length bytes.now) }
{
    bytes.iter().position(|b| !is_name_byte(*b))
}

/// The number, from 1, of the first byte that doesn't belong in a name.
fn bad_place(bytes: &[u8]) -> Option<usize>
    requires { length bytes.now ≤ MAX_NAME }
    ensures { result ≡ bad_place bytes.now }
{
    match bytes {
        [] => None,
        [first, rest @ ..] => {
            if !is_letter(*first) {
                return Some(1);
            }
            match first_other(rest) {
                None => None,
                Some(place) => Some(place + 2),
            }
        }
    }
}

fn zeros() -> [u8; MAX_NAME]
    ensures { result ≡ replicate MAX_NAME 0 }
{
    [0; MAX_NAME]
}

/// The number of held bytes that are the name's.
#[inline(always)]
fn held_len(held: &[u8; MAX_NAME]) -> usize
    ensures value { result ≡ held_len held.now }
    ensures within { result ≤ MAX_NAME }
{
    let last = held[MAX_NAME - 1] as usize;
    if last >= MAX_NAME {
        MAX_NAME
    } else {
        MAX_NAME - last
    }
}

/// Whether both hold the same bytes. All bytes are compared at once.
#[inline(always)]
fn are_same(held: &[u8; MAX_NAME], other: &[u8; MAX_NAME]) -> bool
    ensures { result ≡ pointwise nat_eq held.now other.now }
{
    let differ = Simd::<u8, MAX_NAME>::from_array(*held).simd_ne(Simd::from_array(*other));
    differ.to_bitmask() == 0
}

impl Name {
    /// The bytes as a name, or the first of F1 to F4 that applies. It takes no memory.
    #[tactic(auto, unfolding(crate::specs::Names::name_of))]
    pub fn new(bytes: &[u8]) -> Result<Name, NameError>
        ensures { result ≡ name_of bytes.now }
    {
        if bytes.is_empty() {
            return Err(NameError::Empty);
        }
        if bytes.len() > MAX_NAME {
            return Err(NameError::TooLong);
        }
        if let Some(place) = bad_place(bytes) {
            return Err(NameError::BadByte(place));
        }
        if is_reserved(bytes) {
            return Err(NameError::Reserved);
        }
        Ok(Name::held(bytes))
    }

    /// The name with these bytes.
    fn held(bytes: &[u8]) -> Name
        requires name { IsName bytes.now }
        requires short { length bytes.now ≤ MAX_NAME }
        ensures { result ≡ bytes.now }
    {
        let mut held = zeros();
        held[..bytes.len()].copy_from_slice(bytes);
        if bytes.len() < MAX_NAME {
            held[MAX_NAME - 1] = (MAX_NAME - bytes.len()) as u8;
        }
        Name { bytes: held }
    }

    #[inline(always)]
    pub fn as_bytes(&self) -> &[u8]
        ensures value { result.now ≡ self.now }
        ensures name { IsName result.now }
        ensures short { length result.now ≤ MAX_NAME }
    {
        &self.bytes[..held_len(&self.bytes)]
    }
}

impl PartialEq for Name {
    ghost eq = { pointwise nat_eq };

    ghost laws = { partial_equiv_from_equiv nat_list_eq_equiv };

    #[inline(always)]
    fn eq(&self, other: &Name) -> bool {
        are_same(&self.bytes, &other.bytes)
    }
}

impl Eq for Name {
    ghost laws = { nat_list_eq_equiv };
}

impl Hash for Name {
    ghost hash_input = { λ n. n ∷ [] };

    ghost respects_eq = { Prim.search (hashing, rules) };

    fn hash<H: Hasher>(&self, state: &mut H) {
        state.write(self.as_bytes());
    }
}
