//! Bytes of a text that haven't been put yet.
ghost use Rattle.std.specs.Prelude.{◌≡◌, ◌≤◌, ◌<◌, ◌+◌, ◌++◌, List, ℕ, [], take, length, slice_set};
ghost use Rattle.texts.specs.declared.held.TheConstants.{BUFFERED};

use std::marker::Model;

/// The most bytes that are held at a time.
pub const BUFFERED: usize = 4096;

/// Bytes that haven't been put yet. A contract sees their list.
#[derive(Drop)]
pub struct Held {
    bytes: [u8; BUFFERED],
    len: usize,
}

impl Model for Held {
    ghost Value = { List ℕ };

    ghost view = { λ h. take h.len h.bytes };

    ghost invariant = { λ h. h.len ≤ BUFFERED };
}

fn zeros() -> [u8; BUFFERED]
    ensures { length result ≡ BUFFERED }
{
    [0; BUFFERED]
}

impl Held {
    /// No bytes.
    pub fn new() -> Held
        ensures { result ≡ [] }
    {
        Held {
            bytes: zeros(),
            len: 0,
        }
    }

    /// The number of bytes for which there still is room.
    #[inline(always)]
    pub fn room(&self) -> usize
        ensures { result + length self.now ≡ BUFFERED }
    {
        BUFFERED - self.len
    }

    /// The bytes.
    #[inline(always)]
    pub fn as_bytes(&self) -> &[u8]
        ensures { result.now ≡ self.now }
    {
        &self.bytes[..self.len]
    }

    /// Drops all bytes.
    pub fn clear(&mut self)
        ensures { self.new ≡ [] }
    {
        self.len = 0;
    }

    /// Adds the piece, for which there is room.
    #[inline(always)]
    pub fn push(&mut self, piece: &[u8])
        requires { length self.old + length piece.now ≤ BUFFERED }
        ensures { self.new ≡ self.old ++ piece.now }
    {
        let end = self.len + piece.len();
        self.bytes[self.len..end].copy_from_slice(piece);
        self.len = end;
    }

    /// Adds the piece, with the byte at this place of it replaced.
    #[inline(always)]
    pub fn push_with(&mut self, piece: &[u8], place: usize, byte: u8)
        requires room { length self.old + length piece.now ≤ BUFFERED }
        requires place { place < length piece.now }
        ensures { self.new ≡ self.old ++ slice_set piece.now place byte }
    {
        let changed = self.len + place;
        self.push(piece);
        self.bytes[changed] = byte;
    }
}
