//! Texts that are being written: pieces are held in a buffer, which is put when it is full.
ghost use Rattle.std.specs.Prelude.{◌≡◌, ◌≤◌, ◌<◌, ◌+◌, ◌++◌, [], length, slice_set, decimal};
ghost use Rattle.texts.specs.declared.held.TheConstants.{BUFFERED};
ghost use Rattle.std.specs.List.{flat_map};
ghost use Rattle.texts.specs.Writing.{Wrote, Adds};

use crate::held::{BUFFERED, Held};
use crate::out::{Out, OutFault};
use itoa::Buffer;
use thiserror::Error;

/// Why a text was not written.
#[derive(Clone, Copy, Debug, PartialEq, Eq, Error)]
pub enum WriteError {
    /// F24: the output failed. A beginning of the text was written.
    #[error("the text could not be written: {0}")]
    Put(#[from] OutFault),
}

/// A text that is being written to an [`Out`], which it borrows until it is dropped. It takes no memory. Pieces are
/// held until the next one doesn't fit, or until `finish`, and are put then. So a text of many short pieces takes few
/// puts. After an error nothing is held, so nothing more of the text can be put.
#[derive(Drop)]
pub struct TextBuffer<'a, W> {
    out: &'a mut W,
    held: Held,
}

/// Puts all of the bytes, in as many calls as needed.
fn put_all<W: Out>(out: &mut W, bytes: &[u8]) -> Result<(), WriteError>
    ensures { Wrote W.sink out.old out.new result bytes.now }
{
    let mut rest = bytes;
    while !rest.is_empty() {
        let taken = out.put(rest)?;
        rest = &rest[taken..];
    }
    Ok(())
}

impl<'a, W: Out> TextBuffer<'a, W> {
    /// A text of which nothing has been written yet.
    pub fn new(out: &'a mut W) -> TextBuffer<'a, W>
        ensures out { (result.out.ghost_name ≡ out.entry.ghost_name) × (result.out.now ≡ out.old) }
        ensures empty { result.held ≡ [] }
    {
        TextBuffer {
            out,
            held: Held::new(),
        }
    }

    /// Adds the piece to the text.
    pub fn add(&mut self, piece: &[u8]) -> Result<(), WriteError>
        ensures { Adds W.sink self.old self.new result piece.now }
    {
        if piece.len() <= self.held.room() {
            self.held.push(piece);
            return Ok(());
        }
        self.finish()?;
        if piece.len() <= BUFFERED {
            self.held.push(piece);
            return Ok(());
        }
        put_all(self.out, piece)
    }

    /// Adds the piece to the text, with the byte at this place of it replaced.
    #[inline(always)]
    pub fn add_with(&mut self, piece: &[u8], place: usize, byte: u8) -> Result<(), WriteError>
        requires place { place < length piece.now }
        requires short { length piece.now ≤ BUFFERED }
        ensures { Adds W.sink self.old self.new result (slice_set piece.now place byte) }
    {
        if piece.len() > self.held.room() {
            self.finish()?;
        }
        self.held.push_with(piece, place, byte);
        Ok(())
    }

    #[tactic(auto, using(crate::proofs::Writes::joining))]
    fn add_one_by_one(
        &mut self,
        first: &[u8],
        second: &[u8],
        third: &[u8],
    ) -> Result<(), WriteError>
        ensures { Adds W.sink self.old self.new result (first.now ++ (second.now ++ third.now)) }
    {
        self.add(first)?;
        self.add(second)?;
        self.add(third)
    }

    /// Adds three pieces to the text, in order. Mostly this takes only one check of the room.
    pub fn add_three(&mut self, first: &[u8], second: &[u8], third: &[u8]) -> Result<(), WriteError>
        ensures { Adds W.sink self.old self.new result (first.now ++ (second.now ++ third.now)) }
    {
        let room = self.held.room();
        if first.len() <= room
            && second.len() <= room - first.len()
            && third.len() <= room - first.len() - second.len()
        {
            self.held.push(first);
            self.held.push(second);
            self.held.push(third);
            return Ok(());
        }
        self.add_one_by_one(first, second, third)
    }

    /// Adds five short pieces to the text, in order, with one check of the room.
    #[inline(always)]
    pub fn add_five(
        &mut self,
        first: &[u8],
        second: &[u8],
        third: &[u8],
        fourth: &[u8],
        fifth: &[u8],
    ) -> Result<(), WriteError>
        requires short { length first.now + length second.now + length third.now + length fourth.now
            + length fifth.now ≤ BUFFERED }
        ensures { Adds W.sink self.old self.new result
            (first.now ++ (second.now ++ (third.now ++ (fourth.now ++ fifth.now)))) }
    {
        let length = first.len() + second.len() + third.len() + fourth.len() + fifth.len();
        if length > self.held.room() {
            self.finish()?;
        }
        self.held.push(first);
        self.held.push(second);
        self.held.push(third);
        self.held.push(fourth);
        self.held.push(fifth);
        Ok(())
    }

    /// Adds the pieces to the text, in order.
    pub fn add_all(&mut self, pieces: &[&[u8]]) -> Result<(), WriteError>
        ensures { Adds W.sink self.old self.new result (flat_map (λ p. p.now) pieces.now) }
    {
        for piece in pieces {
            self.add(piece)?;
        }
        Ok(())
    }

    /// Adds the number to the text, in decimal.
    pub fn add_number(&mut self, number: u64) -> Result<(), WriteError>
        ensures { Adds W.sink self.old self.new result (decimal number) }
    {
        let mut buffer = Buffer::new();
        self.add(buffer.format(number).as_bytes())
    }

    /// Puts all bytes that are held.
    pub fn finish(&mut self) -> Result<(), WriteError>
        ensures wrote { Wrote W.sink self.old.out.now self.new.out.now result self.old.held }
        ensures empty { self.new.held ≡ [] }
        ensures same_out { self.new.out.ghost_name ≡ self.old.out.ghost_name }
    {
        let put = put_all(self.out, self.held.as_bytes());
        self.held.clear();
        put
    }
}
