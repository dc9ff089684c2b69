//! Breaks texts: some of their bytes, words or lines are changed, cut off, removed, doubled or swapped.
ghost use Rattle.std.specs.Prelude.{◌<◌};

use rand_core::utils::NextWord;
use rand_pcg::Lcg64Xsh32;
use std::alloc::{AllocError, Global};

/// The pieces of a text.
#[derive(Clone, Copy)]
enum Unit {
    Bytes,
    /// Runs of letters and digits; each other byte is a piece of its own.
    Words,
    /// Lines with their line feeds.
    Lines,
}

/// Draws a random number below the bound.
pub fn below(generator: &mut Lcg64Xsh32, bound: usize) -> usize
    requires { 0 < bound }
    ensures { result < bound }
{
    generator.next_word() as usize % bound
}

fn random_unit(generator: &mut Lcg64Xsh32) -> Unit {
    match below(generator, 3) {
        0 => Unit::Bytes,
        1 => Unit::Words,
        _ => Unit::Lines,
    }
}

/// Whether a byte and the next one belong to one piece.
fn are_together(unit: Unit, first: u8, second: u8) -> bool {
    match unit {
        Unit::Bytes => false,
        Unit::Words => first.is_ascii_alphanumeric() && second.is_ascii_alphanumeric(),
        Unit::Lines => first != b'\n',
    }
}

/// The pieces of the text.
fn pieces_of<'a>(alloc: Global, text: &'a [u8], unit: Unit) -> Result<Vec<&'a [u8]>, AllocError> {
    text.chunk_by(|first, second| are_together(unit, *first, *second))
        .collect(alloc)
}

fn joined(alloc: Global, pieces: &[&[u8]]) -> Result<Vec<u8>, AllocError> {
    let mut text = Vec::new(alloc);
    for piece in pieces {
        text.extend_from_slice(piece)?;
    }
    Ok(text)
}

/// Makes one change to the pieces, if there are any.
fn break_pieces<'a>(
    generator: &mut Lcg64Xsh32,
    pieces: &mut Vec<&'a [u8]>,
    strange: &'a [u8],
) -> Result<(), AllocError> {
    let count = pieces.len();
    if count > 0 {
        let place = below(generator, count);
        let other = below(generator, count);
        match below(generator, 6) {
            0 => pieces.truncate(place),
            1 => {
                pieces.remove(place);
            }
            2 => pieces.insert(place, pieces[place])?,
            3 => pieces.swap(place, other),
            4 => pieces[place] = pieces[other],
            _ => pieces[place] = strange,
        }
    }
    Ok(())
}

fn broken_once(
    alloc: Global,
    generator: &mut Lcg64Xsh32,
    text: &[u8],
) -> Result<Vec<u8>, AllocError> {
    let strange = [below(generator, 256) as u8];
    let unit = random_unit(generator);
    let mut pieces = pieces_of(alloc, text, unit)?;
    break_pieces(generator, &mut pieces, &strange)?;
    joined(alloc, pieces.as_slice())
}

/// The text, broken once, twice or three times.
pub fn broken(
    alloc: Global,
    generator: &mut Lcg64Xsh32,
    text: &[u8],
) -> Result<Vec<u8>, AllocError> {
    let mut broken = broken_once(alloc, generator, text)?;
    for _ in 0..below(generator, 3) {
        broken = broken_once(alloc, generator, broken.as_slice())?;
    }
    Ok(broken)
}
