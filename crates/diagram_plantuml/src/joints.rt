//! Lines that continue: a line that ends in a single `\` continues in the next one.
ghost use Rattle.std.specs.Prelude.{◌≡◌, ◌≤◌, ◌<◌, ◌+◌, ◌^◌, ◌++◌, length, suc, IfOk, IfSome};
ghost use Rattle.texts.specs.Words.{Finds};
ghost use Rattle.diagram_plantuml.specs.Joints.{line_in, without_return, piece_of, line_feeds, added, joined_text, at, place_in};

use diagram_statements::{Place, behind_line, line_length};
use std::alloc::{AllocError, Global};

/// The first line of a text.
fn line_in(text: &[u8]) -> &[u8]
    ensures value { result.now ≡ line_in text.now }
    ensures within { length result.now ≤ length text.now }
{
    &text[..line_length(text)]
}

/// A line without the carriage return before its line feed.
#[tactic(auto, unfolding(crate::specs::Joints::without_return))]
fn without_return(line: &[u8]) -> &[u8]
    ensures value { result.now ≡ without_return line.now }
    ensures within { length result.now ≤ length line.now }
{
    if line.ends_with(b"\r") {
        &line[..line.len() - 1]
    } else {
        line
    }
}

/// A line that continues in the next one, without its sign.
#[tactic(auto, unfolding(crate::specs::Joints::piece_of))]
fn piece_of(line: &[u8]) -> Option<&[u8]>
    ensures { Finds (λ piece. piece.now) result (piece_of line.now) }
{
    let bare = without_return(line);
    if bare.ends_with(b"\\") && !bare.ends_with(b"\\\\") {
        Some(&bare[..bare.len() - 1])
    } else {
        None
    }
}

/// Adds this number of line feeds.
#[tactic(auto, using(crate::proofs::JointLoops::one_more_feed))]
fn add_line_feeds(bytes: &mut Vec<u8>, count: usize) -> Result<(), AllocError>
    ensures { IfOk result (λ _. bytes.new.items ≡ bytes.old.items ++ line_feeds count) }
{
    for line in 0..count {
        let _ = line;
        bytes.push(b'\n')?;
    }
    Ok(())
}

/// Adds a line, in which `joints` lines above continue. Returns how many continue in the next one.
#[tactic(auto, unfolding(crate::specs::Joints::added))]
fn add_line(bytes: &mut Vec<u8>, line: &[u8], joints: usize) -> Result<usize, AllocError>
    requires { joints + 1 < 2 ^ 64 }
    ensures bytes { IfOk result (λ _. bytes.new.items ≡ bytes.old.items ++ (added joints line.now).0) }
    ensures joints { IfOk result (λ next. next ≡ (added joints line.now).1) }
    ensures room { IfOk result (λ next. next ≤ joints + 1) }
{
    match piece_of(line) {
        Some(piece) => {
            bytes.extend_from_slice(piece)?;
            Ok(joints + 1)
        }
        None => {
            bytes.extend_from_slice(line)?;
            add_line_feeds(bytes, joints + 1)?;
            Ok(0)
        }
    }
}

/// The text with its lines joined, for [`read`](crate::read). After a joined line there is an empty line for each line
/// that continues it.
#[tactic(auto, unfolding(crate::specs::Joints::joined_text))]
pub fn joined_text(alloc: Global, text: &[u8]) -> Result<Vec<u8>, AllocError>
    ensures { IfOk result (λ joined. joined.items ≡ joined_text text.now) }
{
    let mut joined = Vec::new(alloc);
    let mut joints = 0;
    let mut rest = text;
    'lines: while let [_, ..] = rest {
        joints = add_line(&mut joined, line_in(rest), joints)?;
        rest = behind_line(rest);
    }
    add_line_feeds(&mut joined, joints)?;
    Ok(joined)
}

/// The place in the source of the byte in this column of a joined line. `source` is the source from the line's
/// beginning on.
pub(crate) fn place_in(source: &[u8], number: u64, column: u64) -> Place
    requires { number + length source.now < 2 ^ 64 }
    ensures { result ≡ place_in source.now number column }
{
    let mut line = number;
    let mut before = column.saturating_sub(1);
    let mut rest = source;
    'lines: while let [_, ..] = rest {
        let Some(piece) = piece_of(line_in(rest)) else {
            return at(line, before);
        };
        let length = piece.len() as u64;
        if before < length {
            return at(line, before);
        }
        line += 1;
        before -= length;
        rest = behind_line(rest);
    }
    at(line, before)
}

fn at(line: u64, before: u64) -> Place
    requires { before + 1 < 2 ^ 64 }
    ensures { result ≡ at line before }
{
    Place {
        line,
        column: before + 1,
    }
}
