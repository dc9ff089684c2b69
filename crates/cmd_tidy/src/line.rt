//! Lines as people type them.
ghost use Rattle.std.specs.Prelude.{◌≡◌, map, ◌++◌, IfOk, OnOk};
ghost use Rattle.std.specs.List.{flat_map};
ghost use Rattle.cmd_tidy.specs.Typing.{comment_place, has_comment, uncommented, typed_words, has_word, written_out, behind_space, line_of};

use std::alloc::{AllocError, Global};
use texts::bytes::is_blank;

/// The place of the line's comment, if it has one.
fn comment_place(line: &[u8]) -> Option<usize>
    ensures { result ≡ comment_place line.now }
{
    line.iter().position(|byte| *byte == b'#')
}

/// Whether the line has a comment.
#[tactic(auto, unfolding(crate::specs::Typing::has_comment))]
pub(crate) fn has_comment(line: &[u8]) -> bool
    ensures { result ≡ has_comment line.now }
{
    comment_place(line).is_some()
}

/// The line before its comment, or the whole line without one.
fn uncommented(line: &[u8]) -> &[u8]
    ensures { result.now ≡ uncommented line.now }
{
    match comment_place(line) {
        None => line,
        Some(place) => &line[..place],
    }
}

/// The words of a typed line.
pub(crate) fn typed_words(alloc: Global, line: &[u8]) -> Result<Vec<&[u8]>, AllocError>
    ensures { IfOk result (λ v. map (λ w. w.now) v.items ≡ typed_words line.now) }
{
    let mut words = Vec::new(alloc);
    for word in uncommented(line).split(|byte| is_blank(*byte)) {
        if !word.is_empty() {
            words.push(word)?;
        }
    }
    Ok(words)
}

/// Whether a line with these words has one.
#[tactic(auto, unfolding(crate::specs::Typing::has_word))]
pub(crate) fn has_word(words: &[&[u8]], line: &[u8]) -> bool
    requires { map (λ w. w.now) words.now ≡ typed_words line.now }
    ensures { result ≡ has_word line.now }
{
    !words.is_empty()
}

/// The words with a short form written out: `a -> b m` is `a send b m`, and `b <- a` is `b receive a`.
#[tactic(auto, unfolding(crate::specs::Typing::written_out))]
pub(crate) fn write_out(words: &mut [&[u8]])
    ensures { map (λ w. w.now) words.new ≡ written_out (map (λ w. w.now) words.old) }
{
    match words {
        [_, word, _] => {
            if *word == b"<-".as_slice() {
                *word = b"receive";
            }
        }
        [_, word, _, _] => {
            if *word == b"->".as_slice() {
                *word = b"send";
            }
        }
        _ => {}
    }
}

/// Adds each of the words after a space.
fn add_behind(text: &mut Vec<u8>, words: &[&[u8]]) -> Result<(), AllocError>
    ensures { OnOk result (text.new.items ≡ text.old.items ++ flat_map behind_space (map (λ w. w.now) words.now)) }
{
    for word in words {
        text.push(b' ')?;
        text.extend_from_slice(word)?;
    }
    Ok(())
}

/// Adds a line of these words, if there is one.
pub(crate) fn add_line(text: &mut Vec<u8>, words: &[&[u8]]) -> Result<(), AllocError>
    ensures { OnOk result (text.new.items ≡ text.old.items ++ line_of (map (λ w. w.now) words.now)) }
{
    if let [first, others @ ..] = words {
        text.extend_from_slice(first)?;
        add_behind(text, others)?;
        text.push(b'\n')?;
    }
    Ok(())
}
