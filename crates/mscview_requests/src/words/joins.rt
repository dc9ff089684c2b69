//! The values of `--join`.
ghost use Rattle.std.specs.Prelude.{◌≡◌, map, IfOk};
ghost use Rattle.diagram_join.specs.Joins.{join_view};
ghost use Rattle.mscview_requests.specs.Words.Joins.{IsName, AreNames, IsJoin, join_word_view};
ghost use Rattle.mscview_requests.specs.Words.Words.{AreRead, Says, Reads};

use crate::words::parts::{comma_parts, round_equals};
use chart::Name;
use cmd_base::ProgramError;
use diagram_join::Join;
use std::alloc::{AllocError, AllocFailed, Global};

/// The value of `--join`: the name of an instance, and the names of its lines.
#[derive(Drop)]
pub struct JoinWord {
    pub name: Name,
    pub parts: Vec<Name>,
}

/// The name in a word. G1: the word isn't a name.
fn name_by(word: &[u8]) -> Result<Name, ProgramError>
    ensures { Says (IsName word.now) result }
{
    match Name::new(word) {
        Ok(name) => Ok(name),
        Err(_) => Err(ProgramError::Usage),
    }
}

/// The names in these words. G1: a word isn't a name.
fn names_in(alloc: Global, words: &[&[u8]]) -> Result<Vec<Name>, ProgramError>
    ensures { Reads result (λ names. names.items) (AreRead IsName (map (λ w. w.now) words.now)) }
{
    let mut names = Vec::new(alloc);
    for word in words {
        let name = name_by(*word)?;
        match names.push(name) {
            Ok(()) => {}
            Err(AllocFailed { .. }) => return Err(ProgramError::Memory),
        }
    }
    Ok(names)
}

/// The names in a word, which commas join. G1: a part isn't a name.
fn names_by(alloc: Global, word: &[u8]) -> Result<Vec<Name>, ProgramError>
    ensures { Reads result (λ names. names.items) (AreNames word.now) }
{
    match comma_parts(alloc, word) {
        Ok(words) => names_in(alloc, words.as_slice()),
        Err(AllocError) => Err(ProgramError::Memory),
    }
}

/// The join in a word. G1: the word isn't `NAME=NAME,NAME..`.
fn join_by(alloc: Global, word: &[u8]) -> Result<JoinWord, ProgramError>
    ensures { Reads result join_word_view (IsJoin word.now) }
{
    let Some((name, parts)) = round_equals(word) else {
        return Err(ProgramError::Usage);
    };
    Ok(JoinWord {
        name: name_by(name)?,
        parts: names_by(alloc, parts)?,
    })
}

/// The values of all `--join` options. G1: one of them isn't `NAME=NAME,NAME..`.
pub fn join_words(alloc: Global, words: &[&str]) -> Result<Vec<JoinWord>, ProgramError>
    ensures { Reads result (λ joins. map join_word_view joins.items) (AreRead IsJoin (map (λ w. w.now) words.now)) }
{
    let mut joins = Vec::new(alloc);
    for word in words {
        let join = join_by(alloc, word.as_bytes())?;
        match joins.push(join) {
            Ok(()) => {}
            Err(AllocFailed { .. }) => return Err(ProgramError::Memory),
        }
    }
    Ok(joins)
}

/// A join, as the option of an import.
fn join_of<'a>(word: &'a JoinWord) -> Join<'a>
    ensures { join_view result ≡ join_word_view word.now }
{
    Join {
        name: word.name,
        parts: word.parts.as_slice(),
    }
}

/// The joins, as the options of an import.
pub fn joins_of<'a>(alloc: Global, words: &'a [JoinWord]) -> Result<Vec<Join<'a>>, AllocError>
    ensures { IfOk result (λ joins. map join_view joins.items ≡ map join_word_view words.now) }
{
    words.iter().map(|word| join_of(word)).collect(alloc)
}
