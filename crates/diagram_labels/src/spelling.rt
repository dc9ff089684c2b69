//! The spellings of labels.

ghost use Rattle.std.specs.Prelude.{◌≡◌, not, IfOk};
ghost use Rattle.chart.specs.Names.{is_name_byte};
ghost use Rattle.chart.specs.Keywords.{is_reserved};
ghost use Rattle.diagram_labels.specs.Spelling.{joined, begins_with_letter, IsWord, fronted, unreserved, shortened, spelled};

use chart::{MAX_NAME, Name, NameError};
use std::alloc::{AllocError, Global};

/// Whether no name may have the byte.
fn is_other(byte: u8) -> bool
    ensures { result ≡ not (is_name_byte byte) }
{
    !(byte.is_ascii_alphanumeric() || byte == b'_')
}

/// The label's words, with `_` between each two.
fn joined(alloc: Global, label: &[u8]) -> Result<Vec<u8>, AllocError>
    ensures { IfOk result (λ v. v.items ≡ joined label.now) }
{
    let mut joined = Vec::new(alloc);
    for word in label.split(|b| is_other(*b)) {
        if word.is_empty() {
            continue;
        }
        if !joined.is_empty() {
            joined.push(b'_')?;
        }
        joined.extend_from_slice(word)?;
    }
    Ok(joined)
}

/// Whether the bytes begin with a letter.
fn begins_with_letter(bytes: &[u8]) -> bool
    ensures { result ≡ begins_with_letter bytes.now }
{
    match bytes {
        [first, ..] => first.is_ascii_alphabetic(),
        [] => false,
    }
}

/// The bytes, with `n_` before them unless they begin with a letter.
#[tactic(auto, unfolding(crate::specs::Spelling::fronted))]
fn fronted(alloc: Global, bytes: Vec<u8>) -> Result<Vec<u8>, AllocError>
    ensures { IfOk result (λ v. v.items ≡ fronted bytes.items) }
{
    if begins_with_letter(bytes.as_slice()) {
        return Ok(bytes);
    }
    let mut fronted = Vec::from_slice(alloc, b"n_")?;
    fronted.extend_from_slice(bytes.as_slice())?;
    Ok(fronted)
}

/// Whether the word is reserved.
fn is_reserved(word: &[u8]) -> bool
    requires { IsWord word.now }
    ensures { result ≡ is_reserved word.now }
{
    match Name::new(word) {
        Err(NameError::Reserved) => true,
        _ => false,
    }
}

/// The bytes, with `_` after them if they are a reserved word.
#[tactic(auto, unfolding(crate::specs::Spelling::unreserved))]
fn unreserved(mut bytes: Vec<u8>) -> Result<Vec<u8>, AllocError>
    requires { IsWord bytes.items }
    ensures { IfOk result (λ v. v.items ≡ unreserved bytes.items) }
{
    if is_reserved(bytes.as_slice()) {
        bytes.push(b'_')?;
    }
    Ok(bytes)
}

/// The bytes or, if they are too many for a name, their beginning and their end.
#[tactic(auto, unfolding(crate::specs::Spelling::shortened))]
fn shortened(alloc: Global, bytes: Vec<u8>) -> Result<Vec<u8>, AllocError>
    ensures { IfOk result (λ v. v.items ≡ shortened bytes.items) }
{
    if bytes.len() <= MAX_NAME {
        return Ok(bytes);
    }
    let mut shortened = Vec::from_slice(alloc, &bytes[..15])?;
    shortened.extend_from_slice(b"__")?;
    shortened.extend_from_slice(&bytes[bytes.len() - 15..])?;
    Ok(shortened)
}

/// The spelling of a label: the name that is made from it. It fails only if memory runs out.
pub fn spelled(alloc: Global, label: &[u8]) -> Result<Name, AllocError>
    ensures { IfOk result (λ name. name ≡ spelled label.now) }
{
    let joined = joined(alloc, label)?;
    let unreserved = unreserved(fronted(alloc, joined)?)?;
    let bytes = shortened(alloc, unreserved)?;
    Ok(Name::new(bytes.as_slice()).unwrap())
}
