//! Marks, names and words that are required or optional.
ghost use Rattle.std.specs.Prelude.{◌≡◌, ◌<◌, length, map, option_map, IfOk, IfSome, Some, None};
ghost use Rattle.diagram_mscgen.specs.Grammar.Reading.{Sees, Finds, is_mark, skip_mark, behind_mark, name_of, name_in, word_of};
ghost use Rattle.diagram_mscgen.specs.Grammar.Reading.{next_word, is_spacer, skip_spacer, end_in};
ghost use Rattle.diagram_mscgen.specs.Grammar.Tokens.{seen, kind_view};

use crate::grammar::token::{Kind, Token};

/// The tokens that are left to read.
#[derive(Clone, Copy, Debug)]
pub(crate) struct Left<'t, 'a> {
    pub tokens: &'t [Token<'a>],
}

pub(crate) fn is_mark(mark: u8, kind: Kind) -> bool
    ensures { result ≡ is_mark mark (kind_view kind.entry) }
{
    match kind {
        Kind::Mark(byte) => byte == mark,
        Kind::Word(_) | Kind::Text(_) | Kind::Sign(_) | Kind::Spacer | Kind::Unknown => false,
    }
}

/// The tokens after this mark, if it comes next.
#[tactic(auto, unfolding(crate::specs::Grammar::Reading::skip_mark))]
pub(crate) fn skip_mark<'t, 'a>(mark: u8, tokens: &'t [Token<'a>]) -> Option<&'t [Token<'a>]>
    ensures rest { Finds (λ rest. map seen rest.now) result (skip_mark mark (map seen tokens.now)) }
    ensures shorter { IfSome result (λ rest. length rest.now < length tokens.now) }
{
    let [token, rest @ ..] = tokens else {
        return None;
    };
    if is_mark(mark, token.kind) {
        Some(rest)
    } else {
        None
    }
}

/// The tokens after this mark, which has to come next.
#[tactic(auto, unfolding(crate::specs::Grammar::Reading::behind_mark))]
pub(crate) fn behind_mark<'t, 'a>(
    mark: u8,
    tokens: &'t [Token<'a>],
) -> Result<&'t [Token<'a>], &'t [Token<'a>]>
    ensures rest { Sees (λ rest. map seen rest.now) result (behind_mark mark (map seen tokens.now)) }
    ensures shorter { IfOk result (λ rest. length rest.now < length tokens.now) }
{
    match skip_mark(mark, tokens) {
        Some(rest) => Ok(rest),
        None => Err(tokens),
    }
}

/// The name of a token, if it is a word or a text.
fn name_of<'a>(kind: Kind<'a>) -> Option<&'a [u8]>
    ensures { Finds (λ name. name.now) result (name_of (kind_view kind.entry)) }
{
    match kind {
        Kind::Word(bytes) | Kind::Text(bytes) => Some(bytes),
        Kind::Sign(_) | Kind::Spacer | Kind::Mark(_) | Kind::Unknown => None,
    }
}

/// The name that has to come next, and the tokens after it.
#[tactic(auto, unfolding(crate::specs::Grammar::Reading::name_in))]
pub(crate) fn name_in<'t, 'a>(
    tokens: &'t [Token<'a>],
) -> Result<(&'a [u8], &'t [Token<'a>]), &'t [Token<'a>]>
    ensures name { Sees (λ name. (name.0.now, map seen name.1.now)) result (name_in (map seen tokens.now)) }
    ensures shorter { IfOk result (λ name. length name.1.now < length tokens.now) }
{
    let [token, rest @ ..] = tokens else {
        return Err(tokens);
    };
    match name_of(token.kind) {
        Some(name) => Ok((name, rest)),
        None => Err(tokens),
    }
}

/// The word of a token, if it is one.
fn word_of<'a>(kind: Kind<'a>) -> Option<&'a [u8]>
    ensures { Finds (λ word. word.now) result (word_of (kind_view kind.entry)) }
{
    match kind {
        Kind::Word(bytes) => Some(bytes),
        Kind::Text(_) | Kind::Sign(_) | Kind::Spacer | Kind::Mark(_) | Kind::Unknown => None,
    }
}

/// The word that comes next, if there is one, and the tokens after it.
#[tactic(auto, unfolding(crate::specs::Grammar::Reading::next_word))]
pub(crate) fn next_word<'t, 'a>(tokens: &'t [Token<'a>]) -> Option<(&'a [u8], &'t [Token<'a>])>
    ensures word { Finds (λ word. (word.0.now, map seen word.1.now)) result (next_word (map seen tokens.now)) }
    ensures shorter { IfSome result (λ word. length word.1.now < length tokens.now) }
{
    let [token, rest @ ..] = tokens else {
        return None;
    };
    match word_of(token.kind) {
        Some(word) => Some((word, rest)),
        None => None,
    }
}

fn is_spacer(kind: Kind) -> bool
    ensures { result ≡ is_spacer (kind_view kind.entry) }
{
    match kind {
        Kind::Spacer => true,
        Kind::Word(_) | Kind::Text(_) | Kind::Sign(_) | Kind::Mark(_) | Kind::Unknown => false,
    }
}

/// The tokens after a row without an arc, if it comes next.
#[tactic(auto, unfolding(crate::specs::Grammar::Reading::skip_spacer))]
pub(crate) fn skip_spacer<'t, 'a>(tokens: &'t [Token<'a>]) -> Option<&'t [Token<'a>]>
    ensures rest { Finds (λ rest. map seen rest.now) result (skip_spacer (map seen tokens.now)) }
    ensures shorter { IfSome result (λ rest. length rest.now < length tokens.now) }
{
    let [token, rest @ ..] = tokens else {
        return None;
    };
    if is_spacer(token.kind) {
        Some(rest)
    } else {
        None
    }
}

/// Whether an item's end also ends the list, and the tokens after it. A comma doesn't end the list, and a semicolon
/// does.
#[tactic(auto, unfolding(crate::specs::Grammar::Reading::end_in))]
pub(crate) fn end_in<'t, 'a>(
    tokens: &'t [Token<'a>],
) -> Result<(bool, &'t [Token<'a>]), &'t [Token<'a>]>
    ensures end { Sees (λ end. (end.0, map seen end.1.now)) result (end_in (map seen tokens.now)) }
    ensures shorter { IfOk result (λ end. length end.1.now < length tokens.now) }
{
    if let Some(rest) = skip_mark(b',', tokens) {
        return Ok((false, rest));
    }
    let rest = behind_mark(b';', tokens)?;
    Ok((true, rest))
}
