//! Charts: options, entities and rows of arcs.
ghost use Rattle.std.specs.Prelude.{◌≡◌, ◌<◌, length, map, bytes_eq, codes, IfOk};
ghost use Rattle.diagram_mscgen.specs.Grammar.Arcs.{arc_view};
ghost use Rattle.diagram_mscgen.specs.Grammar.Charts.{entity_view, msc_view, option_in, is_given, options_at, options_in, entities_in, arcs_in};
ghost use Rattle.diagram_mscgen.specs.Grammar.Charts.{is_last, body_in, head_in, end_of, msc_in};
ghost use Rattle.diagram_mscgen.specs.Grammar.Reading.{Sees};
ghost use Rattle.diagram_mscgen.specs.Grammar.Stops.{Gives};
ghost use Rattle.diagram_mscgen.specs.Grammar.Tokens.{seen};

use crate::grammar::arc::{Arc, arc_in};
use crate::grammar::entity::{Entity, entity_in};
use crate::grammar::reading::{Left, behind_mark, end_in, is_mark, name_in, next_word, skip_mark};
use crate::grammar::stop::Stop;
use crate::grammar::token::Token;
use crate::grammar::words::is_option;
use std::alloc::Global;

/// The chart of a text.
#[derive(Debug, Drop)]
pub struct Msc<'a> {
    /// The entities, in the order of the text.
    pub entities: Vec<Entity<'a>>,
    /// The arcs, row by row.
    pub arcs: Vec<Arc<'a>>,
}

/// Whether an option is the last one, and the tokens after it.
#[tactic(auto, unfolding(crate::specs::Grammar::Charts::option_in))]
fn option_in<'t, 'a>(tokens: &'t [Token<'a>]) -> Result<(bool, &'t [Token<'a>]), &'t [Token<'a>]>
    ensures option { Sees (λ next. (next.0, map seen next.1.now)) result (option_in (map seen tokens.now)) }
    ensures shorter { IfOk result (λ next. length next.1.now < length tokens.now) }
{
    let Some((word, rest)) = next_word(tokens) else {
        return Err(tokens);
    };
    if !is_option(word) {
        return Err(tokens);
    }
    let rest = behind_mark(b'=', rest)?;
    let (_, rest) = name_in(rest)?;
    end_in(rest)
}

/// Whether the second token is `=`.
fn is_given(tokens: &[Token]) -> bool
    ensures { result ≡ is_given (map seen tokens.now) }
{
    match tokens {
        [_, second, ..] => is_mark(b'=', second.kind),
        _ => false,
    }
}

/// The tokens after the options, the first of which begins here.
fn options_at<'t, 'a>(tokens: &'t [Token<'a>]) -> Result<&'t [Token<'a>], &'t [Token<'a>]>
    ensures { Sees (λ rest. map seen rest.now) result (options_at (map seen tokens.now)) }
{
    let mut left = Left { tokens };
    'options: loop {
        let (is_last, behind) = option_in(left.tokens)?;
        if is_last {
            return Ok(behind);
        }
        left = Left { tokens: behind };
    }
}

/// The tokens after the options, if there are any.
#[tactic(auto, unfolding(crate::specs::Grammar::Charts::options_in))]
fn options_in<'t, 'a>(tokens: &'t [Token<'a>]) -> Result<&'t [Token<'a>], &'t [Token<'a>]>
    ensures { Sees (λ rest. map seen rest.now) result (options_in (map seen tokens.now)) }
{
    if is_given(tokens) {
        options_at(tokens)
    } else {
        Ok(tokens)
    }
}

/// The entities, and the tokens after them.
fn entities_in<'t, 'a>(
    alloc: Global,
    tokens: &'t [Token<'a>],
) -> Result<(Vec<Entity<'a>>, &'t [Token<'a>]), Stop<'t, 'a>>
    ensures { Gives (λ all. (map entity_view all.0.items, map seen all.1.now)) result
        (entities_in (map seen tokens.now)) }
{
    let mut entities = Vec::new(alloc);
    let mut left = Left { tokens };
    'entities: loop {
        let (entity, is_last, behind) = match entity_in(left.tokens) {
            Ok(next) => next,
            Err(stop) => return Err(Stop::At(stop)),
        };
        entities.push(entity)?;
        if is_last {
            return Ok((entities, behind));
        }
        left = Left { tokens: behind };
    }
}

/// Whether an arc with this end is the last one.
fn is_last(ends_row: bool, rest: &[Token]) -> bool
    ensures { result ≡ is_last ends_row (map seen rest.now) }
{
    match skip_mark(b'}', rest) {
        Some(_) => ends_row,
        None => false,
    }
}

/// The arcs up to the brace, and the tokens from the brace on.
fn arcs_in<'t, 'a>(
    alloc: Global,
    tokens: &'t [Token<'a>],
) -> Result<(Vec<Arc<'a>>, &'t [Token<'a>]), Stop<'t, 'a>>
    ensures { Gives (λ all. (map arc_view all.0.items, map seen all.1.now)) result (arcs_in (map seen tokens.now)) }
{
    let mut arcs = Vec::new(alloc);
    let mut left = Left { tokens };
    'arcs: loop {
        let (arc, behind) = match arc_in(left.tokens) {
            Ok(next) => next,
            Err(stop) => return Err(Stop::At(stop)),
        };
        let ends = is_last(arc.ends_row, behind);
        arcs.push(arc)?;
        if ends {
            return Ok((arcs, behind));
        }
        left = Left { tokens: behind };
    }
}

fn is_msc(word: &[u8]) -> bool
    ensures { result ≡ bytes_eq word.now (codes "msc") }
{
    word == b"msc".as_slice()
}

/// The tokens after `msc {`.
#[tactic(auto, unfolding(crate::specs::Grammar::Charts::body_in))]
fn body_in<'t, 'a>(tokens: &'t [Token<'a>]) -> Result<&'t [Token<'a>], &'t [Token<'a>]>
    ensures { Sees (λ rest. map seen rest.now) result (body_in (map seen tokens.now)) }
{
    match next_word(tokens) {
        Some((word, rest)) if is_msc(word) => behind_mark(b'{', rest),
        _ => Err(tokens),
    }
}

/// Checks that nothing follows the brace that ends a chart.
#[tactic(auto, unfolding(crate::specs::Grammar::Charts::end_of))]
fn end_of<'t, 'a>(tokens: &'t [Token<'a>]) -> Result<(), &'t [Token<'a>]>
    ensures { Sees (λ _. tt) result (end_of (map seen tokens.now)) }
{
    let rest = behind_mark(b'}', tokens)?;
    if rest.is_empty() { Ok(()) } else { Err(rest) }
}

/// The tokens after `msc {` and the options.
#[tactic(auto, unfolding(crate::specs::Grammar::Charts::head_in))]
fn head_in<'t, 'a>(tokens: &'t [Token<'a>]) -> Result<&'t [Token<'a>], &'t [Token<'a>]>
    ensures { Sees (λ rest. map seen rest.now) result (head_in (map seen tokens.now)) }
{
    options_in(body_in(tokens)?)
}

/// The chart of all these tokens.
#[tactic(auto, unfolding(crate::specs::Grammar::Charts::msc_in))]
pub(crate) fn msc_in<'t, 'a>(
    alloc: Global,
    tokens: &'t [Token<'a>],
) -> Result<Msc<'a>, Stop<'t, 'a>>
    ensures { Gives msc_view result (msc_in (map seen tokens.now)) }
{
    let head = match head_in(tokens) {
        Ok(head) => head,
        Err(stop) => return Err(Stop::At(stop)),
    };
    let (entities, rest) = entities_in(alloc, head)?;
    let (arcs, rest) = arcs_in(alloc, rest)?;
    match end_of(rest) {
        Ok(()) => Ok(Msc { entities, arcs }),
        Err(stop) => Err(Stop::At(stop)),
    }
}
