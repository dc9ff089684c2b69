//! Arcs: the items of a row.
ghost use Rattle.std.specs.Prelude.{◌≡◌, ◌<◌, length, map, IfOk, [], Some, None};
ghost use Rattle.diagram_mscgen.specs.Grammar.Arcs.{ends_view, arc_view, ends_of, forth_to_all, back_to_all, relation_of};
ghost use Rattle.diagram_mscgen.specs.Grammar.Arcs.{relation_in, partner_in, pair_in, all_in, ends_in, arc_in};
ghost use Rattle.diagram_mscgen.specs.Grammar.Reading.{Sees};
ghost use Rattle.diagram_mscgen.specs.Grammar.Tokens.{seen, kind_view};

use crate::grammar::attributes::attributes_in;
use crate::grammar::reading::{end_in, name_in, skip_mark, skip_spacer};
use crate::grammar::relation::Relation;
use crate::grammar::token::{Kind, Token};
use crate::grammar::words::box_of;
use texts::bytes::Place;

/// The kind of an arc.
#[derive(Clone, Copy, Debug, PartialEq, Eq)]
pub enum ArcKind {
    /// A message from one entity to another, or to itself.
    Message,
    /// A message that is never received.
    Lost,
    /// A message to all other entities.
    Broadcast,
    /// A message to all other entities that is never received.
    LostBroadcast,
    /// An arrow with two heads.
    Both,
    /// A line without a head.
    Line,
    /// A box around two entities and those between them.
    Box,
    /// A note at two entities and those between them.
    Note,
    /// No arc: a divider, or time that passes.
    Spacer,
}

/// The kind of an arc, and the entities between which it goes.
#[derive(Clone, Copy, Debug)]
pub(crate) struct Ends<'a> {
    pub kind: ArcKind,
    pub from: &'a [u8],
    pub to: &'a [u8],
}

/// An arc with its attributes.
#[derive(Clone, Copy, Debug)]
pub struct Arc<'a> {
    pub kind: ArcKind,
    /// The word for the sender. If the arc is no message, it is the word before its sign. It is empty for a spacer.
    pub from: &'a [u8],
    /// The word for the receiver, or the word after the sign. It is empty for a broadcast or a spacer.
    pub to: &'a [u8],
    /// The label, as it is written between its quotation marks.
    pub label: Option<&'a [u8]>,
    /// How many rows further down it ends.
    pub skip: u32,
    /// Whether its row ends after it.
    pub ends_row: bool,
    /// Where it begins.
    pub place: Place,
}

/// An arc between the entity before a relation and the one after it.
fn ends_of<'a>(relation: Relation, first: &'a [u8], second: &'a [u8]) -> Ends<'a>
    ensures { ends_view result ≡ ends_of relation first.now second.now }
{
    let (kind, from, to) = match relation {
        Relation::To => (ArcKind::Message, first, second),
        Relation::From => (ArcKind::Message, second, first),
        Relation::LostTo => (ArcKind::Lost, first, second),
        Relation::LostFrom => (ArcKind::Lost, second, first),
        Relation::Both => (ArcKind::Both, first, second),
        Relation::Line => (ArcKind::Line, first, second),
        Relation::Box => (ArcKind::Box, first, second),
        Relation::Note => (ArcKind::Note, first, second),
    };
    Ends { kind, from, to }
}

/// An arc to `*`.
fn forth_to_all(relation: Relation) -> Option<ArcKind>
    ensures { result ≡ forth_to_all relation }
{
    match relation {
        Relation::To => Some(ArcKind::Broadcast),
        Relation::LostTo => Some(ArcKind::LostBroadcast),
        _ => None,
    }
}

/// An arc back to `*`.
fn back_to_all(relation: Relation) -> Option<ArcKind>
    ensures { result ≡ back_to_all relation }
{
    match relation {
        Relation::From => Some(ArcKind::Broadcast),
        Relation::LostFrom => Some(ArcKind::LostBroadcast),
        _ => None,
    }
}

/// The relation of a token, if it has one.
fn relation_of(kind: Kind) -> Option<Relation>
    ensures { result ≡ relation_of (kind_view kind.entry) }
{
    match kind {
        Kind::Sign(relation) => Some(relation),
        Kind::Word(word) => box_of(word),
        Kind::Text(_) | Kind::Spacer | Kind::Mark(_) | Kind::Unknown => None,
    }
}

/// The relation that has to come next, and the tokens after it.
#[tactic(auto, unfolding(crate::specs::Grammar::Arcs::relation_in))]
fn relation_in<'t, 'a>(
    tokens: &'t [Token<'a>],
) -> Result<(Relation, &'t [Token<'a>]), &'t [Token<'a>]>
    ensures relation { Sees (λ next. (next.0, map seen next.1.now)) result (relation_in (map seen tokens.now)) }
    ensures shorter { IfOk result (λ next. length next.1.now < length tokens.now) }
{
    let [token, rest @ ..] = tokens else {
        return Err(tokens);
    };
    match relation_of(token.kind) {
        Some(relation) => Ok((relation, rest)),
        None => Err(tokens),
    }
}

/// The rest of an arc after its first entity and its relation.
#[tactic(auto, unfolding(crate::specs::Grammar::Arcs::partner_in))]
fn partner_in<'t, 'a>(
    first: &'a [u8],
    relation: Relation,
    tokens: &'t [Token<'a>],
) -> Result<(Ends<'a>, &'t [Token<'a>]), &'t [Token<'a>]>
    ensures ends { Sees (λ next. (ends_view next.0, map seen next.1.now)) result
        (partner_in first.now relation (map seen tokens.now)) }
    ensures shorter { IfOk result (λ next. length next.1.now < length tokens.now) }
{
    match skip_mark(b'*', tokens) {
        None => {
            let (second, rest) = name_in(tokens)?;
            Ok((ends_of(relation, first, second), rest))
        }
        Some(rest) => match forth_to_all(relation) {
            Some(kind) => Ok((
                Ends {
                    kind,
                    from: first,
                    to: &[],
                },
                rest,
            )),
            None => Err(tokens),
        },
    }
}

/// An arc that begins with an entity.
#[tactic(auto, unfolding(crate::specs::Grammar::Arcs::pair_in))]
fn pair_in<'t, 'a>(tokens: &'t [Token<'a>]) -> Result<(Ends<'a>, &'t [Token<'a>]), &'t [Token<'a>]>
    ensures ends { Sees (λ next. (ends_view next.0, map seen next.1.now)) result (pair_in (map seen tokens.now)) }
    ensures shorter { IfOk result (λ next. length next.1.now < length tokens.now) }
{
    let (first, rest) = name_in(tokens)?;
    let (relation, rest) = relation_in(rest)?;
    partner_in(first, relation, rest)
}

/// The rest of an arc after its `*`.
#[tactic(auto, unfolding(crate::specs::Grammar::Arcs::all_in))]
fn all_in<'t, 'a>(tokens: &'t [Token<'a>]) -> Result<(Ends<'a>, &'t [Token<'a>]), &'t [Token<'a>]>
    ensures ends { Sees (λ next. (ends_view next.0, map seen next.1.now)) result (all_in (map seen tokens.now)) }
    ensures shorter { IfOk result (λ next. length next.1.now < length tokens.now) }
{
    let (relation, rest) = relation_in(tokens)?;
    let Some(kind) = back_to_all(relation) else {
        return Err(tokens);
    };
    let (from, rest) = name_in(rest)?;
    Ok((
        Ends {
            kind,
            from,
            to: &[],
        },
        rest,
    ))
}

/// An arc without its attributes, and the tokens after it.
#[tactic(auto, unfolding(crate::specs::Grammar::Arcs::ends_in))]
fn ends_in<'t, 'a>(tokens: &'t [Token<'a>]) -> Result<(Ends<'a>, &'t [Token<'a>]), &'t [Token<'a>]>
    ensures ends { Sees (λ next. (ends_view next.0, map seen next.1.now)) result (ends_in (map seen tokens.now)) }
    ensures shorter { IfOk result (λ next. length next.1.now < length tokens.now) }
{
    if let Some(rest) = skip_spacer(tokens) {
        let ends = Ends {
            kind: ArcKind::Spacer,
            from: &[],
            to: &[],
        };
        return Ok((ends, rest));
    }
    match skip_mark(b'*', tokens) {
        Some(rest) => all_in(rest),
        None => pair_in(tokens),
    }
}

/// An arc with its attributes and its end, and the tokens after it.
#[tactic(auto, unfolding(crate::specs::Grammar::Arcs::arc_in))]
pub(crate) fn arc_in<'t, 'a>(
    tokens: &'t [Token<'a>],
) -> Result<(Arc<'a>, &'t [Token<'a>]), &'t [Token<'a>]>
    ensures arc { Sees (λ next. (arc_view next.0, map seen next.1.now)) result (arc_in (map seen tokens.now)) }
    ensures shorter { IfOk result (λ next. length next.1.now < length tokens.now) }
{
    let [token, ..] = tokens else {
        return Err(tokens);
    };
    let (ends, rest) = ends_in(tokens)?;
    let (attributes, rest) = attributes_in(rest)?;
    let (ends_row, rest) = end_in(rest)?;
    let arc = Arc {
        kind: ends.kind,
        from: ends.from,
        to: ends.to,
        label: attributes.label,
        skip: attributes.skip,
        ends_row,
        place: token.place,
    };
    Ok((arc, rest))
}
