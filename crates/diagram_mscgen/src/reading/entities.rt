//! The participants of a chart.
ghost use Rattle.std.specs.Prelude.{◌≡◌, ◌<◌, length, map, position, bytes_eq, unwrap_or, IfOk, IfSome};
ghost use Rattle.diagrams.specs.Diagrams.{participant_view};
ghost use Rattle.diagram_mscgen.specs.Grammar.Charts.{entity_view};
ghost use Rattle.diagram_mscgen.specs.Reading.Entities.{place_of, known_at, participant_of, with_entity, known_of, Knows};

use crate::grammar::Entity;
use crate::reading::error::{Fault, ReadError};
use crate::reading::quoted::text_of;
use chart::MAX_INSTANCES;
use diagrams::{Kind, LeftOut, Participant, Place, leave_out};
use std::alloc::{AllocError, Global};
use std::marker::Model;

/// The participants so far. A contract sees a record of its fields.
#[derive(Drop)]
pub(crate) struct Known<'a> {
    /// The words by which arcs name them.
    pub words: Vec<&'a [u8]>,
    pub participants: Vec<Participant>,
    pub left_out: Vec<LeftOut>,
}

impl<'a> Model for Known<'a> {
    ghost use Rattle.std.specs.Prelude.{map};
    ghost use Rattle.diagrams.specs.Diagrams.{participant_view};
    ghost use Rattle.diagram_mscgen.specs.Reading.Entities.{KnownView};

    ghost Value = { KnownView };

    ghost view = { λ k. record {
      words = map (λ word. word.now) k.words.items;
      participants = map participant_view k.participants.items;
      left_out = k.left_out.items;
    } };
}

/// The place of a token, as a place of a diagram.
pub(crate) fn place_of(place: texts::bytes::Place) -> Place
    ensures { result ≡ place_of place }
{
    Place {
        line: place.line,
        column: place.column,
    }
}

fn is_word(known: &[u8], word: &[u8]) -> bool
    ensures { result ≡ bytes_eq known.now word.now }
{
    known == word
}

/// The place of the first of these words that is equal to this one.
fn first_place(words: &[&[u8]], word: &[u8]) -> Option<usize>
    ensures value { result ≡ position (λ known. bytes_eq known.now word.now) words.now }
    ensures within { IfSome result (λ place. place < length words.now) }
{
    words.iter().position(|known| is_word(known, word))
}

/// The place of the participant with this word.
#[tactic(auto, using(crate::proofs::ReadingLemmas::Loops::position_map))]
pub(crate) fn known_at(words: &[&[u8]], word: &[u8]) -> Option<usize>
    ensures value { result ≡ known_at (map (λ w. w.now) words.now) word.now }
    ensures within { IfSome result (λ place. place < length words.now) }
{
    first_place(words, word)
}

/// The shown text of an entity, as it is written.
fn shown<'a>(entity: &Entity<'a>) -> &'a [u8]
    ensures { result.now ≡ unwrap_or (entity_view entity.now).label (entity_view entity.now).word }
{
    match entity.label {
        Some(label) => label,
        None => entity.word,
    }
}

/// The participant of an entity.
fn participant_of(alloc: Global, entity: &Entity<'_>) -> Result<Participant, AllocError>
    ensures { IfOk result (λ p. participant_view p ≡ participant_of (entity_view entity.now)) }
{
    let label = text_of(alloc, shown(entity))?;
    Ok(Participant {
        label,
        line: entity.place.line,
    })
}

impl<'a> Known<'a> {
    /// Adds one more entity.
    #[tactic(auto, unfolding(crate::specs::Reading::Entities::with_entity))]
    fn add(&mut self, alloc: Global, entity: &Entity<'a>) -> Result<(), ReadError>
        ensures { Knows (λ _. self.new) result (with_entity (entity_view entity.now) self.old) }
    {
        if known_at(&self.words, entity.word).is_some() {
            leave_out(
                &mut self.left_out,
                Kind::Participant,
                place_of(entity.place),
            )?;
            return Ok(());
        }
        if self.words.len() >= MAX_INSTANCES {
            return Err(ReadError::Fault(Fault::Instances));
        }
        self.participants.push(participant_of(alloc, entity)?)?;
        self.words.push(entity.word)?;
        Ok(())
    }
}

/// The participants of a chart.
#[tactic(auto, unfolding(crate::specs::Reading::Entities::known_of))]
pub(crate) fn known_of<'a>(alloc: Global, entities: &[Entity<'a>]) -> Result<Known<'a>, ReadError>
    ensures { Knows (λ known. known) result (known_of (map entity_view entities.now)) }
{
    let mut known = Known {
        words: Vec::new(alloc),
        participants: Vec::new(alloc),
        left_out: Vec::new(alloc),
    };
    for entity in entities {
        known.add(alloc, entity)?;
    }
    Ok(known)
}
