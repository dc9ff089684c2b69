//! Participants, in the order in which they are first named.
ghost use Rattle.std.specs.Prelude.{◌≡◌, ◌<◌, length, map, bytes_eq, IfSome, IfOk, OnOk};
ghost use Rattle.diagram_statements.specs.Statements.{end_view};
ghost use Rattle.diagram_statements.specs.ToDiagram.Participants.{named_view, place_in, new_named, named, renamed, with_label, Names};

use crate::End;
use std::alloc::AllocError;

/// A participant: its word in the text, its label there, and the number of the line that first names it.
#[derive(Clone, Copy, Debug)]
pub(crate) struct Named<'a> {
    pub word: &'a [u8],
    pub label: &'a [u8],
    pub line: u64,
}

fn is_same(word: &[u8], other: &[u8]) -> bool
    ensures { result ≡ bytes_eq word.now other.now }
{
    word == other
}

/// The place of the participant with this word.
#[tactic(auto, using(texts::proofs::ByteLoops::moved_on))]
fn place_in(word: &[u8], participants: &[Named<'_>]) -> Option<usize>
    ensures value { result ≡ place_in word.now (map named_view participants.now) }
    ensures within { IfSome result (λ place. place < length participants.now) }
{
    let mut place = 0;
    for participant in participants {
        if is_same(participant.word, word) {
            return Some(place);
        }
        place += 1;
    }
    None
}

/// A participant that a statement in this line names.
fn new_named<'a>(line: u64, end: End<'a>) -> Named<'a>
    ensures { named_view result ≡ new_named line (end_view end.entry) }
{
    let label = match end.label {
        Some(label) => label,
        None => end.word,
    };
    Named {
        word: end.word,
        label,
        line,
    }
}

/// The place of the participant that a statement in this line names. It is new if no line above names it.
#[tactic(auto, unfolding(crate::specs::ToDiagram::Participants::named))]
pub(crate) fn name<'a>(
    participants: &mut Vec<Named<'a>>,
    line: u64,
    end: End<'a>,
) -> Result<usize, AllocError>
    ensures place { IfOk result (λ place. Names place (map named_view participants.new.items)
        (named (map named_view participants.old.items) line (end_view end.entry))) }
    ensures within { IfOk result (λ place. place < length participants.new.items) }
{
    match place_in(end.word, participants) {
        Some(place) => Ok(place),
        None => {
            let place = participants.len();
            participants.push(new_named(line, end))?;
            Ok(place)
        }
    }
}

/// Names a participant in this line with its label, which counts from now on.
#[tactic(auto, unfolding(crate::specs::ToDiagram::Participants::renamed))]
pub(crate) fn rename<'a>(
    participants: &mut Vec<Named<'a>>,
    line: u64,
    end: End<'a>,
) -> Result<(), AllocError>
    ensures { OnOk result (map named_view participants.new.items
        ≡ renamed (map named_view participants.old.items) line (end_view end.entry)) }
{
    let place = name(participants, line, end)?;
    let label = match end.label {
        Some(label) => label,
        None => end.word,
    };
    set_label(participants, place, label);
    Ok(())
}

/// Sets the label of the participant at this place.
#[tactic(auto, using(crate::proofs::ToDiagramLemmas::LabelLemmas::labelled))]
fn set_label<'a>(participants: &mut Vec<Named<'a>>, place: usize, label: &'a [u8])
    requires { place < length participants.old.items }
    ensures { map named_view participants.new.items
        ≡ with_label label.now place (map named_view participants.old.items) }
{
    let named = participants[place];
    participants[place] = Named {
        word: named.word,
        label,
        line: named.line,
    };
}
