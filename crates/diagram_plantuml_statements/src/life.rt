//! Activations that a statement begins or ends.
ghost use Rattle.std.specs.Prelude.{◌≡◌};
ghost use Rattle.texts.specs.Words.{Finds};
ghost use Rattle.diagram_statements.specs.Statements.{element_view};
ghost use Rattle.diagram_plantuml_statements.specs.Meanings.{meaning_view, are_colours, verb_at, life_of, signs_at, short_life_of, switch_of};

use crate::meaning::Meaning;
use diagram_plantuml_arrows::{Class, behind_colour, behind_gap, name_at, run_at};
use diagram_statements::Element;
use texts::bytes::is_spelled;
use texts::{behind_blanks, behind_word};

/// Whether only colours come next: two at most.
#[tactic(auto, unfolding(crate::specs::Meanings::are_colours))]
fn are_colours(bytes: &[u8]) -> bool
    ensures { result ≡ are_colours bytes.now }
{
    let first = behind_colour(Class::Word, behind_blanks(bytes));
    let second = behind_colour(Class::Word, behind_blanks(first));
    behind_blanks(second).is_empty()
}

/// The text after this verb, and whether the verb begins or ends an activation.
#[tactic(auto, unfolding(crate::specs::Meanings::verb_at))]
fn verb_at(words: &[u8]) -> Option<(Option<bool>, &[u8])>
    ensures { Finds (λ verb. (verb.0, verb.1.now)) result (verb_at words.now) }
{
    if let Some(rest) = behind_word(b"activate", words) {
        return Some((Some(true), rest));
    }
    if let Some(rest) = behind_word(b"deactivate", words) {
        return Some((Some(false), rest));
    }
    match behind_word(b"destroy", words) {
        Some(rest) => Some((None, rest)),
        None => None,
    }
}

/// The activation of a statement, if it is one.
#[tactic(auto, unfolding(crate::specs::Meanings::life_of))]
pub(crate) fn life_of(words: &[u8]) -> Option<Meaning<'_>>
    ensures { Finds meaning_view result (life_of words.now) }
{
    let (activates, behind_verb) = verb_at(words)?;
    let (name, rest) = name_at(behind_gap(behind_verb)?)?;
    if are_colours(rest) {
        Some(Meaning::Life(name, activates))
    } else {
        None
    }
}

/// The text after two signs of activation, and whether they begin an activation.
#[tactic(auto, unfolding(crate::specs::Meanings::signs_at))]
fn signs_at(bytes: &[u8]) -> Option<(bool, &[u8])>
    ensures { Finds (λ signs. (signs.0, signs.1.now)) result (signs_at bytes.now) }
{
    if let Some(rest) = behind_word(b"++", bytes) {
        return Some((true, rest));
    }
    match behind_word(b"--", bytes) {
        Some(rest) => Some((false, rest)),
        None => None,
    }
}

/// The activation of a statement that has signs after a word.
#[tactic(auto, unfolding(crate::specs::Meanings::short_life_of))]
pub(crate) fn short_life_of(words: &[u8]) -> Option<Meaning<'_>>
    ensures { Finds meaning_view result (short_life_of words.now) }
{
    let (name, behind_name) = run_at(Class::Name, words)?;
    let (activates, rest) = signs_at(behind_blanks(behind_name))?;
    if behind_colour(Class::Word, behind_blanks(rest)).is_empty() {
        Some(Meaning::Life(name, Some(activates)))
    } else {
        None
    }
}

/// The statement that switches whether arrows activate.
#[tactic(auto, unfolding(crate::specs::Meanings::switch_of))]
pub(crate) fn switch_of(words: &[u8]) -> Option<Element<'_>>
    ensures { Finds element_view result (switch_of words.now) }
{
    let word = behind_gap(behind_word(b"autoactivate", words)?)?;
    if is_spelled(b"on", word) {
        return Some(Element::ArrowsActivate(true));
    }
    if is_spelled(b"off", word) {
        Some(Element::ArrowsActivate(false))
    } else {
        None
    }
}
