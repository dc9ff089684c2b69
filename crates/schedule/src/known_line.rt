//! Command lines that are read at once: sends and receives whose words are at the usual places, and whose names were
//! mostly read before. Any other line is left to [`crate::action_line`].
ghost use Rattle.std.specs.Prelude.{◌≡◌, ◌∷◌, Ok, IfSome};
ghost use Rattle.texts.specs.Lines.{words_of};
ghost use Rattle.schedule.specs.ActionLines.{action_by, action_of};
ghost use Rattle.schedule.specs.Keywords.{written};
ghost use Rattle.schedule.specs.KnownLines.{IsInstance};
ghost use Rattle.schedule.specs.declared.keyword.ScheduleWord.TheVariants as keywords;

use crate::command::Action;
use chart::{InstanceNo, Names};
use texts::next_word;
use texts::reading::{Guesses, behind};

/// Receiver and message of `send NAME MESSAGE`.
fn send_words(bytes: &[u8]) -> Option<(&[u8], &[u8])>
    ensures { IfSome result (λ words. words_of bytes.now
        ≡ written keywords.Send ∷ words.0.now ∷ words_of words.1.now) }
{
    let rest = behind(b"send ", bytes)?;
    let (to, message) = next_word(rest);
    let Some(message) = message else {
        return None;
    };
    Some((to, message))
}

/// The sender of `receive NAME`.
fn receive_word(bytes: &[u8]) -> Option<&[u8]>
    ensures { IfSome result (λ from. words_of bytes.now ≡ written keywords.Receive ∷ words_of from.now) }
{
    let from = behind(b"receive ", bytes)?;
    Some(from)
}

/// The instance of this name, if there is one.
#[inline(always)]
fn instance_in(names: &Names, guesses: &mut Guesses, word: &[u8]) -> Option<InstanceNo>
    ensures { IfSome result (IsInstance names.now word.now) }
{
    match guesses.instance(names, word) {
        Ok(Ok(instance)) => Some(instance),
        _ => None,
    }
}

/// A send by this actor.
fn send_by(
    names: &Names,
    guesses: &mut Guesses,
    actor: &[u8],
    rest: &[u8],
) -> Option<(InstanceNo, Action)>
    ensures { IfSome result (λ r. action_by names.now (actor.now ∷ words_of rest.now) ≡ Ok r) }
{
    let (to, message) = send_words(rest)?;
    let actor = instance_in(names, guesses, actor)?;
    let to = instance_in(names, guesses, to)?;
    let Ok(name) = guesses.name(message) else {
        return None;
    };
    if actor == to {
        return None;
    }
    Some((actor, Action::Send { to, name }))
}

/// A receive by this actor.
fn receive_by(
    names: &Names,
    guesses: &mut Guesses,
    actor: &[u8],
    rest: &[u8],
) -> Option<(InstanceNo, Action)>
    ensures { IfSome result (λ r. action_by names.now (actor.now ∷ words_of rest.now) ≡ Ok r) }
{
    let from = receive_word(rest)?;
    let actor = instance_in(names, guesses, actor)?;
    let from = instance_in(names, guesses, from)?;
    if actor == from {
        return None;
    }
    Some((actor, Action::Receive { from }))
}

/// What the line means. `None` decides nothing about it.
pub(crate) fn known_action(
    names: &Names,
    guesses: &mut Guesses,
    line: &[u8],
) -> Option<(InstanceNo, Action)>
    ensures { IfSome result (λ r. action_of names.now line.now ≡ Ok r) }
{
    let (actor, rest) = next_word(line);
    let Some(rest) = rest else {
        return None;
    };
    match rest {
        [b's', ..] => send_by(names, guesses, actor, rest),
        [b'r', ..] => receive_by(names, guesses, actor, rest),
        _ => None,
    }
}
