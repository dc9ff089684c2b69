//! A command's line: the acting instance, and its action.
ghost use Rattle.std.specs.Prelude.{◌≡◌};
ghost use Rattle.schedule.specs.ActionLines.{both_of, partners_of, send_of, receive_of, close_of, alone_of, by_two};
ghost use Rattle.schedule.specs.ActionLines.{by_three, action_of};

use crate::command::Action;
use crate::keyword::ScheduleWord;
use crate::known_line::known_action;
use chart::{InstanceNo, Name, Names};
use texts::reading::Guesses;
use texts::{Cause, Words, known_in, name_in, words_in};

/// Two instances that were found, or the first one's F23, or F13 if they are the same.
fn read_pair(
    actor: Result<InstanceNo, Cause>,
    partner: Result<InstanceNo, Cause>,
) -> Result<(InstanceNo, InstanceNo), Cause>
    ensures { result ≡ both_of actor partner }
{
    let actor = actor?;
    let partner = partner?;
    if actor == partner {
        return Err(Cause::ToItself);
    }
    Ok((actor, partner))
}

/// Actor and partner of a line that has no other name.
#[tactic(auto, unfolding(crate::specs::ActionLines::partners_of, crate::specs::ActionLines::pair_of))]
fn read_partners(
    names: &Names,
    guesses: &mut Guesses,
    actor: &[u8],
    partner: &[u8],
) -> Result<(InstanceNo, InstanceNo), Cause>
    ensures { result ≡ partners_of names.now actor.now partner.now }
{
    let actor = guesses.instance(names, actor)?;
    let partner = guesses.instance(names, partner)?;
    read_pair(actor, partner)
}

/// `NAME send NAME MESSAGE`.
#[tactic(auto, unfolding(crate::specs::ActionLines::send_of, crate::specs::ActionLines::pair_of))]
fn read_send(
    names: &Names,
    guesses: &mut Guesses,
    actor: &[u8],
    partner: &[u8],
    message: &[u8],
) -> Result<(InstanceNo, Action), Cause>
    ensures { result ≡ send_of names.now actor.now partner.now message.now }
{
    let actor = guesses.instance(names, actor)?;
    let partner = guesses.instance(names, partner)?;
    let name = guesses.name(message)?;
    let (actor, to) = read_pair(actor, partner)?;
    Ok((actor, Action::Send { to, name }))
}

/// `NAME receive NAME`.
#[tactic(auto, unfolding(crate::specs::ActionLines::receive_of))]
fn read_receive(
    names: &Names,
    guesses: &mut Guesses,
    actor: &[u8],
    partner: &[u8],
) -> Result<(InstanceNo, Action), Cause>
    ensures { result ≡ receive_of names.now actor.now partner.now }
{
    let (actor, from) = read_partners(names, guesses, actor, partner)?;
    Ok((actor, Action::Receive { from }))
}

/// `NAME close NAME`.
#[tactic(auto, unfolding(crate::specs::ActionLines::close_of))]
fn read_close(
    names: &Names,
    guesses: &mut Guesses,
    actor: &[u8],
    partner: &[u8],
) -> Result<(InstanceNo, Action), Cause>
    ensures { result ≡ close_of names.now actor.now partner.now }
{
    let (actor, to) = read_partners(names, guesses, actor, partner)?;
    Ok((actor, Action::Close { to }))
}

/// An action with no partner.
#[tactic(auto, unfolding(crate::specs::ActionLines::alone_of))]
fn read_alone(names: &Names, actor: &[u8], action: Action) -> Result<(InstanceNo, Action), Cause>
    ensures { result ≡ alone_of names.now actor.now action }
{
    let actor = name_in(actor)?;
    let actor = known_in(names, actor)?;
    Ok((actor, action))
}

/// `NAME any`, `NAME concurrent` or `NAME endconcurrent`, or F20.
#[tactic(auto, unfolding(crate::specs::ActionLines::by_two))]
fn by_two(names: &Names, actor: &[u8], keyword: &[u8]) -> Result<(InstanceNo, Action), Cause>
    ensures { result ≡ by_two names.now actor.now keyword.now }
{
    if ScheduleWord::Any.is(keyword) {
        return read_alone(names, actor, Action::Any);
    }
    if ScheduleWord::Concurrent.is(keyword) {
        return read_alone(names, actor, Action::Open);
    }
    if ScheduleWord::EndConcurrent.is(keyword) {
        return read_alone(names, actor, Action::Shut);
    }
    Err(Cause::Syntax)
}

/// `NAME receive NAME` or `NAME close NAME`, or F20.
#[tactic(auto, unfolding(crate::specs::ActionLines::by_three))]
fn by_three(
    names: &Names,
    guesses: &mut Guesses,
    actor: &[u8],
    keyword: &[u8],
    partner: &[u8],
) -> Result<(InstanceNo, Action), Cause>
    ensures { result ≡ by_three names.now actor.now keyword.now partner.now }
{
    if ScheduleWord::Receive.is(keyword) {
        return read_receive(names, guesses, actor, partner);
    }
    if ScheduleWord::Close.is(keyword) {
        return read_close(names, guesses, actor, partner);
    }
    Err(Cause::Syntax)
}

/// What a command's line means, or the first of its faults, read word by word.
#[tactic(auto, unfolding(crate::specs::ActionLines::action_of))]
fn read_words(
    names: &Names,
    guesses: &mut Guesses,
    line: &[u8],
) -> Result<(InstanceNo, Action), Cause>
    ensures { result ≡ action_of names.now line.now }
{
    match words_in(line) {
        Words::Two(actor, keyword) if !actor.is_empty() => by_two(names, actor, keyword),
        Words::Three(actor, keyword, partner) if !actor.is_empty() && !partner.is_empty() => {
            by_three(names, guesses, actor, keyword, partner)
        }
        Words::Four(actor, keyword, partner, message)
            if !actor.is_empty()
                && !partner.is_empty()
                && !message.is_empty()
                && ScheduleWord::Send.is(keyword) => {
            read_send(names, guesses, actor, partner, message)
        }
        _ => Err(Cause::Syntax),
    }
}

/// What a command's line means, or the first of its faults.
pub(crate) fn read_action(
    names: &Names,
    guesses: &mut Guesses,
    line: &[u8],
) -> Result<(InstanceNo, Action), Cause>
    ensures { result ≡ action_of names.now line.now }
{
    match known_action(names, guesses, line) {
        Some(found) => Ok(found),
        None => read_words(names, guesses, line),
    }
}
