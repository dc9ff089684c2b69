//! Reads a line of a chart's text, by the state before it.
ghost use Rattle.std.specs.Prelude.{◌≡◌, ◌<◌, length, position, Some, None, IfSome, IsOk, MatchOption};
ghost use Rattle.std.specs.List.{list_all};
ghost use Rattle.chart.specs.declared.line.TheConstants.{MAX_EVENTS};
ghost use Rattle.msc_text.specs.Reader.Steps.{is_semicolon, is_other, name_part, is_plain, start_by, head_of, outside_by};
ghost use Rattle.msc_text.specs.Reader.Steps.{pair_of, names_of, after_receive, is_closed, send_of, receive_of, event_of};
ghost use Rattle.msc_text.specs.Reader.Steps.{alone_of, inside_by, step_of};
ghost use Rattle.texts.specs.Lines.{words_of};

use crate::chart_name;
use crate::reader::last_word::is_last_word;
use crate::reader::state::{Region, Saying, State};
use chart::{Keyword, MAX_EVENTS, Name};
use texts::{Cause, Words, name_in, words_in};

fn is_semicolon(byte: u8) -> bool
    ensures { result ≡ is_semicolon byte }
{
    byte == b';'
}

/// The index of the first semicolon, from 0.
fn index_of_semicolon(word: &[u8]) -> Option<usize>
    ensures value { result ≡ position is_semicolon word.now }
    ensures within { IfSome result (λ index. index < length word.now) }
{
    word.iter().position(|b| is_semicolon(*b))
}

/// The part before the semicolon of `NAME;`. It has one byte or more, and the semicolon is the word's last byte and its
/// only semicolon.
#[tactic(auto, unfolding(crate::specs::Reader::Steps::name_part))]
fn name_part(word: &[u8]) -> Option<&[u8]>
    ensures { MatchOption result (name_part word.now ≡ None) (λ name. name_part word.now ≡ Some name.now) }
{
    match index_of_semicolon(word) {
        None => None,
        Some(index) => {
            if index == 0 || index + 1 != word.len() {
                return None;
            }
            Some(&word[..index])
        }
    }
}

fn is_other(byte: u8) -> bool
    ensures { result ≡ is_other byte }
{
    !is_semicolon(byte)
}

fn has_others_alone(word: &[u8]) -> bool
    ensures { result ≡ list_all is_other word.now }
{
    word.iter().all(|b| is_other(*b))
}

/// Whether the word has one byte or more, and no semicolon.
#[tactic(auto, unfolding(crate::specs::Reader::Steps::is_plain))]
fn is_plain(word: &[u8]) -> bool
    ensures { result ≡ is_plain word.now }
{
    !word.is_empty() && has_others_alone(word)
}

/// Reads the first line of the text. F20 refuses any other line.
fn start_in(line: &[u8]) -> Result<(Saying, State), Cause>
    ensures { result ≡ start_by (words_of line.now) }
{
    match words_in(line) {
        Words::Two(msc, run) if Keyword::Msc.is(msc) && is_last_word(chart_name(), run) => Ok((
            Saying::Begin,
            State::Outside,
        )),
        _ => Err(Cause::Syntax),
    }
}

/// Reads the name of `instance NAME;`. F20 refuses a word of another form, and then the first of F1 to F4 that applies
/// a word that is no name.
#[tactic(auto, unfolding(crate::specs::Reader::Steps::head_of))]
fn head_in(word: &[u8]) -> Result<(Saying, State), Cause>
    ensures { result ≡ head_of (name_part word.now) }
{
    let Some(word) = name_part(word) else {
        return Err(Cause::Syntax);
    };
    let own = name_in(word)?;
    Ok((Saying::Head(own), inside(own, 0, Region::Closed)))
}

/// Reads a line outside of an instance.
fn outside_in(line: &[u8]) -> Result<(Saying, State), Cause>
    ensures { result ≡ outside_by (words_of line.now) }
{
    match words_in(line) {
        Words::One(word) if is_last_word(Keyword::EndMsc.as_bytes(), word) => Ok((
            Saying::End,
            State::Done,
        )),
        Words::Two(word, name) if Keyword::Instance.is(word) => head_in(name),
        _ => Err(Cause::Syntax),
    }
}

/// The message and the partner of an event of the instance `own`, which has this number of events before it. The first
/// of F1 to F4 that applies refuses the name of the message, and then that of the partner. F13 and F7 follow.
#[tactic(auto, unfolding(crate::specs::Reader::Steps::pair_of))]
fn pair_in(own: Name, events: usize, message: &[u8], partner: &[u8]) -> Result<(Name, Name), Cause>
    ensures pair { result ≡ pair_of own events message.now partner.now }
    ensures room { IsOk result → events < MAX_EVENTS }
{
    let name = name_in(message)?;
    let other = name_in(partner)?;
    if other == own {
        return Err(Cause::ToItself);
    }
    if events >= MAX_EVENTS {
        return Err(Cause::LineFull);
    }
    Ok((name, other))
}

/// The same. F20 comes first, for words that have another form.
#[tactic(auto, unfolding(crate::specs::Reader::Steps::names_of))]
fn names_in(own: Name, events: usize, message: &[u8], word: &[u8]) -> Result<(Name, Name), Cause>
    ensures names { result ≡ names_of own events message.now (name_part word.now) }
    ensures room { IsOk result → events < MAX_EVENTS }
{
    match name_part(word) {
        Some(partner) if is_plain(message) => pair_in(own, events, message, partner),
        _ => Err(Cause::Syntax),
    }
}

/// How far a coregion has come after one more receive.
pub(crate) fn after_receive(region: Region) -> Region
    ensures { result ≡ after_receive region }
{
    match region {
        Region::Closed => Region::Closed,
        Region::Empty | Region::Held => Region::Held,
    }
}

pub(crate) fn is_closed(region: Region) -> bool
    ensures { result ≡ is_closed region }
{
    match region {
        Region::Closed => true,
        Region::Empty | Region::Held => false,
    }
}

/// Reads `out MESSAGE to NAME;`.
#[tactic(auto, unfolding(crate::specs::Reader::Steps::send_of))]
fn send_in(own: Name, events: usize, message: &[u8], word: &[u8]) -> Result<(Saying, State), Cause>
    ensures { result ≡ send_of own events message.now word.now }
{
    let (name, to) = names_in(own, events, message, word)?;
    let next = inside(own, events + 1, Region::Closed);
    Ok((Saying::Send { to, name }, next))
}

/// Reads `in MESSAGE from NAME;`.
#[tactic(auto, unfolding(crate::specs::Reader::Steps::receive_of))]
fn receive_in(
    own: Name,
    events: usize,
    region: Region,
    message: &[u8],
    word: &[u8],
) -> Result<(Saying, State), Cause>
    ensures { result ≡ receive_of own events region message.now word.now }
{
    let (name, from) = names_in(own, events, message, word)?;
    let next = inside(own, events + 1, after_receive(region));
    Ok((Saying::Receive { from, name }, next))
}

/// The state inside the instance `own`, after this number of events.
pub(crate) fn inside(own: Name, events: usize, region: Region) -> State
    ensures { result ≡ State.Inside own events region }
{
    State::Inside {
        own,
        events,
        region,
    }
}

/// Reads a line of one word inside an instance.
#[tactic(auto, unfolding(crate::specs::Reader::Steps::alone_of))]
fn alone_in(own: Name, events: usize, region: Region, word: &[u8]) -> Result<(Saying, State), Cause>
    ensures { result ≡ alone_of own events region word.now }
{
    match region {
        Region::Closed if is_last_word(Keyword::EndInstance.as_bytes(), word) => Ok((
            Saying::Foot,
            State::Outside,
        )),
        Region::Closed if is_last_word(Keyword::Concurrent.as_bytes(), word) => {
            Ok((Saying::Open, inside(own, events, Region::Empty)))
        }
        Region::Held if is_last_word(Keyword::EndConcurrent.as_bytes(), word) => {
            Ok((Saying::Shut, inside(own, events, Region::Closed)))
        }
        _ => Err(Cause::Syntax),
    }
}

/// Reads a line inside the instance `own`, which has this number of events before it.
#[tactic(auto, unfolding(crate::specs::Reader::Steps::event_of))]
fn inside_in(
    own: Name,
    events: usize,
    region: Region,
    line: &[u8],
) -> Result<(Saying, State), Cause>
    ensures { result ≡ inside_by own events region (words_of line.now) }
{
    match words_in(line) {
        Words::One(word) => alone_in(own, events, region, word),
        Words::Four(way, message, before, word)
            if Keyword::In.is(way) && Keyword::From.is(before) => {
            receive_in(own, events, region, message, word)
        }
        Words::Four(way, message, before, word)
            if Keyword::Out.is(way) && Keyword::To.is(before) && is_closed(region) => {
            send_in(own, events, message, word)
        }
        _ => Err(Cause::Syntax),
    }
}

/// What the line means and the state after it, or the first fault that the line has by itself.
#[tactic(auto, unfolding(crate::specs::Reader::Steps::step_of))]
pub(crate) fn step_in(state: State, line: &[u8]) -> Result<(Saying, State), Cause>
    ensures { result ≡ step_of state line.now }
{
    match state {
        State::Start => start_in(line),
        State::Outside => outside_in(line),
        State::Inside {
            own,
            events,
            region,
        } => inside_in(own, events, region, line),
        State::Done => Err(Cause::Syntax),
    }
}
