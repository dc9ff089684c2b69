//! Reads the observations in the texts of a log.
ghost use Rattle.std.specs.Prelude.{◌≡◌, if◌then◌else◌, map, IfOk, OnOk};
ghost use Rattle.std.specs.List.{list_any};
ghost use Rattle.log_lines.specs.Reading.{is_within, all_lines};
ghost use Rattle.log_lines.specs.Words.{words_of};
ghost use Rattle.log_lines.specs.Names.Hosts.{peer_view};
ghost use Rattle.log_lines.specs.Takes.Patterns.{is_misspelled};
ghost use Rattle.log_lines.specs.Takes.Observations.{observations_view, behind_id, with_act, with_words, rest_misspelled, has_misspelled, with_spelling, with_lines, observed_in};

use crate::names::{Peer, host_of};
use crate::takes::observations::Observations;
use crate::takes::patterns::is_misspelled;
use crate::{
    Direction, LineRange, Place, begins_rest, behind_preposition, direction_of, id_in, is_within,
    words_of,
};
use std::alloc::{AllocError, Global};
use texts::next_line;

/// The words after the id, from the words after the name.
fn behind_id<'w, 'a>(words: &'w [&'a [u8]]) -> &'w [&'a [u8]]
    ensures { map (λ w. w.now) result.now ≡ behind_id (map (λ w. w.now) words.now) }
{
    match words {
        [word, ..] => {
            if begins_rest(*word) {
                words
            } else {
                &words[1..]
            }
        }
        [] => words,
    }
}

/// Adds a line on which a host did this. `words` begin with the peer and the message's name.
fn add_act<'a>(
    peers: &[Peer<'a>],
    host: &'a [u8],
    direction: Direction,
    words: &[&'a [u8]],
    observed: &mut Observations<'a>,
) -> Result<(), AllocError>
    ensures { OnOk result (observations_view observed.new
        ≡ with_act (map peer_view peers.now) host.now direction (map (λ w. w.now) words.now) (observations_view observed.old)) }
{
    match words {
        [peer, name, others @ ..] => {
            let host = host_of(peers, host);
            let peer = host_of(peers, *peer);
            match direction {
                Direction::Sends => observed.add_message(peers, host, peer, &[]),
                Direction::Receives => observed.add_message(peers, host, peer, behind_id(others)),
                Direction::Arrives => observed.add_arrival(host, peer, *name, id_in(others)),
                Direction::Unknown => Ok(()),
            }
        }
        _ => Ok(()),
    }
}

/// Adds a line with these words.
#[tactic(auto, unfolding(crate::specs::Takes::Observations::with_words))]
fn add_words<'a>(
    peers: &[Peer<'a>],
    words: &[&'a [u8]],
    observed: &mut Observations<'a>,
) -> Result<(), AllocError>
    ensures { OnOk result (observations_view observed.new
        ≡ with_words (map peer_view peers.now) (map (λ w. w.now) words.now) (observations_view observed.old)) }
{
    match words {
        [host, word, others @ ..] => add_act(
            peers,
            *host,
            direction_of(*word),
            behind_preposition(others),
            observed,
        ),
        _ => Ok(()),
    }
}

/// Whether one of these words begins with `takes=`, but is misspelled.
fn any_misspelled(words: &[&[u8]]) -> bool
    ensures { result ≡ list_any is_misspelled (map (λ w. w.now) words.now) }
{
    for word in words {
        if is_misspelled(*word) {
            return true;
        }
    }
    false
}

/// Whether there is such a word after the name and the id of a receive.
fn rest_misspelled(direction: Direction, words: &[&[u8]]) -> bool
    ensures { result ≡ rest_misspelled direction (map (λ w. w.now) words.now) }
{
    match words {
        [_, _, others @ ..] => match direction {
            Direction::Receives => any_misspelled(behind_id(others)),
            Direction::Sends | Direction::Arrives | Direction::Unknown => false,
        },
        _ => false,
    }
}

/// Whether a line with these words is a receive that has one.
#[tactic(auto, unfolding(crate::specs::Takes::Observations::has_misspelled))]
fn has_misspelled(words: &[&[u8]]) -> bool
    ensures { result ≡ has_misspelled (map (λ w. w.now) words.now) }
{
    match words {
        [_, word, others @ ..] => rest_misspelled(direction_of(*word), behind_preposition(others)),
        _ => false,
    }
}

/// If the line at this place has a misspelled word, adds it to the misspelled receives.
fn add_spelling(place: Place, words: &[&[u8]], observed: &mut Observations<'_>)
    ensures { observations_view observed.new
        ≡ with_spelling place (map (λ w. w.now) words.now) (observations_view observed.old) }
{
    if has_misspelled(words) {
        observed.add_misspelled(place);
    }
}

/// Adds a line, if it is within the range.
fn add_line<'a>(
    alloc: Global,
    peers: &[Peer<'a>],
    range: LineRange,
    place: Place,
    line: &'a [u8],
    observed: &mut Observations<'a>,
) -> Result<(), AllocError>
    ensures { OnOk result (observations_view observed.new ≡ (if is_within range place.line
        then with_spelling place (words_of line.now) (with_words (map peer_view peers.now) (words_of line.now) (observations_view observed.old))
        else observations_view observed.old)) }
{
    if !is_within(range, place.line) {
        return Ok(());
    }
    let words = words_of(alloc, line)?;
    add_words(peers, &words, observed)?;
    add_spelling(place, &words, observed);
    Ok(())
}

/// Adds the lines of the text with this number.
fn add_text<'a>(
    alloc: Global,
    peers: &[Peer<'a>],
    range: LineRange,
    text: usize,
    bytes: &'a [u8],
    observed: &mut Observations<'a>,
) -> Result<(), AllocError>
    ensures { OnOk result (observations_view observed.new
        ≡ with_lines (map peer_view peers.now) range text 1 (all_lines bytes.now) (observations_view observed.old)) }
{
    let mut rest = bytes;
    let mut number = 1;
    'lines: loop {
        match next_line(rest) {
            None => break,
            Some((line, after)) => {
                let place = Place { text, line: number };
                add_line(alloc, peers, range, place, line, observed)?;
                rest = after;
                number += 1;
            }
        }
    }
    let place = Place { text, line: number };
    add_line(alloc, peers, range, place, rest, observed)?;
    Ok(())
}

/// The observations in the texts of an application's log. `peers` has the log's other words for hosts. A line
/// `HOST arrive [to or from] PEER NAME [ID]` reports that a message reached HOST. Words `takes=PEER:NAMES` after the
/// name and the ID of a receive report what it would have taken. Receives with a misspelled word that begins with
/// `takes=` are counted, with the place of the first. Lines are counted like the messages that `crate::read_plain`
/// reads, without those of a host to itself. It takes time in proportion to the texts.
#[tactic(auto, unfolding(crate::specs::Takes::Observations::observed_in))]
pub fn read_observed<'a>(
    alloc: Global,
    peers: &[Peer<'a>],
    range: LineRange,
    texts: &[&'a [u8]],
) -> Result<Observations<'a>, AllocError>
    ensures { IfOk result (λ observed. observations_view observed ≡ observed_in (map peer_view peers.now) range (map (λ text. text.now) texts.now)) }
{
    let mut observed = Observations::new(alloc);
    for (number, text) in texts.iter().enumerate() {
        add_text(alloc, peers, range, number, *text, &mut observed)?;
    }
    Ok(observed)
}
