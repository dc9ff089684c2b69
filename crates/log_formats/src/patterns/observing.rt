//! How receives were chosen, by the matches of an expression.
ghost use Rattle.std.specs.Prelude.{◌≡◌, ◌≤◌, length, map, option_map, AllPairs, IfOk, OnOk};
ghost use Rattle.regex.specs.Bytes.{matcher_pattern, regex_pattern, regex_names};
ghost use Rattle.regex.specs.Locations.{location_count};
ghost use Rattle.log_lines.specs.Names.Hosts.{peer_view};
ghost use Rattle.log_lines.specs.Reading.{all_lines};
ghost use Rattle.log_lines.specs.Takes.Observations.{observations_view, with_message};
ghost use Rattle.log_formats.specs.Patterns.Found.{host_event_view};
ghost use Rattle.log_formats.specs.Patterns.Groups.{AreAmong};
ghost use Rattle.log_lines.specs.Takes.Patterns.{short_patterns};
ghost use Rattle.log_formats.specs.Patterns.Observing.{takes_words, with_directed, with_event, with_line_events, pattern_observed};
ghost use Rattle.log_formats.specs.Patterns.PatternReading.{pattern_step, pattern_event};

use crate::patterns::expression::Expression;
use crate::patterns::host_event::HostEvent;
use crate::patterns::search::{Search, found_at};
use log_lines::names::{Peer, host_of};
use log_lines::takes::Observations;
use log_lines::{Direction, LineRange, words_of};
use std::alloc::{AllocError, Global};
use texts::next_line;

/// Adds a receive that would have taken what these words declare.
fn add_receive<'a>(
    alloc: Global,
    peers: &[Peer<'a>],
    host: &[u8],
    peer: &[u8],
    takes: Option<&'a [u8]>,
    observed: &mut Observations<'a>,
) -> Result<(), AllocError>
    ensures { OnOk result (observations_view observed.new
        ≡ with_message host.now peer.now (short_patterns (map peer_view peers.now) (takes_words (option_map (λ w. w.now) takes.entry))) (observations_view observed.old)) }
{
    match takes {
        None => observed.add_short_message(peers, host, peer, &[]),
        Some(text) => {
            let words = words_of(alloc, text)?;
            observed.add_short_message(peers, host, peer, &words)
        }
    }
}

/// Adds what a match gives of a host.
fn add_event<'a>(
    alloc: Global,
    peers: &[Peer<'a>],
    event: HostEvent<'a>,
    observed: &mut Observations<'a>,
) -> Result<(), AllocError>
    ensures { OnOk result (observations_view observed.new
        ≡ with_directed (map peer_view peers.now) event.entry.direction (host_event_view event.entry) (observations_view observed.old)) }
{
    let host = host_of(peers, event.host);
    let peer = host_of(peers, event.peer);
    match event.direction {
        Direction::Sends => observed.add_message(peers, host, peer, &[]),
        Direction::Receives => add_receive(alloc, peers, host, peer, event.takes, observed),
        Direction::Arrives => observed.add_arrival(host, peer, event.name, event.id),
        Direction::Unknown => Ok(()),
    }
}

/// Adds what a match gives, if it gives something of a host.
fn add_match<'a>(
    alloc: Global,
    peers: &[Peer<'a>],
    event: Option<HostEvent<'a>>,
    observed: &mut Observations<'a>,
) -> Result<(), AllocError>
    ensures { OnOk result (observations_view observed.new
        ≡ with_event (map peer_view peers.now) (option_map host_event_view event.entry) (observations_view observed.old)) }
{
    match event {
        None => Ok(()),
        Some(event) => add_event(alloc, peers, event, observed),
    }
}

/// Adds the lines of a text.
fn add_text<'a>(
    alloc: Global,
    search: &mut Search<'_>,
    peers: &[Peer<'a>],
    range: LineRange,
    bytes: &'a [u8],
    observed: &mut Observations<'a>,
) -> Result<(), AllocError>
    requires { AreAmong (location_count search.old.locations) search.old.groups }
    ensures observed { OnOk result (observations_view observed.new
        ≡ with_line_events (map peer_view peers.now) (pattern_step search.old.groups search.old.more (matcher_pattern search.old.matcher))
        (pattern_event search.old.groups search.old.more (matcher_pattern search.old.matcher)) range 1 0 (all_lines bytes.now) (observations_view observed.old)) }
    ensures pattern { matcher_pattern search.new.matcher ≡ matcher_pattern search.old.matcher }
    ensures groups { search.new.groups ≡ search.old.groups }
    ensures more { search.new.more ≡ search.old.more }
    ensures among { AreAmong (location_count search.new.locations) search.new.groups }
{
    let mut rest = bytes;
    let mut number = 1;
    let mut taken = 0;
    'lines: loop {
        let found = found_at(search, range, number, taken, rest);
        add_match(alloc, peers, found.event, observed)?;
        taken = found.step.takes;
        match next_line(rest) {
            None => break,
            Some((_, after)) => {
                rest = after;
                number += 1;
            }
        }
    }
    Ok(())
}

/// How receives were chosen, text by text. It fails only if there is no memory.
#[tactic(auto, unfolding(crate::specs::Patterns::Observing::pattern_observed))]
fn observed_in<'a>(
    alloc: Global,
    expression: &Expression,
    peers: &[Peer<'a>],
    range: LineRange,
    texts: &[&'a [u8]],
) -> Result<Observations<'a>, AllocError>
    requires { AreAmong (length (regex_names expression.now.regex)) expression.now.groups }
    ensures { IfOk result (λ observed. observations_view observed
        ≡ pattern_observed expression.now.groups expression.now.more (regex_pattern expression.now.regex) (map peer_view peers.now) range (map (λ text. text.now) texts.now)) }
{
    let mut search = Search::new(alloc, expression)?;
    let mut observed = Observations::new(alloc);
    for text in texts {
        add_text(alloc, &mut search, peers, range, *text, &mut observed)?;
    }
    Ok(observed)
}

/// How receives were chosen, by an expression with the groups of events. A match is an arrival if its direction is
/// `arrive`, or if the group `arrive` takes part. The group `takes` of a receive has words `PEER:NAMES`, each of which
/// may begin with `takes=`. `peers` has other words for hosts.
///
/// Lines are counted like the messages that [`read_by`](crate::patterns::read_by) reads, without those of a host to
/// itself. What receives would have taken is in the order of their lines. It fails only if there is no memory.
pub fn observed_by<'a>(
    alloc: Global,
    expression: &Expression,
    peers: &[Peer<'a>],
    range: LineRange,
    texts: &[&'a [u8]],
) -> Result<Observations<'a>, AllocError>
    requires { AreAmong (length (regex_names expression.now.regex)) expression.now.groups }
    ensures observed { IfOk result (λ observed. observations_view observed
        ≡ pattern_observed expression.now.groups expression.now.more (regex_pattern expression.now.regex) (map peer_view peers.now) range (map (λ text. text.now) texts.now)) }
    ensures rising { IfOk result (λ observed. AllPairs (λ a b. a.line ≤ b.line) (observations_view observed).taken) }
{
    observed_in(alloc, expression, peers, range, texts)
}
