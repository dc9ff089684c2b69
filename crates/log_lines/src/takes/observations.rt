//! The observations in a log, besides messages.
ghost use Rattle.std.specs.Prelude.{◌≡◌, [], ◌∷◌, map, option_map, OnOk};
ghost use Rattle.log_lines.specs.Names.Hosts.{peer_view};
ghost use Rattle.race_verdicts.specs.Recordings.{pattern_view};
ghost use Rattle.log_lines.specs.Takes.Patterns.{patterns_of, short_patterns};
ghost use Rattle.log_lines.specs.Takes.Observations.{observations_view, no_observations, with_patterns, with_line_more, with_message, with_arrival, with_misspelled};

use crate::names::Peer;
use crate::takes::patterns::{pattern_of, short_pattern};
use crate::{Others, Place, one_more};
use race_verdicts::{Pattern, Taken};
use std::alloc::{AllocError, Global};

/// A message that reached a host, in words of the log.
#[derive(Clone, Copy, Debug)]
pub struct Arrived<'a> {
    pub host: &'a [u8],
    pub peer: &'a [u8],
    pub name: &'a [u8],
    pub id: Option<&'a [u8]>,
    /// How many lines with messages are before it.
    pub at: usize,
}

/// The observations in a log, besides messages.
#[derive(Debug, Drop)]
pub struct Observations<'a> {
    /// How many lines have messages from one host to another.
    pub lines: usize,
    /// What the receives on these lines would have taken, in the order of the lines.
    pub taken: Vec<Taken<'a>>,
    /// The messages that arrived, in the order of the lines.
    pub arrived: Vec<Arrived<'a>>,
    /// The receives with a misspelled word that begins with `takes=`.
    pub misspelled: Option<Others>,
}

impl<'a> Observations<'a> {
    /// No observations. It takes no memory.
    pub fn new(alloc: Global) -> Observations<'a>
        ensures { observations_view result ≡ no_observations }
    {
        Observations {
            lines: 0,
            taken: Vec::new(alloc),
            arrived: Vec::new(alloc),
            misspelled: None,
        }
    }

    /// Adds a pattern that the next line would have taken.
    fn add_taken(&mut self, pattern: Pattern<'a>) -> Result<(), AllocError>
        ensures { OnOk result (observations_view self.new ≡ with_patterns (pattern_view pattern.entry ∷ []) (observations_view self.old)) }
    {
        self.taken.push(Taken {
            line: self.lines,
            pattern,
        })?;
        Ok(())
    }

    /// Adds a pattern that the next line would have taken, from this word.
    fn add_pattern(&mut self, peers: &[Peer<'a>], word: &'a [u8]) -> Result<(), AllocError>
        ensures { OnOk result (observations_view self.new ≡ with_patterns (patterns_of (map peer_view peers.now) (word.now ∷ [])) (observations_view self.old)) }
    {
        match pattern_of(peers, word) {
            Some(pattern) => self.add_taken(pattern),
            None => Ok(()),
        }
    }

    /// Adds the patterns that the next line would have taken, from these words.
    fn add_patterns(&mut self, peers: &[Peer<'a>], words: &[&'a [u8]]) -> Result<(), AllocError>
        ensures { OnOk result (observations_view self.new
            ≡ with_patterns (patterns_of (map peer_view peers.now) (map (λ w. w.now) words.now)) (observations_view self.old)) }
    {
        for word in words {
            self.add_pattern(peers, *word)?;
        }
        Ok(())
    }

    /// Adds a pattern that the next line would have taken, from this word, which may lack `takes=`.
    fn add_short_pattern(&mut self, peers: &[Peer<'a>], word: &'a [u8]) -> Result<(), AllocError>
        ensures { OnOk result (observations_view self.new ≡ with_patterns (short_patterns (map peer_view peers.now) (word.now ∷ [])) (observations_view self.old)) }
    {
        match short_pattern(peers, word) {
            Some(pattern) => self.add_taken(pattern),
            None => Ok(()),
        }
    }

    /// Adds the patterns that the next line would have taken, from these words, which may lack `takes=`.
    fn add_short_patterns(
        &mut self,
        peers: &[Peer<'a>],
        words: &[&'a [u8]],
    ) -> Result<(), AllocError>
        ensures { OnOk result (observations_view self.new
            ≡ with_patterns (short_patterns (map peer_view peers.now) (map (λ w. w.now) words.now)) (observations_view self.old)) }
    {
        for word in words {
            self.add_short_pattern(peers, *word)?;
        }
        Ok(())
    }

    /// Counts one more line. It fails if the count would overflow.
    fn add_line(&mut self) -> Result<(), AllocError>
        ensures { OnOk result (observations_view self.new ≡ with_line_more (observations_view self.old)) }
    {
        match self.lines.checked_add(1) {
            Some(lines) => {
                self.lines = lines;
                Ok(())
            }
            None => Err(AllocError),
        }
    }

    /// Counts one more line with a message between these hosts, if they differ. Its receive would have taken the
    /// patterns in these words, each of which begins with `takes=`. It fails if the count would overflow.
    pub fn add_message(
        &mut self,
        peers: &[Peer<'a>],
        host: &[u8],
        peer: &[u8],
        words: &[&'a [u8]],
    ) -> Result<(), AllocError>
        ensures { OnOk result (observations_view self.new
            ≡ with_message host.now peer.now (patterns_of (map peer_view peers.now) (map (λ w. w.now) words.now)) (observations_view self.old)) }
    {
        if host == peer {
            return Ok(());
        }
        self.add_patterns(peers, words)?;
        self.add_line()
    }

    /// The same for words that may lack `takes=`.
    pub fn add_short_message(
        &mut self,
        peers: &[Peer<'a>],
        host: &[u8],
        peer: &[u8],
        words: &[&'a [u8]],
    ) -> Result<(), AllocError>
        ensures { OnOk result (observations_view self.new
            ≡ with_message host.now peer.now (short_patterns (map peer_view peers.now) (map (λ w. w.now) words.now)) (observations_view self.old)) }
    {
        if host != peer {
            self.add_short_patterns(peers, words)?;
            self.add_line()?;
        }
        Ok(())
    }

    /// Adds a receive at this place with a misspelled word.
    pub(crate) fn add_misspelled(&mut self, place: Place)
        ensures { observations_view self.new ≡ with_misspelled place (observations_view self.old) }
    {
        self.misspelled = Some(one_more(self.misspelled, place));
    }

    /// Adds the arrival of a message with this name and id.
    pub fn add_arrival(
        &mut self,
        host: &'a [u8],
        peer: &'a [u8],
        name: &'a [u8],
        id: Option<&'a [u8]>,
    ) -> Result<(), AllocError>
        ensures { OnOk result (observations_view self.new
            ≡ with_arrival host.now peer.now name.now (option_map (λ w. w.now) id.entry) (observations_view self.old)) }
    {
        self.arrived.push(Arrived {
            host,
            peer,
            name,
            id,
            at: self.lines,
        })?;
        Ok(())
    }
}
