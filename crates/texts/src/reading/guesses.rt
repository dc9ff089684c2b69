//! Words as names. Most words were read before. For these, neither a look at each byte nor a look-up in a table of
//! names is needed.
ghost use Rattle.std.specs.Prelude.{◌≡◌, ◌<◌, Ok, IfSome, IsTrue};
ghost use Rattle.chart.specs.Names.{IsName};
ghost use Rattle.texts.specs.Instances.{known_of};
ghost use Rattle.texts.specs.Lines.{name_or_cause};
ghost use Rattle.texts.specs.Reading.NamedWords.{IsNamed};
ghost use Rattle.texts.specs.declared.reading.guesses.TheConstants.{GUESSES};

use crate::{Cause, known_in, name_in};
use chart::{InstanceNo, MAX_INSTANCES, Name, Names};

/// The number of guesses of each kind.
const GUESSES: usize = 64;

/// Guesses for words, by their last bytes: the place of the instance that a word may name, and the name that it may be.
/// A guess is checked before it is used, so it may be anything.
#[derive(Drop)]
pub struct Guesses {
    places: [u8; GUESSES],
    names: [Option<Name>; GUESSES],
}

/// The number of the guess for a word.
#[inline(always)]
fn guess_of(word: &[u8]) -> usize
    ensures { result < GUESSES }
{
    match word {
        [] => 0,
        [last] => *last as usize % GUESSES,
        [.., before, last] => (*before as usize * 10 + *last as usize) % GUESSES,
    }
}

/// Whether the name is this word.
#[inline(always)]
fn is_word(name: &Name, word: &[u8]) -> bool
    ensures same { IsTrue result → name.now ≡ word.now }
    ensures name { IsTrue result → IsName word.now }
{
    name.as_bytes() == word
}

impl Guesses {
    /// No word was read yet.
    pub fn new() -> Guesses {
        Guesses {
            places: [0; GUESSES],
            names: [None; GUESSES],
        }
    }

    /// The guessed instance, if the word is its name.
    #[inline(always)]
    fn guessed(&self, names: &Names, word: &[u8]) -> Option<InstanceNo>
        ensures { IfSome result (λ p. (name_or_cause word.now ≡ Ok word.now) × (known_of names.now word.now ≡ Ok p)) }
    {
        let instance = InstanceNo::at_place(self.places[guess_of(word)] as usize % MAX_INSTANCES);
        prove!(names.len() <= MAX_INSTANCES);
        match names.name(instance) {
            Some(name) if is_word(&name, word) => Some(instance),
            _ => None,
        }
    }

    /// The instance that a word names, or F23. If the word is no name, the first of F1 to F4 that applies.
    #[inline(always)]
    pub fn instance(
        &mut self,
        names: &Names,
        word: &[u8],
    ) -> Result<Result<InstanceNo, Cause>, Cause>
        ensures { IsNamed names.now word.now result }
    {
        match self.guessed(names, word) {
            Some(instance) => Ok(Ok(instance)),
            None => self.look_up(names, word),
        }
    }

    /// The same after a wrong guess. The next guess for this word is right.
    #[inline(never)]
    fn look_up(&mut self, names: &Names, word: &[u8]) -> Result<Result<InstanceNo, Cause>, Cause>
        ensures { IsNamed names.now word.now result }
    {
        let name = name_in(word)?;
        let found = known_in(names, name);
        if let Ok(instance) = found {
            self.places[guess_of(word)] = (instance.place() % 256) as u8;
        }
        Ok(found)
    }

    /// The guessed name, if it is this word.
    #[inline(always)]
    fn guessed_name(&self, word: &[u8]) -> Option<Name>
        ensures { IfSome result (λ name. name_or_cause word.now ≡ Ok name) }
    {
        match &self.names[guess_of(word)] {
            Some(name) if is_word(name, word) => Some(*name),
            _ => None,
        }
    }

    /// The word as a name, or the first of F1 to F4 that applies.
    #[inline(always)]
    pub fn name(&mut self, word: &[u8]) -> Result<Name, Cause>
        ensures { result ≡ name_or_cause word.now }
    {
        match self.guessed_name(word) {
            Some(name) => Ok(name),
            None => self.read(word),
        }
    }

    /// The same after a wrong guess. The next guess for this word is right.
    #[inline(never)]
    fn read(&mut self, word: &[u8]) -> Result<Name, Cause>
        ensures { result ≡ name_or_cause word.now }
    {
        let name = name_in(word)?;
        self.names[guess_of(word)] = Some(name);
        Ok(name)
    }
}
