//! The first two lines: the instances' names, and the capacity.
ghost use Rattle.std.specs.Prelude.{◌≡◌, IsTrue};
ghost use Rattle.std.specs.Char.{is_ascii_digit};
ghost use Rattle.std.specs.List.{list_all};
ghost use Rattle.texts.specs.Faults.{Gives, in_line};
ghost use Rattle.texts.specs.Lines.{words_of, is_word};
ghost use Rattle.schedule.specs.FirstLines.{are_words, with_word, with_words, instances_of, names_of, is_number, slots, slots_of, capacity_of};

use crate::keyword::ScheduleWord;
use crate::schedule::Capacity;
use chart::Names;
use std::alloc::Global;
use texts::{Cause, TextError, Words, add_name, at_line, fault_at, name_in, next_word, words_in};

/// Whether each word has at least one byte.
fn are_words(line: &[u8]) -> bool
    ensures { result ≡ are_words (words_of line.now) }
{
    let mut rest = line;
    'words: loop {
        let (word, more) = next_word(rest);
        if word.is_empty() {
            return false;
        }
        match more {
            None => return true,
            Some(more) => rest = more,
        }
    }
}

/// Adds the word as the name of the next instance. The first of F1 to F4, F22 and F8 that applies refuses it.
#[tactic(auto, unfolding(crate::specs::FirstLines::with_word))]
fn add_word(names: &mut Names, word: &[u8]) -> Result<(), TextError>
    ensures { Gives (λ _. names.new) result (in_line 1 (with_word names.old word.now)) }
{
    let name = at_line(1, name_in(word))?;
    add_name(1, names, name)
}

/// Adds each word as the name of the next instance.
fn add_words(names: &mut Names, words: &[u8]) -> Result<(), TextError>
    ensures { Gives (λ _. names.new) result (in_line 1 (with_words names.old (words_of words.now))) }
{
    let mut rest = words;
    'words: loop {
        let (word, more) = next_word(rest);
        add_word(names, word)?;
        match more {
            None => return Ok(()),
            Some(more) => rest = more,
        }
    }
}

/// The instances that the words name, or F8 if there is only one.
fn instances_in(alloc: Global, words: &[u8]) -> Result<Names, TextError>
    ensures { Gives (λ n. n) result (in_line 1 (instances_of (words_of words.now))) }
{
    let mut names = Names::new(alloc);
    add_words(&mut names, words)?;
    if names.len() < 2 {
        return Err(fault_at(1, Cause::Instances));
    }
    Ok(names)
}

/// The names of line 1, or F20 if the line has another form.
#[tactic(auto, unfolding(crate::specs::FirstLines::names_of))]
pub(crate) fn names_in(alloc: Global, line: &[u8]) -> Result<Names, TextError>
    ensures { Gives (λ n. n) result (in_line 1 (names_of line.now)) }
{
    let (keyword, words) = next_word(line);
    let Some(words) = words else {
        return Err(fault_at(1, Cause::Syntax));
    };
    if !ScheduleWord::Instances.is(keyword) || !are_words(words) {
        return Err(fault_at(1, Cause::Syntax));
    }
    instances_in(alloc, words)
}

fn are_digits(bytes: &[u8]) -> bool
    ensures { result ≡ list_all is_ascii_digit bytes.now }
{
    bytes.iter().all(|b| b.is_ascii_digit())
}

/// Whether the word is a decimal number without leading zeros.
#[tactic(auto, unfolding(crate::specs::FirstLines::is_number))]
fn is_number(word: &[u8]) -> bool
    ensures { result ≡ is_number word.now }
{
    match word {
        [] => false,
        [first, rest @ ..] => {
            first.is_ascii_digit() && are_digits(rest) && (rest.is_empty() || *first != b'0')
        }
    }
}

/// A capacity of this number of slots, or F9.
fn slots_in(number: u8) -> Result<Capacity, Cause>
    ensures { result ≡ slots number }
{
    Capacity::new(usize::from(number)).ok_or(Cause::Capacity)
}

/// The capacity that the digits name, or F9. A number of three digits is greater than any capacity.
#[tactic(auto, unfolding(crate::specs::FirstLines::slots_of, crate::specs::FirstLines::is_number))]
fn slots_of(digits: &[u8]) -> Result<Capacity, Cause>
    requires { IsTrue (is_number digits.now) }
    ensures { result ≡ slots_of digits.now }
{
    match digits {
        [ones] => slots_in(*ones - b'0'),
        [tens, ones] => slots_in(10 * (*tens - b'0') + (*ones - b'0')),
        [_, _, _, ..] => Err(Cause::Capacity),
        [] => unreachable!(),
    }
}

/// The capacity of line 2, or F20 if the line has another form.
#[tactic(auto, unfolding(crate::specs::FirstLines::capacity_of))]
pub(crate) fn capacity_in(line: &[u8]) -> Result<Capacity, Cause>
    ensures { result ≡ capacity_of line.now }
{
    match words_in(line) {
        Words::Two(keyword, digits) if ScheduleWord::Capacity.is(keyword) && is_number(digits) => {
            slots_of(digits)
        }
        _ => Err(Cause::Syntax),
    }
}
