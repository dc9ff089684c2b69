//! Lines of the preprocessor. Only the first branch of a condition is read, and no definition is.
ghost use Rattle.std.specs.Prelude.{◌≡◌};
ghost use Rattle.texts.specs.Words.{Finds};
ghost use Rattle.diagram_plantuml.specs.Directives.{behind_directive, is_directive, is_condition, is_other_branch, defined_at, behind_unquoted};
ghost use Rattle.diagram_plantuml.specs.Directives.{returns_at, is_one_line, definition_of, skip_of, ends_definition, ends_skip, deeper, behind_skip};

use diagram_plantuml_arrows::{Class, behind_byte, behind_gap, run_length};
use texts::{behind_blanks, behind_word};

/// The end of skipped lines.
#[derive(Clone, Copy, Debug)]
pub(crate) enum SkipEnd {
    Condition,
    Procedure,
    Function,
    DefineLong,
}

/// Skipped lines, and the number of open conditions among them (modulo 2^64).
#[derive(Clone, Copy, Debug)]
pub(crate) struct Skip {
    pub end: SkipEnd,
    pub depth: u64,
}

/// The text after this whole word, if it comes next.
#[tactic(auto, unfolding(crate::specs::Directives::behind_directive))]
fn behind_directive<'a>(word: &[u8], bytes: &'a [u8]) -> Option<&'a [u8]>
    ensures { Finds (λ rest. rest.now) result (behind_directive word.now bytes.now) }
{
    match behind_word(word, bytes) {
        Some(rest) if run_length(Class::Word, rest) == 0 => Some(rest),
        _ => None,
    }
}

fn is_directive(word: &[u8], bytes: &[u8]) -> bool
    ensures { result ≡ is_directive word.now bytes.now }
{
    behind_directive(word, bytes).is_some()
}

/// Whether a condition begins.
fn is_condition(words: &[u8]) -> bool
    ensures { result ≡ is_condition words.now }
{
    is_directive(b"!if", words) || is_directive(b"!ifdef", words) || is_directive(b"!ifndef", words)
}

/// Whether another branch of a condition begins.
fn is_other_branch(words: &[u8]) -> bool
    ensures { result ≡ is_other_branch words.now }
{
    is_directive(b"!else", words) || is_directive(b"!elseif", words)
}

/// The kind of definition that begins here, and the text after its word.
#[tactic(auto, unfolding(crate::specs::Directives::defined_at))]
fn defined_at(bytes: &[u8]) -> Option<(SkipEnd, &[u8])>
    ensures { Finds (λ d. (d.0, d.1.now)) result (defined_at bytes.now) }
{
    if let Some(rest) = behind_directive(b"procedure", bytes) {
        return Some((SkipEnd::Procedure, rest));
    }
    if let Some(rest) = behind_directive(b"function", bytes) {
        return Some((SkipEnd::Function, rest));
    }
    match behind_directive(b"definelong", bytes) {
        Some(rest) => Some((SkipEnd::DefineLong, rest)),
        None => None,
    }
}

/// The text after `unquoted` and the blanks after it, if it comes next.
#[tactic(auto, unfolding(crate::specs::Directives::behind_unquoted))]
fn behind_unquoted(bytes: &[u8]) -> &[u8]
    ensures { result.now ≡ behind_unquoted bytes.now }
{
    match behind_word(b"unquoted", bytes) {
        Some(rest) => match behind_gap(rest) {
            Some(behind) => behind,
            None => bytes,
        },
        None => bytes,
    }
}

/// Whether the result of a function follows its parameters here.
#[tactic(auto, unfolding(crate::specs::Directives::returns_at))]
fn returns_at(bytes: &[u8]) -> bool
    ensures { result ≡ returns_at bytes.now }
{
    match behind_byte(b')', bytes) {
        Some(rest) => is_directive(b"return", behind_blanks(rest)),
        None => false,
    }
}

/// Whether the whole function is in its line.
#[tactic(auto, unfolding(crate::specs::Directives::is_one_line))]
fn is_one_line(bytes: &[u8]) -> bool
    ensures { result ≡ is_one_line bytes.now }
{
    let mut rest = bytes;
    'bytes: while let [_, others @ ..] = rest {
        if returns_at(rest) {
            return true;
        }
        rest = others;
    }
    false
}

/// The end of the definition that begins here.
#[tactic(auto, unfolding(crate::specs::Directives::definition_of))]
fn definition_of(words: &[u8]) -> Option<SkipEnd>
    ensures { result ≡ definition_of words.now }
{
    let rest = behind_byte(b'!', words)?;
    let (end, behind) = defined_at(behind_unquoted(rest))?;
    match end {
        SkipEnd::Function if is_one_line(behind) => None,
        _ => Some(end),
    }
}

/// The lines to skip after this one.
#[tactic(auto, unfolding(crate::specs::Directives::skip_of))]
pub(crate) fn skip_of(words: &[u8]) -> Option<Skip>
    ensures { result ≡ skip_of words.now }
{
    if is_other_branch(words) {
        return Some(Skip {
            end: SkipEnd::Condition,
            depth: 0,
        });
    }
    match definition_of(words) {
        Some(end) => Some(Skip { end, depth: 0 }),
        None => None,
    }
}

/// Whether a line ends a definition.
#[tactic(auto, unfolding(crate::specs::Directives::ends_definition))]
fn ends_definition(word: &[u8], words: &[u8]) -> bool
    ensures { result ≡ ends_definition word.now words.now }
{
    match behind_word(b"!end", words) {
        Some(rest) => is_directive(word, behind_blanks(rest)),
        None => false,
    }
}

/// Whether a line ends the skipped lines.
fn ends_skip(end: SkipEnd, words: &[u8]) -> bool
    ensures { result ≡ ends_skip end words.now }
{
    match end {
        SkipEnd::Condition => is_directive(b"!endif", words),
        SkipEnd::Procedure => ends_definition(b"procedure", words),
        SkipEnd::Function => ends_definition(b"function", words),
        SkipEnd::DefineLong => ends_definition(b"definelong", words),
    }
}

/// The number of open conditions after a line.
#[tactic(auto, unfolding(crate::specs::Directives::deeper))]
fn deeper(depth: u64, words: &[u8]) -> u64
    ensures { result ≡ deeper depth words.now }
{
    if is_condition(words) {
        depth.wrapping_add(1)
    } else if is_directive(b"!endif", words) {
        depth.wrapping_add(u64::MAX)
    } else {
        depth
    }
}

/// The lines that are still to be skipped after this one.
#[tactic(auto, unfolding(crate::specs::Directives::behind_skip))]
pub(crate) fn behind_skip(skip: Skip, words: &[u8]) -> Option<Skip>
    ensures { result ≡ behind_skip skip words.now }
{
    if skip.depth == 0 && ends_skip(skip.end, words) {
        None
    } else {
        Some(Skip {
            end: skip.end,
            depth: deeper(skip.depth, words),
        })
    }
}
