//! The words of mscgen's language, which are case-insensitive.
ghost use Rattle.std.specs.Prelude.{◌≡◌, ◌↔◌, IsTrue, map};
ghost use Rattle.std.specs.List.{list_any};
ghost use Rattle.diagram_mscgen.specs.Grammar.Words.{is_one_of, is_option, is_style, box_of, attribute_name};
ghost use Rattle.texts.specs.Bytes.Words.{is_spelled};

use crate::grammar::relation::Relation;
use texts::bytes::is_spelled;

/// The names of options, which come before `=`.
const OPTIONS: [&[u8]; 4] = [b"hscale", b"width", b"arcgradient", b"wordwraparcs"];

/// Boxes around entities.
const BOXES: [&[u8]; 3] = [b"box", b"abox", b"rbox"];

/// Attributes that only change how something is drawn.
const STYLES: [&[u8]; 15] = [
    b"url",
    b"id",
    b"idurl",
    b"linecolour",
    b"linecolor",
    b"textcolour",
    b"textcolor",
    b"textbgcolour",
    b"textbgcolor",
    b"arclinecolour",
    b"arclinecolor",
    b"arctextcolour",
    b"arctextcolor",
    b"arctextbgcolour",
    b"arctextbgcolor",
];

/// The meaning of an attribute's name.
#[derive(Clone, Copy, Debug)]
pub(crate) enum AttributeName {
    Label,
    /// How many rows further down an arc ends.
    Skip,
    /// How something is drawn.
    Style,
}

fn has_word(words: &[&[u8]], word: &[u8]) -> bool
    ensures { result ≡ list_any (λ known. is_spelled known.now word.now) words.now }
{
    words.iter().any(|known| is_spelled(*known, word))
}

/// Whether the word is one of these, case-insensitively.
fn is_one_of(words: &[&[u8]], word: &[u8]) -> bool
    ensures { result ≡ is_one_of (map (λ known. known.now) words.now) word.now }
{
    has_word(words, word)
}

/// Whether the word is the name of an option.
#[tactic(auto, unfolding(crate::specs::Grammar::Words::is_option))]
pub(crate) fn is_option(word: &[u8]) -> bool
    ensures { result ≡ is_option word.now }
{
    is_one_of(&OPTIONS, word)
}

/// Whether an attribute of this name only changes how something is drawn.
#[tactic(auto, unfolding(crate::specs::Grammar::Words::is_style))]
fn is_style(word: &[u8]) -> bool
    ensures { result ≡ is_style word.now }
{
    is_one_of(&STYLES, word)
}

/// The meaning of a word between two entities.
#[tactic(auto, unfolding(crate::specs::Grammar::Words::box_of))]
pub(crate) fn box_of(word: &[u8]) -> Option<Relation>
    ensures { result ≡ box_of word.now }
{
    if is_one_of(&BOXES, word) {
        Some(Relation::Box)
    } else if is_spelled(b"note", word) {
        Some(Relation::Note)
    } else {
        None
    }
}

/// The meaning of an attribute's name.
#[tactic(auto, unfolding(crate::specs::Grammar::Words::attribute_name))]
pub(crate) fn attribute_name(word: &[u8]) -> Option<AttributeName>
    ensures { result ≡ attribute_name word.now }
{
    if is_spelled(b"label", word) {
        Some(AttributeName::Label)
    } else if is_spelled(b"arcskip", word) {
        Some(AttributeName::Skip)
    } else if is_style(word) {
        Some(AttributeName::Style)
    } else {
        None
    }
}
