//! Statements that only concern how a diagram looks, and blocks of lines.
ghost use Rattle.std.specs.Prelude.{◌≡◌, ◌-◌, ◌==◌, slice_get, length};
ghost use Rattle.std.specs.List.{list_all};
ghost use Rattle.texts.specs.Words.{Finds};
ghost use Rattle.diagram_plantuml_statements.specs.Looks.{begins_text, ends_with_brace, behind_side, header_at, has_text, is_titled, has_no_brace, is_set};
ghost use Rattle.diagram_plantuml_statements.specs.Looks.{is_set_for, setting_rest, is_named_set, is_setting, is_early_look, opens_braces, opens_sprite};
ghost use Rattle.diagram_plantuml_statements.specs.Looks.{header_block, block_of, is_page, is_footbox, are_bars, is_space, is_duration, behind_look_word, behind_other_look_word, is_look_word};
ghost use Rattle.diagram_plantuml_statements.specs.Looks.{is_late_look};

use diagram_plantuml_arrows::{Class, behind_brace, behind_gap, behind_run, colon_tail};
use texts::bytes::{is_blank, is_spelled};
use texts::{
    begins_blank, begins_with, behind_blanks, behind_keyword, behind_keyword_of, behind_word,
    blank_length, place_of, skip_word,
};

/// Words about how the diagram looks.
const LOOK_WORDS: [&[u8]; 6] = [
    b"skin",
    b"allowmixing",
    b"allow_mixing",
    b"scale",
    b"rotate",
    b"minwidth",
];

/// More of these words.
const MORE_LOOK_WORDS: [&[u8]; 6] = [
    b"sprite",
    b"url",
    b"autonumber",
    b"autonewpage",
    b"hide",
    b"show",
];

/// A block of lines, which continues up to its end.
#[derive(Clone, Copy, Debug)]
pub enum Block {
    Title,
    Legend,
    Header,
    Footer,
    Style,
    Sprite,
    /// Lines in braces, with the number of open braces.
    Braces(u64),
    Note,
    Reference,
    Participant,
}

/// Whether a blank or a colon comes next.
fn begins_text(bytes: &[u8]) -> bool
    ensures { result ≡ begins_text bytes.now }
{
    match bytes {
        [] => false,
        [byte, ..] => is_blank(*byte) || *byte == b':',
    }
}

fn last_byte(bytes: &[u8]) -> Option<u8>
    ensures { result ≡ slice_get bytes.now (length bytes.now - 1) }
{
    match bytes {
        [] => None,
        [.., last] => Some(*last),
    }
}

pub fn ends_with_brace(bytes: &[u8]) -> bool
    ensures { result ≡ ends_with_brace bytes.now }
{
    match last_byte(bytes) {
        Some(byte) => byte == b'{',
        None => false,
    }
}

/// The text after the word for a side, if one comes next.
#[tactic(auto, unfolding(crate::specs::Looks::behind_side))]
fn behind_side(words: &[u8]) -> &[u8]
    ensures { result.now ≡ behind_side words.now }
{
    if let Some(rest) = behind_word(b"left", words) {
        return behind_blanks(rest);
    }
    if let Some(rest) = behind_word(b"right", words) {
        return behind_blanks(rest);
    }
    match behind_word(b"center", words) {
        Some(rest) => behind_blanks(rest),
        None => words,
    }
}

/// The header or the footer that comes next, and the text after its word.
#[tactic(auto, unfolding(crate::specs::Looks::header_at))]
fn header_at(words: &[u8]) -> Option<(Block, &[u8])>
    ensures { Finds (λ header. (header.0, header.1.now)) result (header_at words.now) }
{
    let rest = behind_side(words);
    if let Some(behind) = behind_word(b"header", rest) {
        return Some((Block::Header, behind));
    }
    match behind_word(b"footer", rest) {
        Some(behind) => Some((Block::Footer, behind)),
        None => None,
    }
}

/// Whether a text follows this word.
#[tactic(auto, unfolding(crate::specs::Looks::has_text))]
fn has_text(word: &[u8], words: &[u8]) -> bool
    ensures { result ≡ has_text word.now words.now }
{
    match behind_word(word, words) {
        Some(rest) => begins_text(rest),
        None => false,
    }
}

/// Whether a statement is a title, or another text around the diagram.
#[tactic(auto, unfolding(crate::specs::Looks::is_titled))]
fn is_titled(words: &[u8]) -> bool
    ensures { result ≡ is_titled words.now }
{
    if has_text(b"title", words) || has_text(b"mainframe", words) || has_text(b"caption", words) {
        return true;
    }
    match header_at(words) {
        Some((_, rest)) => begins_text(rest),
        None => false,
    }
}

fn has_no_brace(bytes: &[u8]) -> bool
    ensures { result ≡ has_no_brace bytes.now }
{
    bytes.iter().all(|byte| *byte != b'{' && *byte != b'}')
}

/// Whether a value follows the name of a setting.
#[tactic(auto, unfolding(crate::specs::Looks::is_set))]
fn is_set(bytes: &[u8]) -> bool
    ensures { result ≡ is_set bytes.now }
{
    begins_blank(bytes) && has_no_brace(bytes)
}

/// Whether a stereotype follows the name of a setting, and a value follows the stereotype.
#[tactic(auto, unfolding(crate::specs::Looks::is_set_for))]
fn is_set_for(bytes: &[u8]) -> bool
    ensures { result ≡ is_set_for bytes.now }
{
    if !begins_with(bytes, b"<<") {
        return false;
    }
    match place_of(b">>", &bytes[2..]) {
        Some(place) => is_set(behind_run(Class::Style, &bytes[place + 4..])),
        None => false,
    }
}

/// The text after the word for settings.
#[tactic(auto, unfolding(crate::specs::Looks::setting_rest))]
fn setting_rest(words: &[u8]) -> Option<&[u8]>
    ensures { Finds (λ rest. rest.now) result (setting_rest words.now) }
{
    match behind_word(b"skinparam", words) {
        Some(rest) => Some(skip_word(b"locked", rest)),
        None => None,
    }
}

/// Whether a name and a value follow the word for settings.
#[tactic(auto, unfolding(crate::specs::Looks::is_named_set))]
fn is_named_set(rest: &[u8]) -> bool
    ensures { result ≡ is_named_set rest.now }
{
    let named = behind_blanks(rest);
    let behind = behind_run(Class::Style, named);
    begins_blank(rest)
        && (is_set(behind) || is_set_for(behind) || (blank_length(rest) > 1 && has_no_brace(named)))
}

/// Whether a statement sets how something looks.
#[tactic(auto, unfolding(crate::specs::Looks::is_setting))]
fn is_setting(words: &[u8]) -> bool
    ensures { result ≡ is_setting words.now }
{
    match setting_rest(words) {
        Some(rest) => is_named_set(rest),
        None => false,
    }
}

/// Whether a statement only concerns how the diagram looks, in a form that is tried before arrows.
#[tactic(auto, unfolding(crate::specs::Looks::is_early_look))]
pub(crate) fn is_early_look(words: &[u8]) -> bool
    ensures { result ≡ is_early_look words.now }
{
    is_titled(words) || is_setting(words)
}

/// Whether a statement begins settings in braces.
#[tactic(auto, unfolding(crate::specs::Looks::opens_braces))]
fn opens_braces(words: &[u8]) -> bool
    ensures { result ≡ opens_braces words.now }
{
    match setting_rest(words) {
        Some(rest) => { rest == b"{".as_slice() || (begins_blank(rest) && ends_with_brace(rest)) }
        None => false,
    }
}

/// Whether a statement begins a picture in braces.
#[tactic(auto, unfolding(crate::specs::Looks::opens_sprite))]
fn opens_sprite(words: &[u8]) -> bool
    ensures { result ≡ opens_sprite words.now }
{
    match behind_word(b"sprite", words) {
        Some(rest) => begins_blank(rest) && ends_with_brace(rest),
        None => false,
    }
}

/// The header or the footer that extends over several lines.
#[tactic(auto, unfolding(crate::specs::Looks::header_block))]
fn header_block(words: &[u8]) -> Option<Block>
    ensures { result ≡ header_block words.now }
{
    match header_at(words) {
        Some((block, rest)) if rest.is_empty() => Some(block),
        _ => None,
    }
}

/// The block that begins with a statement about looks.
#[tactic(auto, unfolding(crate::specs::Looks::block_of))]
pub(crate) fn block_of(words: &[u8]) -> Option<Block>
    ensures { result ≡ block_of words.now }
{
    if is_spelled(b"title", words) {
        return Some(Block::Title);
    }
    if behind_keyword(b"legend", words).is_some() {
        return Some(Block::Legend);
    }
    if let Some(block) = header_block(words) {
        return Some(block);
    }
    if is_spelled(b"<style>", words) {
        return Some(Block::Style);
    }
    if opens_sprite(words) {
        return Some(Block::Sprite);
    }
    if opens_braces(words) {
        Some(Block::Braces(1))
    } else {
        None
    }
}

/// Whether a statement begins a page, or states that none begins.
#[tactic(auto, unfolding(crate::specs::Looks::is_page))]
fn is_page(words: &[u8]) -> bool
    ensures { result ≡ is_page words.now }
{
    if let Some(rest) = behind_word(b"ignore", words) {
        return is_spelled(b"newpage", behind_blanks(rest));
    }
    match behind_word(b"newpage", skip_word(b"@", words)) {
        Some(rest) => rest.is_empty() || begins_text(rest),
        None => false,
    }
}

/// Whether a statement shows or hides the participants below.
#[tactic(auto, unfolding(crate::specs::Looks::is_footbox))]
fn is_footbox(words: &[u8]) -> bool
    ensures { result ≡ is_footbox words.now }
{
    let Some(rest) = behind_word(
        b"footbox",
        behind_blanks(skip_word(b"show", skip_word(b"hide", words))),
    ) else {
        return false;
    };
    match behind_gap(rest) {
        Some(word) => is_spelled(b"on", word) || is_spelled(b"off", word),
        None => rest.is_empty(),
    }
}

fn has_only_bars(bytes: &[u8]) -> bool
    ensures { result ≡ list_all (λ b. b == 124) bytes.now }
{
    bytes.iter().all(|byte| *byte == b'|')
}

/// Whether bytes are bars, one at least.
fn are_bars(bytes: &[u8]) -> bool
    ensures { result ≡ are_bars bytes.now }
{
    !bytes.is_empty() && has_only_bars(bytes)
}

/// Whether a statement leaves space: `|||` or `||20||`.
#[tactic(auto, unfolding(crate::specs::Looks::is_space))]
fn is_space(words: &[u8]) -> bool
    ensures { result ≡ is_space words.now }
{
    match behind_word(b"||", words) {
        Some(rest) => are_bars(behind_run(Class::Digit, rest)),
        None => false,
    }
}

/// Whether a statement gives the duration between two anchors.
#[tactic(auto, unfolding(crate::specs::Looks::is_duration))]
fn is_duration(words: &[u8]) -> bool
    ensures { result ≡ is_duration words.now }
{
    let Some(rest) = behind_brace(words) else {
        return false;
    };
    let Some(to) = behind_word(b"<->", behind_blanks(rest)) else {
        return false;
    };
    match behind_brace(behind_blanks(to)) {
        Some(behind) => colon_tail(behind).is_some(),
        None => false,
    }
}

#[tactic(auto, unfolding(crate::specs::Looks::behind_look_word))]
fn behind_look_word(words: &[u8]) -> Option<&[u8]>
    ensures { Finds (λ rest. rest.now) result (behind_look_word words.now) }
{
    behind_keyword_of(&LOOK_WORDS, words)
}

#[tactic(auto, unfolding(crate::specs::Looks::behind_other_look_word))]
fn behind_other_look_word(words: &[u8]) -> Option<&[u8]>
    ensures { Finds (λ rest. rest.now) result (behind_other_look_word words.now) }
{
    behind_keyword_of(&MORE_LOOK_WORDS, words)
}

/// Whether a statement begins with a word about how the diagram looks.
#[tactic(auto, unfolding(crate::specs::Looks::is_look_word))]
fn is_look_word(words: &[u8]) -> bool
    ensures { result ≡ is_look_word words.now }
{
    behind_look_word(words).is_some() || behind_other_look_word(words).is_some()
}

/// Whether a statement only concerns how the diagram looks, in a form that is tried after all others.
#[tactic(auto, unfolding(crate::specs::Looks::is_late_look))]
pub(crate) fn is_late_look(words: &[u8]) -> bool
    ensures { result ≡ is_late_look words.now }
{
    is_look_word(words)
        || is_page(words)
        || is_footbox(words)
        || is_space(words)
        || is_duration(words)
}
