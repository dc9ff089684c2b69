//! Statements that name a participant.
ghost use Rattle.std.specs.Prelude.{◌≡◌, ◌+◌, ◌≤◌, length, IfSome, option_map};
ghost use Rattle.texts.specs.Words.{Finds};
ghost use Rattle.diagram_plantuml_statements.specs.Participants.{declared_view, last_place, order_length, decoration_length, next_within, decorated};
ghost use Rattle.diagram_plantuml_statements.specs.Participants.{opens, with_decoration, behind_as, labelled, worded, shortened, plain, named_in};
ghost use Rattle.diagram_plantuml_statements.specs.Participants.{behind_create, behind_kind, kind_in, participant_of};

use diagram_plantuml_arrows::{Class, behind_gap, name_at, quoted_at, run_at, run_length};
use diagram_statements::End;
use texts::bytes::is_blank;
use texts::{begins, begins_with, behind_keyword_of, behind_word, blank_length};

/// The words for the kinds of participants.
const KINDS: [&[u8]; 8] = [
    b"participant",
    b"actor",
    b"boundary",
    b"control",
    b"entity",
    b"queue",
    b"database",
    b"collections",
];

/// A participant, and whether a block with more about it begins.
#[derive(Clone, Copy, Debug)]
pub(crate) struct Declared<'a> {
    pub end: End<'a>,
    pub opens: bool,
}

/// The last place of these bytes.
#[tactic(auto, unfolding(crate::specs::Participants::last_place), using(crate::proofs::PlaceLoops::later))]
pub fn last_place(known: &[u8], bytes: &[u8]) -> Option<usize>
    ensures value { result ≡ last_place known.now bytes.now }
    ensures within { IfSome result (λ place. place + length known.now ≤ length bytes.now) }
{
    let mut last = None;
    let mut passed = 0;
    let mut rest = bytes;
    'bytes: while let [_, others @ ..] = rest {
        last = if begins_with(rest, known) {
            Some(passed)
        } else {
            last
        };
        passed += 1;
        rest = others;
    }
    last
}

/// The length of an order after its word, if it is one.
#[tactic(auto, unfolding(crate::specs::Participants::order_length))]
fn order_length(bytes: &[u8]) -> Option<usize>
    ensures value { result ≡ order_length bytes.now }
    ensures within { IfSome result (λ l. l ≤ length bytes.now) }
{
    let blanks = blank_length(bytes);
    let sign = if begins_with(&bytes[blanks..], b"-") {
        1
    } else {
        0
    };
    let digits = run_length(Class::Digit, &bytes[blanks + sign..]);
    if blanks == 0 || digits == 0 {
        None
    } else {
        Some(blanks + sign + digits)
    }
}

/// The length of the decoration that comes next: a blank, a stereotype, a link, a colour or an order.
#[tactic(auto, unfolding(crate::specs::Participants::decoration_length))]
fn decoration_length(bytes: &[u8]) -> Option<usize>
    ensures value { result ≡ decoration_length bytes.now }
{
    let [first, others @ ..] = bytes else {
        return None;
    };
    if is_blank(*first) {
        return Some(1);
    }
    if begins_with(bytes, b"<<") {
        return match last_place(b">>", &bytes[2..]) {
            Some(place) => Some(place + 4),
            None => None,
        };
    }
    if begins_with(bytes, b"[[") {
        return match last_place(b"]]", &bytes[2..]) {
            Some(place) => Some(place + 4),
            None => None,
        };
    }
    if *first == b'#' {
        let length = run_length(Class::Solid, others);
        return if length == 0 { None } else { Some(length + 1) };
    }
    if !begins(b"order", bytes) {
        return None;
    }
    match order_length(&bytes[5..]) {
        Some(length) => Some(length + 5),
        None => None,
    }
}

/// The number of bytes after the first one that still belong to a decoration.
#[tactic(auto, unfolding(crate::specs::Participants::next_within))]
fn next_within(within: usize, bytes: &[u8]) -> Option<usize>
    ensures { result ≡ next_within within bytes.now }
{
    if within > 0 {
        return Some(within - 1);
    }
    match decoration_length(bytes) {
        Some(length) => Some(length.saturating_sub(1)),
        None => None,
    }
}

/// Whether a block begins after decorations, if nothing else is there.
#[tactic(auto, unfolding(crate::specs::Participants::decorated))]
fn decorated(bytes: &[u8]) -> Option<bool>
    ensures { result ≡ decorated 0 bytes.now }
{
    let mut within = 0;
    let mut rest = bytes;
    'bytes: while let [_, others @ ..] = rest {
        let Some(next) = next_within(within, rest) else {
            return opens(rest);
        };
        within = next;
        rest = others;
    }
    Some(false)
}

/// A bracket alone begins a block.
fn opens(bytes: &[u8]) -> Option<bool>
    ensures { result ≡ opens bytes.now }
{
    if bytes == b"[".as_slice() {
        Some(true)
    } else {
        None
    }
}

/// A participant with the text after it.
#[tactic(auto, unfolding(crate::specs::Participants::with_decoration))]
fn with_decoration<'a>(
    word: &'a [u8],
    label: Option<&'a [u8]>,
    bytes: &'a [u8],
) -> Option<Declared<'a>>
    ensures { Finds declared_view result (with_decoration word.now (option_map (λ label. label.now) label.entry) bytes.now) }
{
    let opens = decorated(bytes)?;
    Some(Declared {
        end: End { word, label },
        opens,
    })
}

/// The text after `as` and the blanks around it.
#[tactic(auto, unfolding(crate::specs::Participants::behind_as))]
fn behind_as(bytes: &[u8]) -> Option<&[u8]>
    ensures { Finds (λ rest. rest.now) result (behind_as bytes.now) }
{
    behind_gap(behind_word(b"as", behind_gap(bytes)?)?)
}

/// `"Label" as Word`
#[tactic(auto, unfolding(crate::specs::Participants::labelled))]
fn labelled(bytes: &[u8]) -> Option<Declared<'_>>
    ensures { Finds declared_view result (labelled bytes.now) }
{
    let (label, rest) = quoted_at(bytes)?;
    let (word, behind) = run_at(Class::Name, behind_as(rest)?)?;
    with_decoration(word, Some(label), behind)
}

/// `Word as "Label"`
#[tactic(auto, unfolding(crate::specs::Participants::worded))]
fn worded(bytes: &[u8]) -> Option<Declared<'_>>
    ensures { Finds declared_view result (worded bytes.now) }
{
    let (word, rest) = run_at(Class::Name, bytes)?;
    let (label, behind) = quoted_at(behind_as(rest)?)?;
    with_decoration(word, Some(label), behind)
}

/// `Label as Word`
#[tactic(auto, unfolding(crate::specs::Participants::shortened))]
fn shortened(bytes: &[u8]) -> Option<Declared<'_>>
    ensures { Finds declared_view result (shortened bytes.now) }
{
    let (label, rest) = run_at(Class::Name, bytes)?;
    let (word, behind) = run_at(Class::Name, behind_as(rest)?)?;
    with_decoration(word, Some(label), behind)
}

/// A single name.
#[tactic(auto, unfolding(crate::specs::Participants::plain))]
fn plain(bytes: &[u8]) -> Option<Declared<'_>>
    ensures { Finds declared_view result (plain bytes.now) }
{
    let (word, rest) = name_at(bytes)?;
    with_decoration(word, None, rest)
}

/// The participant that comes next, in the first of these forms that it has.
#[tactic(auto, unfolding(crate::specs::Participants::named_in))]
fn named_in(bytes: &[u8]) -> Option<Declared<'_>>
    ensures { Finds declared_view result (named_in bytes.now) }
{
    if let Some(found) = labelled(bytes) {
        return Some(found);
    }
    if let Some(found) = worded(bytes) {
        return Some(found);
    }
    match shortened(bytes) {
        Some(found) => Some(found),
        None => plain(bytes),
    }
}

/// The text after the word for a creation.
#[tactic(auto, unfolding(crate::specs::Participants::behind_create))]
fn behind_create(words: &[u8]) -> Option<&[u8]>
    ensures { Finds (λ rest. rest.now) result (behind_create words.now) }
{
    behind_gap(behind_word(b"create", words)?)
}

/// The text after the word for a kind.
#[tactic(auto, unfolding(crate::specs::Participants::behind_kind))]
fn behind_kind(words: &[u8]) -> Option<&[u8]>
    ensures { Finds (λ rest. rest.now) result (behind_kind words.now) }
{
    behind_keyword_of(&KINDS, words)
}

/// The participant after the word for its kind.
#[tactic(auto, unfolding(crate::specs::Participants::kind_in))]
fn kind_in(words: &[u8]) -> Option<Declared<'_>>
    ensures { Finds declared_view result (kind_in words.now) }
{
    let rest = behind_kind(words)?;
    named_in(behind_gap(rest)?)
}

/// The participant that a statement names, if it names one.
#[tactic(auto, unfolding(crate::specs::Participants::participant_of))]
pub(crate) fn participant_of(words: &[u8]) -> Option<Declared<'_>>
    ensures { Finds declared_view result (participant_of words.now) }
{
    let Some(created) = behind_create(words) else {
        return kind_in(words);
    };
    match kind_in(created) {
        Some(found) => Some(found),
        None => named_in(created),
    }
}
