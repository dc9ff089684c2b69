//! The pieces of a text that are statements: without its title block, directives, comments and descriptions.
ghost use Rattle.std.specs.Prelude.{◌≡◌, ◌++◌, ◌≤◌, ◌<◌, ◌+◌, ◌^◌, length, map, IfSome, IfOk, OnOk, not, position, bytes_eq, codes, ◌-◌};
ghost use Rattle.texts.specs.Words.{Finds};
ghost use Rattle.diagram_statements.specs.Statements.{line_view};
ghost use Rattle.texts.specs.Bytes.Classes.{is_word_byte};
ghost use Rattle.diagram_mermaid.specs.Pieces.{opened_view, end_of, is_described, block_at, behind_end, behind_blocks, Room, is_remark};
ghost use Rattle.diagram_mermaid.specs.Pieces.{word_length, character_length, next_within, piece_length, listed, pieces_of, open_pieces, stepped, Steps};

use diagram_statements::Line;
use std::alloc::AllocError;
use texts::bytes::is_word_byte;
use texts::{begins_with, behind_blanks, behind_word, place_of};

/// A block that may extend over several lines.
#[derive(Clone, Copy, Debug)]
pub(crate) enum Block {
    Directive,
    Description,
}

/// The position of a reader of lines.
#[derive(Clone, Copy, Debug)]
pub(crate) enum Standing {
    /// Only blank lines are above.
    Above,
    /// In the title block.
    Title,
    /// Between lines.
    Body,
    /// In a block that no line above ends.
    Inside(Block),
}

/// The rest of a line after the blocks with which it begins.
#[derive(Clone, Copy, Debug)]
pub(crate) enum Opened<'a> {
    /// It begins a block that it doesn't end.
    Waits(Block),
    Left(Line<'a>),
}

/// The bytes that end a block.
fn end_of(block: Block) -> &'static [u8]
    ensures value { result.now ≡ end_of block }
    ensures some { 0 < length result.now }
{
    match block {
        Block::Directive => b"}%%",
        Block::Description => b"}",
    }
}

/// Whether this word comes next, with this sign after it.
#[tactic(auto, unfolding(crate::specs::Pieces::is_described))]
fn is_described(word: &[u8], sign: &[u8], words: &[u8]) -> bool
    ensures { result ≡ is_described word.now sign.now words.now }
{
    match behind_word(word, words) {
        Some(rest) => begins_with(behind_blanks(rest), sign),
        None => false,
    }
}

/// The block that begins here.
#[tactic(auto, unfolding(crate::specs::Pieces::block_at))]
fn block_at(words: &[u8]) -> Option<Block>
    ensures { result ≡ block_at words.now }
{
    if begins_with(words, b"%%{") {
        Some(Block::Directive)
    } else if is_described(b"accDescr", b"{", words) {
        Some(Block::Description)
    } else {
        None
    }
}

/// The text after the end of a block, if the line has it.
#[tactic(auto, unfolding(crate::specs::Pieces::behind_end))]
fn behind_end(block: Block, line: Line<'_>) -> Option<Line<'_>>
    requires { line.column + length line.words.now < 2 ^ 64 }
    ensures rest { Finds line_view result (behind_end block (line_view line.entry)) }
    ensures shorter { IfSome result (λ rest. length rest.words.now < length line.entry.words.now) }
    ensures room { IfSome result (λ rest. rest.column + length rest.words.now ≤ line.entry.column + length line.entry.words.now) }
{
    let end = end_of(block);
    match place_of(end, line.words) {
        Some(place) => Some(line.after(place + end.len()).stripped()),
        None => None,
    }
}

/// The rest of a line after the blocks with which it begins.
fn behind_blocks(line: Line<'_>) -> Opened<'_>
    requires { line.column + length line.words.now < 2 ^ 64 }
    ensures left { opened_view result ≡ behind_blocks (line_view line.entry) }
    ensures room { Room result (line.entry.column + length line.entry.words.now) }
{
    let mut left = line;
    'openings: loop {
        let Some(block) = block_at(left.words) else {
            return Opened::Left(left);
        };
        match behind_end(block, left) {
            Some(rest) => left = rest,
            None => return Opened::Waits(block),
        }
    }
}

/// Whether a line is a comment or a description.
#[tactic(auto, unfolding(crate::specs::Pieces::is_remark))]
fn is_remark(words: &[u8]) -> bool
    ensures { result ≡ is_remark words.now }
{
    begins_with(words, b"%%")
        || is_described(b"accTitle", b":", words)
        || is_described(b"accDescr", b":", words)
}

/// The place of the first byte that can't be in a word.
fn first_other(bytes: &[u8]) -> Option<usize>
    ensures value { result ≡ position (λ b. not (is_word_byte b)) bytes.now }
    ensures within { IfSome result (λ place. place < length bytes.now) }
{
    bytes.iter().position(|byte| !is_word_byte(*byte))
}

/// The length of the word at the beginning of the bytes.
#[tactic(auto, unfolding(crate::specs::Pieces::word_length))]
fn word_length(bytes: &[u8]) -> usize
    ensures value { result ≡ word_length bytes.now }
    ensures within { result ≤ length bytes.now }
{
    match first_other(bytes) {
        None => bytes.len(),
        Some(place) => place,
    }
}

/// The number of bytes of a character after its `#`, if its name or its number comes next.
#[tactic(auto, unfolding(crate::specs::Pieces::character_length))]
fn character_length(bytes: &[u8]) -> Option<usize>
    ensures { result ≡ character_length bytes.now }
{
    let length = word_length(bytes);
    if length > 0 && begins_with(&bytes[length..], b";") {
        Some(length + 1)
    } else {
        None
    }
}

/// The number of bytes after this one that still belong to a character, if the byte continues a statement.
#[tactic(auto, unfolding(crate::specs::Pieces::next_within))]
fn next_within(within: usize, byte: u8, others: &[u8]) -> Option<usize>
    ensures { result ≡ next_within within byte others.now }
{
    if within > 0 {
        Some(within - 1)
    } else if byte == b'#' {
        character_length(others)
    } else if byte == b';' {
        None
    } else {
        Some(0)
    }
}

/// The number of bytes of a statement, up to its end or to a comment.
fn piece_length(bytes: &[u8]) -> usize
    ensures value { result ≡ piece_length 0 bytes.now }
    ensures within { result ≤ length bytes.now }
{
    let mut within = 0;
    let mut passed = 0;
    let mut rest = bytes;
    'bytes: while let [byte, others @ ..] = rest {
        let Some(next) = next_within(within, *byte, others) else {
            return passed;
        };
        within = next;
        passed += 1;
        rest = others;
    }
    passed
}

/// Adds a piece that has words.
fn add_piece<'a>(piece: Line<'a>, pieces: &mut Vec<Line<'a>>) -> Result<(), AllocError>
    ensures { OnOk result (map line_view pieces.new.items ≡ map line_view pieces.old.items ++ listed (line_view piece.entry)) }
{
    if piece.words.is_empty() {
        return Ok(());
    }
    pieces.push(piece)?;
    Ok(())
}

/// Adds the statements of a line.
fn add_pieces<'a>(line: Line<'a>, pieces: &mut Vec<Line<'a>>) -> Result<(), AllocError>
    requires { line.column + length line.words.now < 2 ^ 64 }
    ensures { OnOk result (map line_view pieces.new.items ≡ map line_view pieces.old.items ++ pieces_of (line_view line.entry)) }
{
    let mut left = line;
    'pieces: loop {
        let length = piece_length(left.words);
        add_piece(left.front(length), pieces)?;
        let behind = left.after(length);
        if !begins_with(behind.words, b";") {
            return Ok(());
        }
        left = behind.after(1);
    }
}

/// Adds the statements of the rest of a line.
fn add_open<'a>(left: Opened<'a>, pieces: &mut Vec<Line<'a>>) -> Result<Standing, AllocError>
    requires { Room left (2 ^ 64 - 1) }
    ensures { IfOk result (λ next. Steps (map line_view pieces.old.items) (map line_view pieces.new.items) next
        (open_pieces (opened_view left.entry))) }
{
    match left {
        Opened::Waits(block) => Ok(Standing::Inside(block)),
        Opened::Left(line) => {
            if is_remark(line.words) {
                return Ok(Standing::Body);
            }
            add_pieces(line, pieces)?;
            Ok(Standing::Body)
        }
    }
}

/// Whether a line begins or ends the title block.
fn is_rule(words: &[u8]) -> bool
    ensures { result ≡ bytes_eq words.now (codes "---") }
{
    words == b"---".as_slice()
}

/// Adds the statements of a line, and returns the reader's position after it.
#[tactic(auto, unfolding(crate::specs::Pieces::stepped))]
pub(crate) fn add_line<'a>(
    standing: Standing,
    line: Line<'a>,
    pieces: &mut Vec<Line<'a>>,
) -> Result<Standing, AllocError>
    requires { line.column + length line.words.now < 2 ^ 64 }
    ensures { IfOk result (λ next. Steps (map line_view pieces.old.items) (map line_view pieces.new.items) next
        (stepped standing (line_view line.entry))) }
{
    match standing {
        Standing::Above if line.words.is_empty() => Ok(Standing::Above),
        Standing::Above if is_rule(line.words) => Ok(Standing::Title),
        Standing::Above | Standing::Body => add_open(behind_blocks(line), pieces),
        Standing::Title if is_rule(line.words) => Ok(Standing::Body),
        Standing::Title => Ok(Standing::Title),
        Standing::Inside(block) => match behind_end(block, line) {
            Some(rest) => add_open(behind_blocks(rest), pieces),
            None => Ok(Standing::Inside(block)),
        },
    }
}
