//! The ends of blocks.
ghost use Rattle.std.specs.Prelude.{◌≡◌};
ghost use Rattle.diagram_plantuml.specs.Ends.{is_end_of, is_brace, brace_depth, is_bracket, ends_block, braces, behind_block};

use diagram_plantuml_statements::{Block, ends_with_brace};
use texts::behind_word;
use texts::bytes::{is_blank, is_spelled};

/// Whether a line is `end` and this word, with one blank between them or none.
#[tactic(auto, unfolding(crate::specs::Ends::is_end_of))]
fn is_end_of(word: &[u8], words: &[u8]) -> bool
    ensures { result ≡ is_end_of word.now words.now }
{
    match behind_word(b"end", words) {
        Some([byte, rest @ ..]) if is_blank(*byte) => is_spelled(word, rest),
        Some(rest) => is_spelled(word, rest),
        None => false,
    }
}

fn is_brace(words: &[u8]) -> bool
    ensures { result ≡ is_brace words.now }
{
    words == b"}".as_slice()
}

/// The number of open braces after a line.
#[tactic(auto, unfolding(crate::specs::Ends::brace_depth))]
fn brace_depth(depth: u64, words: &[u8]) -> u64
    ensures { result ≡ brace_depth depth words.now }
{
    if is_brace(words) {
        depth.wrapping_add(u64::MAX)
    } else if ends_with_brace(words) {
        depth.wrapping_add(1)
    } else {
        depth
    }
}

fn is_bracket(words: &[u8]) -> bool
    ensures { result ≡ is_bracket words.now }
{
    words == b"]".as_slice()
}

/// Whether a line ends a block that isn't in nested braces.
fn ends_block(block: Block, words: &[u8]) -> bool
    ensures { result ≡ ends_block block words.now }
{
    match block {
        Block::Title => is_end_of(b"title", words),
        Block::Legend => is_end_of(b"legend", words),
        Block::Header => is_end_of(b"header", words),
        Block::Footer => is_end_of(b"footer", words),
        Block::Style => is_spelled(b"</style>", words),
        Block::Sprite => is_end_of(b"sprite", words) || is_brace(words),
        Block::Note => {
            is_end_of(b"note", words) || is_end_of(b"hnote", words) || is_end_of(b"rnote", words)
        }
        Block::Reference => is_spelled(b"end", words) || is_end_of(b"ref", words),
        Block::Participant => is_bracket(words),
        Block::Braces(_) => false,
    }
}

fn braces(depth: u64) -> Option<Block>
    ensures { result ≡ braces depth }
{
    if depth == 0 {
        None
    } else {
        Some(Block::Braces(depth))
    }
}

/// The block that continues after a line.
#[tactic(auto, unfolding(crate::specs::Ends::behind_block))]
pub(crate) fn behind_block(block: Block, words: &[u8]) -> Option<Block>
    ensures { result ≡ behind_block block words.now }
{
    if let Block::Braces(depth) = block {
        return braces(brace_depth(depth, words));
    }
    if ends_block(block, words) {
        None
    } else {
        Some(block)
    }
}
