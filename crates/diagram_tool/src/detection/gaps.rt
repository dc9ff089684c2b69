//! Blanks and the comments of all tools.
ghost use Rattle.std.specs.Prelude.{◌≡◌, ◌≤◌, ◌+◌, ◌==◌, length};
ghost use Rattle.texts.specs.Bytes.Classes.{is_white_space};
ghost use Rattle.texts.specs.Bytes.Lines.{line_length};
ghost use Rattle.diagram_tool.specs.Detection.Gaps.{length_to, block_length, begins_line, gap_length, gaps_length};

use texts::bytes::{begins, is_white_space, line_length};

/// The number of bytes up to the first occurrence of `end` and with it, or of all bytes without one.
fn length_to(end: &[u8], bytes: &[u8]) -> usize
    ensures value { result ≡ length_to end.now bytes.now }
    ensures within { result ≤ length bytes.now }
{
    let mut passed = 0;
    let mut rest = bytes;
    'bytes: while let [_, others @ ..] = rest {
        if begins(rest, end) {
            return passed + end.len();
        }
        passed += 1;
        rest = others;
    }
    passed
}

/// The length of the block with which the bytes begin.
#[tactic(auto, unfolding(crate::specs::Detection::Gaps::block_length))]
fn block_length(first: &[u8], end: &[u8], bytes: &[u8]) -> usize
    requires { length first.now ≤ length bytes.now }
    ensures value { result ≡ block_length first.now end.now bytes.now }
    ensures within { result ≤ length bytes.now }
{
    first.len() + length_to(end, &bytes[first.len()..])
}

/// Whether a comment begins that extends to the end of its line.
fn begins_line(bytes: &[u8]) -> bool
    ensures { result ≡ begins_line bytes.now }
{
    begins(bytes, b"#") || begins(bytes, b"'") || begins(bytes, b"//") || begins(bytes, b"%%")
}

/// The length of the blank or the comment with which the bytes begin, or 0.
#[tactic(auto, unfolding(crate::specs::Detection::Gaps::gap_length))]
fn gap_length(bytes: &[u8]) -> usize
    ensures value { result ≡ gap_length bytes.now }
    ensures within { result ≤ length bytes.now }
{
    let [first, ..] = bytes else {
        return 0;
    };
    if is_white_space(*first) {
        return 1;
    }
    if begins(bytes, b"/*") {
        return block_length(b"/*", b"*/", bytes);
    }
    if begins(bytes, b"/'") {
        return block_length(b"/'", b"'/", bytes);
    }
    if begins(bytes, b"%%{") {
        return block_length(b"%%{", b"}%%", bytes);
    }
    if begins_line(bytes) {
        line_length(bytes)
    } else {
        0
    }
}

/// The number of bytes of blanks and comments at the beginning of the text.
pub(crate) fn gaps_length(text: &[u8]) -> usize
    ensures value { result ≡ gaps_length text.now }
    ensures within { result ≤ length text.now }
{
    let mut passed = 0;
    'gaps: loop {
        let (_, rest) = text.split_at(passed);
        let gap = gap_length(rest);
        if gap == 0 {
            return passed;
        }
        passed += gap;
    }
}
