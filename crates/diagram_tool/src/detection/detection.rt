//! The tool of a diagram.
ghost use Rattle.std.specs.Prelude.{◌≡◌, take, length};
ghost use Rattle.texts.specs.Bytes.Classes.{is_word_byte};
ghost use Rattle.texts.specs.Bytes.Places.{start, behind};
ghost use Rattle.texts.specs.Bytes.Words.{is_spelled};
ghost use Rattle.diagram_tool.specs.Detection.Detection.{ends_word, begins_word, begins_spelled, is_bare, begins_block, tool_of};
ghost use Rattle.diagram_tool.specs.Detection.Detection.{detected_tool};

use crate::Tool;
use crate::detection::gaps::gaps_length;
use texts::bytes::{Place, begins, is_spelled, is_white_space, is_word_byte};

/// Why the tool of a text isn't known.
#[derive(Clone, Copy, Debug, PartialEq, Eq)]
pub enum ToolError {
    /// F35: no tool's text begins with the word at this place.
    NotRead(Place),
    /// F21: there is no word.
    Unfinished,
}

/// Whether a word ends here.
fn ends_word(bytes: &[u8]) -> bool
    ensures { result ≡ ends_word bytes.now }
{
    match bytes {
        [] => true,
        [byte, ..] => !is_word_byte(*byte),
    }
}

/// Whether the bytes begin with this word.
#[tactic(auto, unfolding(crate::specs::Detection::Detection::begins_word))]
fn begins_word(word: &[u8], bytes: &[u8]) -> bool
    ensures { result ≡ begins_word word.now bytes.now }
{
    begins(bytes, word) && ends_word(&bytes[word.len()..])
}

/// Whether the bytes begin with this word, case-insensitively.
#[tactic(auto, unfolding(crate::specs::Detection::Detection::begins_spelled))]
fn begins_spelled(word: &[u8], bytes: &[u8]) -> bool
    ensures { result ≡ begins_spelled word.now bytes.now }
{
    word.len() <= bytes.len()
        && is_spelled(word, &bytes[..word.len()])
        && ends_word(&bytes[word.len()..])
}

/// Whether only blanks are on the line from here on.
fn is_bare(bytes: &[u8]) -> bool
    ensures { result ≡ is_bare bytes.now }
{
    let mut rest = bytes;
    'bytes: while let [byte, others @ ..] = rest {
        if *byte == b'\n' {
            return true;
        }
        if !is_white_space(*byte) {
            return false;
        }
        rest = others;
    }
    true
}

/// Whether the bytes begin with the line that begins a title block.
#[tactic(auto, unfolding(crate::specs::Detection::Detection::begins_block))]
fn begins_block(bytes: &[u8]) -> bool
    ensures { result ≡ begins_block bytes.now }
{
    begins(bytes, b"---") && is_bare(&bytes[3..])
}

/// The tool with whose first word the bytes begin.
#[tactic(auto, unfolding(crate::specs::Detection::Detection::tool_of))]
fn tool_of(bytes: &[u8]) -> Option<Tool>
    ensures { result ≡ tool_of bytes.now }
{
    if begins_word(b"msc", bytes) {
        Some(Tool::Mscgen)
    } else if begins_word(b"@startuml", bytes) {
        Some(Tool::PlantUml)
    } else if begins_spelled(b"sequenceDiagram", bytes) || begins_block(bytes) {
        Some(Tool::Mermaid)
    } else {
        None
    }
}

/// The place after these bytes, with which the text begins.
fn place_behind(bytes: &[u8]) -> Place
    ensures { result ≡ behind start bytes.now }
{
    Place { line: 1, column: 1 }.behind(bytes)
}

/// The tool of a text, by its first word outside of comments: `msc`, `@startuml`, `sequenceDiagram` (case-insensitive),
/// or a line `---`. The text comes without its byte order mark.
#[tactic(auto, unfolding(crate::specs::Detection::Detection::detected_tool))]
pub fn detected_tool(text: &[u8]) -> Result<Tool, ToolError>
    ensures { result ≡ detected_tool text.now }
{
    let (passed, word) = text.split_at(gaps_length(text));
    match (tool_of(word), word) {
        (Some(tool), _) => Ok(tool),
        (None, []) => Err(ToolError::Unfinished),
        (None, [_, ..]) => Err(ToolError::NotRead(place_behind(passed))),
    }
}
