//! The state of a reader of lines, and the statements of a line.
ghost use Rattle.std.specs.Prelude.{◌≡◌, ◌+◌, ◌<◌, ◌^◌, length, map};
ghost use Rattle.diagram_statements.specs.Statements.{line_view, statement_view};
ghost use Rattle.diagram_plantuml.specs.Standings.{Steps, blocked, next_skip, chosen, bared, stepped, region_stepped, is_open};

use crate::comments::{ends_comment, uncommented};
use crate::directives::{Skip, behind_skip, skip_of};
use crate::ends::behind_block;
use crate::joints::place_in;
use crate::region::{Region, is_end, is_start};
use diagram_plantuml_statements::{Block, add_meaning, add_one, reading_of};
use diagram_statements::{Element, Fault, Line, Place, ReadError, Statement};
use texts::begins_with;

/// The state of a reader of a diagram's lines.
#[derive(Clone, Copy, Debug)]
pub(crate) struct Standing {
    /// Whether a comment continues.
    pub has_comment: bool,
    /// The lines to skip.
    pub skip: Option<Skip>,
    /// The block that continues.
    pub block: Option<Block>,
}

/// Adds the statements of a line that the preprocessor leaves.
#[tactic(auto, unfolding(crate::specs::Standings::blocked))]
fn add_blocked<'a>(
    standing: Standing,
    place: Place,
    line: Line<'a>,
    statements: &mut Vec<Statement<'a>>,
) -> Result<Standing, ReadError>
    ensures { Steps result (map statement_view statements.old.items) (map statement_view statements.new.items)
        (blocked standing place (line_view line.entry)) }
{
    if let Some(block) = standing.block {
        return Ok(Standing {
            has_comment: false,
            skip: None,
            block: behind_block(block, line.words),
        });
    }
    let Some(reading) = reading_of(line.words) else {
        return Err(ReadError::Fault(Fault::NotRead(place)));
    };
    add_meaning(place, reading.meaning, statements)?;
    Ok(Standing {
        has_comment: false,
        skip: None,
        block: reading.block,
    })
}

/// Adds the statements of a line that is no comment.
#[tactic(auto, unfolding(crate::specs::Standings::chosen))]
fn add_chosen<'a>(
    standing: Standing,
    place: Place,
    line: Line<'a>,
    statements: &mut Vec<Statement<'a>>,
) -> Result<Standing, ReadError>
    ensures { Steps result (map statement_view statements.old.items) (map statement_view statements.new.items)
        (chosen standing place (line_view line.entry)) }
{
    let is_directive = begins_with(line.words, b"!");
    if !is_directive && standing.skip.is_none() {
        return add_blocked(standing, place, line, statements);
    }
    if is_directive {
        add_one(place, Element::Preprocessor, statements)?;
    }
    Ok(Standing {
        has_comment: false,
        skip: next_skip(standing.skip, line.words),
        block: standing.block,
    })
}

/// The lines to skip after a line of the preprocessor, or after a skipped line.
fn next_skip(skip: Option<Skip>, words: &[u8]) -> Option<Skip>
    ensures { result ≡ next_skip skip words.now }
{
    match skip {
        Some(skip) => behind_skip(skip, words),
        None => skip_of(words),
    }
}

/// Adds the statements of a line without its comments.
#[tactic(auto, unfolding(crate::specs::Standings::bared))]
fn add_bared<'a>(
    standing: Standing,
    place: Place,
    line: Line<'a>,
    statements: &mut Vec<Statement<'a>>,
) -> Result<Standing, ReadError>
    ensures { Steps result (map statement_view statements.old.items) (map statement_view statements.new.items)
        (bared standing place (line_view line.entry)) }
{
    if begins_with(line.words, b"/'") {
        return Ok(Standing {
            has_comment: true,
            skip: standing.skip,
            block: standing.block,
        });
    }
    if line.words.is_empty() || begins_with(line.words, b"'") {
        return Ok(standing);
    }
    add_chosen(standing, place, line, statements)
}

/// Adds the statements of a line of the diagram.
#[tactic(auto, unfolding(crate::specs::Standings::stepped))]
fn add_line<'a>(
    standing: Standing,
    source: &[u8],
    line: Line<'a>,
    statements: &mut Vec<Statement<'a>>,
) -> Result<Standing, ReadError>
    requires columns { line.column + length line.words.now < 2 ^ 64 }
    requires numbers { line.number + length source.now < 2 ^ 64 }
    ensures { Steps result (map statement_view statements.old.items) (map statement_view statements.new.items)
        (stepped standing source.now (line_view line.entry)) }
{
    if standing.has_comment {
        return Ok(Standing {
            has_comment: !ends_comment(line.words),
            skip: standing.skip,
            block: standing.block,
        });
    }
    let bare = uncommented(line);
    add_bared(
        standing,
        place_in(source, line.number, bare.column),
        bare,
        statements,
    )
}

/// Adds the statements of a line of the text.
#[tactic(auto, unfolding(crate::specs::Standings::region_stepped))]
pub(crate) fn add_line_in<'a>(
    region: Region,
    standing: Standing,
    source: &[u8],
    line: Line<'a>,
    statements: &mut Vec<Statement<'a>>,
) -> Result<Standing, ReadError>
    requires columns { line.column + length line.words.now < 2 ^ 64 }
    requires numbers { line.number + length source.now < 2 ^ 64 }
    ensures { Steps result (map statement_view statements.old.items) (map statement_view statements.new.items)
        (region_stepped region standing source.now (line_view line.entry)) }
{
    match region {
        Region::Inside if !is_end(line.words) => add_line(standing, source, line, statements),
        Region::Below if is_start(line.words) => {
            let place = place_in(source, line.number, line.column);
            add_one(place, Element::OtherDiagram, statements)?;
            Ok(standing)
        }
        _ => Ok(standing),
    }
}

/// Whether a comment, a block or skipped lines continue.
#[tactic(auto, unfolding(crate::specs::Standings::is_open))]
pub(crate) fn is_open(standing: Standing) -> bool
    ensures { result ≡ is_open standing }
{
    standing.has_comment || standing.skip.is_some() || standing.block.is_some()
}
