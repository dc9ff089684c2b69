//! Lines without their comments.
ghost use Rattle.std.specs.Prelude.{◌≡◌, ◌≤◌, ◌<◌, ◌+◌, ◌^◌, ◌-◌, length, IfSome, drop};
ghost use Rattle.texts.specs.Words.{Finds};
ghost use Rattle.diagram_statements.specs.Statements.{line_view};
ghost use Rattle.diagram_plantuml.specs.Comments.{ends_comment, behind_comment, behind_comments, without_last, uncommented};

use diagram_plantuml_statements::last_place;
use diagram_statements::Line;
use texts::{begins_with, place_of};

/// Whether the bytes end with the end of a comment.
#[tactic(auto, unfolding(crate::specs::Comments::ends_comment))]
pub(crate) fn ends_comment(bytes: &[u8]) -> bool
    ensures { result ≡ ends_comment bytes.now }
{
    bytes.len() > 1 && &bytes[bytes.len() - 2..] == b"'/".as_slice()
}

/// The text after the comment with which a line begins.
#[tactic(auto, unfolding(crate::specs::Comments::behind_comment))]
fn behind_comment(line: Line<'_>) -> Option<Line<'_>>
    requires { line.column + length line.words.now < 2 ^ 64 }
    ensures rest { Finds line_view result (behind_comment (line_view line.entry)) }
    ensures shorter { IfSome result (λ rest. length rest.words.now < length line.entry.words.now) }
    ensures room { IfSome result (λ rest. rest.column + length rest.words.now ≤ line.entry.column + length line.entry.words.now) }
{
    if !begins_with(line.words, b"/'") {
        return None;
    }
    match place_of(b"'/", &line.words[2..]) {
        Some(place) => Some(line.after(place + 4).stripped()),
        None => None,
    }
}

/// The text after the comments with which a line begins.
fn behind_comments(line: Line<'_>) -> Line<'_>
    requires { line.column + length line.words.now < 2 ^ 64 }
    ensures rest { line_view result ≡ behind_comments (line_view line.entry) }
    ensures room { result.column + length result.words.now ≤ line.entry.column + length line.entry.words.now }
{
    let mut left = line;
    'comments: while let Some(rest) = behind_comment(left) {
        left = rest;
    }
    left
}

/// A line without the comment with which it ends.
#[tactic(auto, unfolding(crate::specs::Comments::without_last))]
fn without_last(line: Line<'_>) -> Line<'_>
    requires { line.column + length line.words.now < 2 ^ 64 }
    ensures { line_view result ≡ without_last (line_view line.entry) }
{
    match last_place(b"/'", line.words) {
        Some(place) if place + 3 < line.words.len() && ends_comment(line.words) => line.front(
            place,
        ),
        _ => line,
    }
}

/// A line without the comments at its beginning, and without one at its end.
#[tactic(auto, unfolding(crate::specs::Comments::uncommented))]
pub(crate) fn uncommented(line: Line<'_>) -> Line<'_>
    requires { line.column + length line.words.now < 2 ^ 64 }
    ensures { line_view result ≡ uncommented (line_view line.entry) }
{
    without_last(behind_comments(line))
}
