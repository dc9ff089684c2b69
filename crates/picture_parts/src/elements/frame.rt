//! The frame around the columns and rows of a picture: its colours, its title, its beginning and its end.
ghost use Rattle.std.specs.Prelude.{◌≡◌};
ghost use Rattle.texts.specs.Writing.{Adds};
ghost use Rattle.picture_parts.specs.Elements.Frames.{styles, markers, svg_start, title, heading, svg_end};

use texts::pieces::{Piece, add_pieces};
use texts::{Out, TextBuffer, WriteError};

/// Adds the colours on white and on black, and the kinds of lines and labels. Nothing is fetched: the font is one that
/// the reader's program has.
#[tactic(auto, unfolding(crate::specs::Elements::Frames::styles))]
pub fn add_styles<W: Out>(text: &mut TextBuffer<'_, W>) -> Result<(), WriteError>
    ensures { Adds W.sink text.old text.new result styles }
{
    add_pieces(
        text,
        &[
            Piece::Bytes(b"<style>\n"),
            Piece::Bytes(b"text{font:11px monospace;fill:#000;text-anchor:middle}\n"),
            Piece::Bytes(b".s,.n{text-anchor:start}\n"),
            Piece::Bytes(b".e{text-anchor:end}\n"),
            Piece::Bytes(b".n,.e,.k{font-size:9px}\n"),
            Piece::Bytes(b".k{fill:#a80000}\n"),
            Piece::Bytes(b"path,rect,circle{fill:none;stroke:#808080}\n"),
            Piece::Bytes(b".m,.w{stroke:#000}\n"),
            Piece::Bytes(b".m{marker-end:url(#head)}\n"),
            Piece::Bytes(b".c{stroke-dasharray:4 4;marker-start:url(#end);marker-end:url(#end)}\n"),
            Piece::Bytes(b".f{stroke-width:4}\n"),
            Piece::Bytes(b".g{fill:#fff;stroke:none}\n"),
            Piece::Bytes(b".p{stroke:none}\n"),
            Piece::Bytes(b".r{fill:#a80000;stroke:none}\n"),
            Piece::Bytes(b".b{stroke:#a80000;stroke-width:1.5}\n"),
            Piece::Bytes(b"#head path{fill:#000;stroke:none}\n"),
            Piece::Bytes(
                b"@media(prefers-color-scheme:dark){text{fill:#fff}.g{fill:#111}.m,.w{stroke:#fff}#head path{fill:#fff}",
            ),
            Piece::Bytes(b".k,.r{fill:#ff9a9a}.b{stroke:#ff9a9a}}\n"),
            Piece::Bytes(b"</style>\n"),
        ],
    )
}

/// Adds arrow heads, the ends of coregions, and the picture's background.
#[tactic(auto, unfolding(crate::specs::Elements::Frames::markers))]
pub fn add_markers<W: Out>(text: &mut TextBuffer<'_, W>) -> Result<(), WriteError>
    ensures { Adds W.sink text.old text.new result markers }
{
    add_pieces(
        text,
        &[
            Piece::Bytes(
                b"<defs><marker id='head' refX='8' refY='4' markerWidth='8' markerHeight='8' orient='auto'>",
            ),
            Piece::Bytes(b"<path d='M0 1L8 4L0 7z'/></marker>"),
            Piece::Bytes(
                b"<marker id='end' refX='1' refY='5' markerWidth='2' markerHeight='10' orient='auto'>",
            ),
            Piece::Bytes(b"<path d='M1 0V10'/></marker></defs>\n"),
            Piece::Bytes(b"<rect class='g' width='100%' height='100%'/>\n"),
        ],
    )
}

/// Adds the beginning of a picture of this width and height.
#[tactic(auto, unfolding(crate::specs::Elements::Frames::svg_start))]
pub fn add_svg_start<W: Out>(
    text: &mut TextBuffer<'_, W>,
    width: u64,
    height: u64,
) -> Result<(), WriteError>
    ensures { Adds W.sink text.old text.new result (svg_start width height) }
{
    add_pieces(
        text,
        &[
            Piece::Bytes(b"<svg xmlns='http://www.w3.org/2000/svg' width='"),
            Piece::Number(width),
            Piece::Bytes(b"' height='"),
            Piece::Number(height),
            Piece::Bytes(b"' viewBox='0 0 "),
            Piece::Number(width),
            Piece::Bytes(b" "),
            Piece::Number(height),
            Piece::Bytes(b"'>\n"),
        ],
    )
}

/// Adds the title, for programs.
#[tactic(auto, unfolding(crate::specs::Elements::Frames::title))]
pub fn add_title<W: Out>(text: &mut TextBuffer<'_, W>, words: &[u8]) -> Result<(), WriteError>
    ensures { Adds W.sink text.old text.new result (title words.now) }
{
    add_pieces(
        text,
        &[
            Piece::Bytes(b"<title>"),
            Piece::Escaped(words),
            Piece::Bytes(b"</title>\n"),
        ],
    )
}

/// Adds the title, as the first line of a picture.
#[tactic(auto, unfolding(crate::specs::Elements::Frames::heading))]
pub fn add_heading<W: Out>(text: &mut TextBuffer<'_, W>, line: &[u8]) -> Result<(), WriteError>
    ensures { Adds W.sink text.old text.new result (heading line.now) }
{
    add_pieces(
        text,
        &[
            Piece::Bytes(b"<text class='s' x='16' y='16'>"),
            Piece::Escaped(line),
            Piece::Bytes(b"</text>\n"),
        ],
    )
}

/// Adds the end of the picture.
#[tactic(auto, unfolding(crate::specs::Elements::Frames::svg_end))]
pub fn add_svg_end<W: Out>(text: &mut TextBuffer<'_, W>) -> Result<(), WriteError>
    ensures { Adds W.sink text.old text.new result svg_end }
{
    text.add(b"</svg>\n")
}
