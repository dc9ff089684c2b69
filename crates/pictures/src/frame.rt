//! The parts of a picture around its columns and rows.
ghost use Rattle.std.specs.Prelude.{◌≡◌};
ghost use Rattle.texts.specs.Writing.{Wrote, Adds};
ghost use Rattle.pictures.specs.PictureText.{top, ground, remarks, bottom, picture_text};

use crate::columns::add_columns;
use crate::margin::{add_dividing_lines, add_margin};
use crate::marks::add_marks;
use crate::picture::Picture;
use crate::rows::add_rows;
use crate::spots::height;
use crate::there::marks_in;
use picture_parts::elements::{
    add_heading, add_legend, add_markers, add_styles, add_svg_end, add_svg_start, add_title,
};
use texts::{Out, TextBuffer, WriteError};

/// Adds the parts above the columns.
#[tactic(auto, using(texts::proofs::Writes::joining), unfolding(crate::specs::PictureText::top))]
fn add_top<W: Out>(text: &mut TextBuffer<'_, W>, picture: &Picture<'_>) -> Result<(), WriteError>
    ensures { Adds W.sink text.old text.new result (top picture.now) }
{
    add_svg_start(text, u64::from(picture.width()), picture.tall())?;
    add_title(text, picture.title())?;
    add_styles(text)?;
    add_markers(text)?;
    add_heading(text, picture.title())
}

/// Adds the dividing lines of the margin's texts, and on top of them the columns.
#[tactic(auto, using(texts::proofs::Writes::joining), unfolding(crate::specs::PictureText::ground))]
fn add_ground<W: Out>(text: &mut TextBuffer<'_, W>, picture: &Picture<'_>) -> Result<(), WriteError>
    ensures { Adds W.sink text.old text.new result (ground picture.now) }
{
    add_dividing_lines(text, picture)?;
    add_columns(text, picture, picture.columns())
}

/// Adds the marks of races, and the margin.
#[tactic(auto, using(texts::proofs::Writes::joining), unfolding(crate::specs::PictureText::remarks))]
fn add_remarks<W: Out>(
    text: &mut TextBuffer<'_, W>,
    picture: &Picture<'_>,
) -> Result<(), WriteError>
    ensures { Adds W.sink text.old text.new result (remarks picture.now) }
{
    add_marks(text, picture, picture.reports())?;
    add_margin(text, picture)
}

/// Adds the parts below the columns.
#[tactic(auto, using(texts::proofs::Writes::joining), unfolding(crate::specs::PictureText::bottom))]
fn add_bottom<W: Out>(text: &mut TextBuffer<'_, W>, picture: &Picture<'_>) -> Result<(), WriteError>
    ensures { Adds W.sink text.old text.new result (bottom picture.now) }
{
    let marks = marks_in(picture);
    add_legend(text, &marks, height(picture.count()) + 28)?;
    add_svg_end(text)
}

/// Adds the whole picture. It takes no memory.
#[tactic(auto, using(texts::proofs::Writes::joining), unfolding(crate::specs::PictureText::picture_text))]
pub fn add_picture<W: Out>(
    text: &mut TextBuffer<'_, W>,
    picture: &Picture<'_>,
) -> Result<(), WriteError>
    ensures { Adds W.sink text.old text.new result (picture_text picture.now) }
{
    add_top(text, picture)?;
    add_ground(text, picture)?;
    add_rows(text, picture, picture.rows())?;
    add_remarks(text, picture)?;
    add_bottom(text, picture)
}

/// Writes the picture's text and nothing else. It takes no memory. If a put fails (F24), a beginning of the text was
/// written, and no other put is tried.
#[tactic(auto, using(texts::proofs::Writes::joining))]
pub fn write_picture<W: Out>(picture: &Picture<'_>, out: &mut W) -> Result<(), WriteError>
    ensures { Wrote W.sink out.old out.new result (picture_text picture.now) }
{
    let mut text = TextBuffer::new(out);
    add_picture(&mut text, picture)?;
    text.finish()
}
