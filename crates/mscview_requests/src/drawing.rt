//! Pictures, and texts for other tools.
ghost use Rattle.std.specs.Prelude.{◌≡◌, Some, option_map};
ghost use Rattle.cmd_draw.specs.Targets.{target_named};
ghost use Rattle.mscview_requests.specs.Words.Words.{Says};
ghost use Rattle.mscview_requests.specs.Effects.{DoesStrictly, DoesPicture, ViewsPicture, ViewsFilePicture, ViewsExport};
ghost use Rattle.mscview_requests.specs.Wanted.{IsPicture, TitleBy, IsNameOf, AreChosen, AreRows, titled_path};

use crate::asking::number_by;
use crate::giving::{Giver, first_in};
use crate::importing::view_picture_of;
use cli::view::{Draw, Export, Rows as RowWords};
use cmd_base::{ProgramError, refused_strictly};
use cmd_draw::{
    Around, Events, Rows, Target, Wanted, draw, events_in, export, file_name, target_in,
};
use std::alloc::Global;
use texts::Out;

/// The range of numbers in a word. Without a word it has all numbers. G1: the word isn't such a range.
fn numbers_by(word: Option<&str>) -> Result<Events, ProgramError>
    ensures { Says (AreChosen (option_map (λ w. w.now) word.entry)) result }
{
    match word {
        None => Ok(Events::ALL),
        Some(word) => match events_in(word) {
            Some(events) => Ok(events),
            None => Err(ProgramError::Usage),
        },
    }
}

/// The path for the title. Standard input has none.
fn titled_path(file: Option<&str>) -> Option<&str>
    ensures { option_map (λ w. w.now) result ≡ titled_path (option_map (λ w. w.now) file.entry) }
{
    match file {
        None => None,
        Some(path) => {
            if path == "-" || path == "/dev/stdin" {
                None
            } else {
                Some(path)
            }
        }
    }
}

/// The title for a path: the name of the file, without its folder.
fn name_by(path: Option<&str>) -> &[u8]
    ensures { IsNameOf (option_map (λ w. w.now) path.entry) result.now }
{
    match path {
        None => b"",
        Some(path) => file_name(path.as_bytes()),
    }
}

/// The title for a file: its name without the folder. Standard input has an empty title.
pub(crate) fn file_title(file: Option<&str>) -> &[u8]
    ensures { IsNameOf (titled_path (option_map (λ w. w.now) file.entry)) result.now }
{
    name_by(titled_path(file))
}

/// The title of a picture: the given words, or the name of the file without its folder.
pub(crate) fn title_of<'a>(title: Option<&'a str>, file: Option<&'a str>) -> &'a [u8]
    ensures { TitleBy (option_map (λ w. w.now) title.entry) (titled_path (option_map (λ w. w.now) file.entry)) result.now }
{
    match title {
        Some(words) => words.as_bytes(),
        None => file_title(file),
    }
}

/// The rows that the words choose, or all rows. G1: the words choose no rows.
fn rows_by<'a>(words: &RowWords<'a>) -> Result<Rows<'a>, ProgramError>
    ensures { Says (AreRows words.now) result }
{
    match words {
        RowWords::All => Ok(Rows::Between(Events::ALL)),
        RowWords::Between(word) => Ok(Rows::Between(numbers_by(Some(*word))?)),
        RowWords::Around { instance, event } => Ok(Rows::Around(Around {
            event: number_by(*event)?,
            instance: instance.as_bytes(),
        })),
    }
}

/// The options of a picture. G1: a word for the events or the rows isn't valid.
pub(crate) fn picture_by<'a>(draw: &Draw<'a>) -> Result<Wanted<'a>, ProgramError>
    ensures { Says (IsPicture draw.now) result }
{
    Ok(Wanted {
        title: title_of(draw.title, draw.file),
        only: draw.only.map(|names| names.as_bytes()),
        events: numbers_by(draw.events)?,
        rows: rows_by(&draw.rows)?,
        numbers: draw.numbers,
    })
}

/// Draws a chart or a schedule, unless `--strict` refuses the file.
fn answer_strictly<W: Out, V: Out>(
    alloc: Global,
    is_strict: bool,
    bytes: &[u8],
    wanted: &Wanted<'_>,
    out: &mut W,
    err: &mut V,
) -> u8
    ensures { DoesStrictly W.sink out.old out.new V.sink err.old err.new is_strict
        (λ between. DoesPicture W.sink out.old out.new V.sink between err.new wanted.now) bytes.now result }
{
    match refused_strictly(alloc, is_strict, bytes, err) {
        Some(status) => status,
        None => draw(alloc, bytes, wanted, out, err),
    }
}

/// Draws a chart or a schedule.
fn view_file_picture<G: Giver, W: Out, V: Out>(
    alloc: Global,
    picture: &Draw<'_>,
    giver: &G,
    out: &mut W,
    err: &mut V,
) -> Result<u8, ProgramError>
    ensures { ViewsFilePicture (G.gives giver.now) W.sink out.old out.new V.sink err.old err.new picture.now result }
{
    let wanted = picture_by(picture)?;
    let bytes = first_in(alloc, giver, picture.file)?;
    Ok(answer_strictly(alloc, picture.strict, bytes.as_slice(), &wanted, out, err))
}

/// Draws a file, which may be another tool's text.
pub(crate) fn view_picture<G: Giver, W: Out, V: Out>(
    alloc: Global,
    picture: &Draw<'_>,
    giver: &G,
    out: &mut W,
    err: &mut V,
) -> Result<u8, ProgramError>
    ensures { ViewsPicture (G.gives giver.now) W.sink out.old out.new V.sink err.old err.new picture.now result }
{
    match &picture.reading {
        Some(reading) => view_picture_of(alloc, picture, reading, giver, out, err),
        None => view_file_picture(alloc, picture, giver, out, err),
    }
}

/// The target of an export. G1: the word names no target.
fn target_by(word: &str) -> Result<Target, ProgramError>
    ensures { Says (λ target. target_named word.now ≡ Some target) result }
{
    match target_in(word) {
        Some(target) => Ok(target),
        None => Err(ProgramError::Usage),
    }
}

/// Writes a file as a text for another tool.
pub(crate) fn view_export<G: Giver, W: Out, V: Out>(
    alloc: Global,
    exported: &Export<'_>,
    giver: &G,
    out: &mut W,
    err: &mut V,
) -> Result<u8, ProgramError>
    ensures { ViewsExport (G.gives giver.now) W.sink out.old out.new V.sink err.old err.new exported.now result }
{
    let target = target_by(exported.to)?;
    let bytes = first_in(alloc, giver, exported.file)?;
    Ok(export(alloc, bytes.as_slice(), target, out, err))
}
