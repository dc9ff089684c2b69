//! Commands for whole files: `explain`, `tidy` and `page`.
ghost use Rattle.std.specs.Prelude.{option_map};
ghost use Rattle.cmd_page.specs.Showing.{titled};
ghost use Rattle.mscview_requests.specs.Effects.{DoesStrictly, WritesPage, ViewsPage, ViewsTidy, ViewsExplanation};

use crate::drawing::file_title;
use crate::giving::{Giver, first_in};
use cli::view::Page;
use cmd_base::{ProgramError, refused_strictly};
use cmd_explain_file::explain;
use cmd_page::write_page_of;
use cmd_tidy::tidy;
use std::alloc::Global;
use texts::Out;

/// Writes the page of a file, unless `--strict` refuses the file.
fn answer_strictly<W: Out, V: Out>(
    alloc: Global,
    is_strict: bool,
    bytes: &[u8],
    title: &[u8],
    out: &mut W,
    err: &mut V,
) -> u8
    ensures { DoesStrictly W.sink out.old out.new V.sink err.old err.new is_strict
        (λ between. WritesPage W.sink out.old out.new V.sink between err.new title.now) bytes.now result }
{
    match refused_strictly(alloc, is_strict, bytes, err) {
        Some(status) => status,
        None => write_page_of(alloc, bytes, title, out, err),
    }
}

/// Writes the page of a file, with the title that a picture of the file has.
pub(crate) fn view_page<G: Giver, W: Out, V: Out>(
    alloc: Global,
    page: &Page<'_>,
    giver: &G,
    out: &mut W,
    err: &mut V,
) -> Result<u8, ProgramError>
    ensures { ViewsPage (G.gives giver.now) W.sink out.old out.new V.sink err.old err.new page.now result }
{
    let bytes = first_in(alloc, giver, page.file)?;
    let title = file_title(page.file);
    Ok(answer_strictly(alloc, page.strict, bytes.as_slice(), title, out, err))
}

/// Writes the exact text of a typed file.
pub(crate) fn view_tidy<G: Giver, W: Out, V: Out>(
    alloc: Global,
    file: Option<&str>,
    giver: &G,
    out: &mut W,
    err: &mut V,
) -> Result<u8, ProgramError>
    ensures { ViewsTidy (G.gives giver.now) W.sink out.old out.new V.sink err.old err.new
        (option_map (λ w. w.now) file.entry) result }
{
    let bytes = first_in(alloc, giver, file)?;
    Ok(tidy(alloc, bytes.as_slice(), out, err))
}

/// Reports what a file is, and its first fault.
pub(crate) fn view_explanation<G: Giver, W: Out, V: Out>(
    alloc: Global,
    file: Option<&str>,
    giver: &G,
    out: &mut W,
    err: &mut V,
) -> Result<u8, ProgramError>
    ensures { ViewsExplanation (G.gives giver.now) W.sink out.old out.new V.sink err.old err.new
        (option_map (λ w. w.now) file.entry) result }
{
    let bytes = first_in(alloc, giver, file)?;
    Ok(explain(alloc, bytes.as_slice(), out, err))
}
