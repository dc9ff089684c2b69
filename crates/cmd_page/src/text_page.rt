//! The page of a chart that isn't in a file.
ghost use Rattle.std.specs.Prelude.{◌≡◌, length, All, IfOk, IfSome};
ghost use Rattle.msc_text.specs.ChartText.{chart_text};
ghost use Rattle.cmd_page.specs.Marks.Pairing.{HasRange};
ghost use Rattle.cmd_page.specs.Showing.{ShowsText, heading_view};

use crate::showing::{Heading, show_text};
use chart::{Chart, Names};
use cmd_base::ProgramError;
use msc_text::write;
use std::alloc::{AllocError, Global};
use texts::{MemoryOut, Out};

/// The text of a chart, as `mscview import` writes it.
fn text_of(alloc: Global, names: &Names, chart: &Chart) -> Result<Vec<u8>, AllocError>
    requires { length names.now ≡ length chart.now }
    ensures { IfOk result (λ text. text.items ≡ chart_text names.now chart.now) }
{
    let mut out = MemoryOut::new(alloc);
    match write(names, chart, &mut out) {
        Ok(()) => Ok(out.into_bytes()),
        Err(_) => Err(AllocError),
    }
}

/// Writes the page of a chart's text. The chart has a line for each name. The refusals are those of [`show_text`].
pub fn show_chart_text<W: Out>(
    alloc: Global,
    names: &Names,
    chart: &Chart,
    heading: &Heading<'_>,
    out: &mut W,
) -> Result<(), ProgramError>
    requires named { length names.now ≡ length chart.now }
    requires ranges { IfSome heading.now.races (λ races. All HasRange races.now) }
    ensures { ShowsText W.sink out.old out.new (heading_view heading.now) (chart_text names.now chart.now) result }
{
    let text = match text_of(alloc, names, chart) {
        Ok(text) => text,
        Err(AllocError) => return Err(ProgramError::Memory),
    };
    show_text(alloc, text.as_slice(), heading, out)
}
