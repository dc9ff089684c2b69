//! The part of a file that is a chart's text.
ghost use Rattle.std.specs.Prelude.{◌≡◌};
ghost use Rattle.cmd_base.specs.Contents.{chart_part};

use texts::next_line;

/// The text up to and including the first line that ends a chart, or the whole text if no line does. So the output of
/// `mscrun` can be read as a chart: the races and notes below the chart are no part of it.
pub(crate) fn chart_part(bytes: &[u8]) -> &[u8]
    ensures { result.now ≡ chart_part bytes.now }
{
    let mut rest = bytes;
    while let Some((line, below)) = next_line(rest) {
        if line == b"endmsc;".as_slice() {
            return &bytes[..bytes.len() - below.len()];
        }
        rest = below;
    }
    bytes
}
