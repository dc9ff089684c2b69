//! Reads on in a file, line by line.
ghost use Rattle.cmd_explain_file.specs.Sayings.{IsFrom};

use fault_places::standing_at;

/// The part of a file from the line `wanted` on. `rest` is its part from `line` on. The search continues there if it
/// can. Notes come in the order of their lines, so all of them together take one pass over the file.
pub(crate) fn text_from<'a>(file: &'a [u8], rest: &'a [u8], line: u64, wanted: u64) -> &'a [u8]
    requires { IsFrom file.now line rest.now }
    ensures { IsFrom file.now wanted result.now }
{
    if 0 < line && line <= wanted {
        standing_at(rest, wanted - line + 1).text
    } else {
        standing_at(file, wanted).text
    }
}
