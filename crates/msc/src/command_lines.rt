//! The export that does what `mscview` does for a command line whose files are in memory.
ghost use Rattle.msc.specs.CommandLines.{ViewsTexts};

use crate::performing::{MscLengths, performed_code};
use c_commands::{Bytes, view_into};
use std::alloc::Global;

#[unsafe(no_mangle)]
pub extern "C" fn msc_view_(
    alloc: Global,
    words: &[Bytes<'_>],
    texts: &[Bytes<'_>],
    out: &mut [u8],
    err: &mut [u8],
    lengths: &mut MscLengths,
) -> i32
    ensures { ViewsTexts texts.now (record { out = out.old; err = err.old })
        (record { code = result; before = lengths.old; output = lengths.new }) (record { out = out.new; err = err.new }) }
{
    performed_code(view_into(alloc, words, texts, out, err), lengths)
}
