//! Whether a text is a schedule or a chart.
ghost use Rattle.std.specs.Prelude.{◌≡◌};
ghost use Rattle.cmd_base.specs.Contents.{is_schedule};

use texts::{next_line, next_word};

/// Whether the first word of the text's first line is `instances`, with which a schedule begins. Any other text is read
/// as a chart.
pub fn is_schedule(text: &[u8]) -> bool
    ensures { result ≡ is_schedule text.now }
{
    match next_line(text) {
        Some((line, _)) => next_word(line).0 == b"instances".as_slice(),
        None => false,
    }
}
