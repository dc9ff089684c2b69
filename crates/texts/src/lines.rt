//! The lines of a text.
ghost use Rattle.std.specs.Prelude.{◌≡◌, ◌<◌, ◌==◌, ◌++◌, ◌∷◌, [], length, position, IfSome, IfNone};
ghost use Rattle.texts.specs.Lines.{parts, lines_of, end_of};

/// The index of the first such byte.
fn place_of(byte: u8, bytes: &[u8]) -> Option<usize>
    ensures { result ≡ position (λ b. b == byte) bytes.now }
{
    bytes.iter().position(|b| *b == byte)
}

/// The bytes before the first such byte, and the bytes after it; `None` if there is none.
pub(crate) fn cut_at(byte: u8, bytes: &[u8]) -> Option<(&[u8], &[u8])>
    ensures cut { IfSome result (λ cut. parts byte bytes.now ≡ cut.0.now ∷ parts byte cut.1.now) }
    ensures shorter { IfSome result (λ cut. length cut.1.now < length bytes.now) }
    ensures whole { IfNone result (parts byte bytes.now ≡ bytes.now ∷ []) }
{
    match place_of(byte, bytes) {
        None => None,
        Some(place) => Some((&bytes[..place], &bytes[place + 1..])),
    }
}

/// The next whole line without its line feed, and the bytes after it; `None` if no line feed is left.
pub fn next_line(bytes: &[u8]) -> Option<(&[u8], &[u8])>
    ensures line { IfSome result (λ next. lines_of bytes.now ≡ next.0.now ∷ lines_of next.1.now) }
    ensures end { IfSome result (λ next. end_of bytes.now ≡ end_of next.1.now) }
    ensures shorter { IfSome result (λ next. length next.1.now < length bytes.now) }
    ensures no_line { IfNone result (lines_of bytes.now ≡ []) }
    ensures all_end { IfNone result (end_of bytes.now ≡ bytes.now) }
{
    match cut_at(b'\n', bytes) {
        None => None,
        Some((line, rest)) => Some((line, rest)),
    }
}
