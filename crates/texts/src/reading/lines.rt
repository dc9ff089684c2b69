//! Lines whose ends are found many bytes at a time, and the bytes after known ones.
ghost use Rattle.std.specs.Prelude.{◌≡◌, ◌<◌, ◌==◌, ◌++◌, ◌∷◌, [], length, position, IfSome, IfNone};
ghost use Rattle.texts.specs.Lines.{lines_of, end_of};

use memchr::memchr;

/// The index of the first line feed.
fn place_of_line_feed(bytes: &[u8]) -> Option<usize>
    ensures { result ≡ position (λ b. b == 10) bytes.now }
{
    memchr(b'\n', bytes)
}

/// The next whole line without its line feed, and the bytes after it; `None` if no line feed is left.
pub fn next_line(bytes: &[u8]) -> Option<(&[u8], &[u8])>
    ensures line { IfSome result (λ next. lines_of bytes.now ≡ next.0.now ∷ lines_of next.1.now) }
    ensures end { IfSome result (λ next. end_of bytes.now ≡ end_of next.1.now) }
    ensures shorter { IfSome result (λ next. length next.1.now < length bytes.now) }
    ensures no_line { IfNone result (lines_of bytes.now ≡ []) }
    ensures all_end { IfNone result (end_of bytes.now ≡ bytes.now) }
{
    match place_of_line_feed(bytes) {
        None => None,
        Some(place) => Some((&bytes[..place], &bytes[place + 1..])),
    }
}

/// The bytes after the front, if the bytes begin with it.
#[inline(always)]
pub fn behind<'a>(front: &[u8], bytes: &'a [u8]) -> Option<&'a [u8]>
    ensures { IfSome result (λ rest. bytes.now ≡ front.now ++ rest.now) }
{
    match bytes.strip_prefix(front) {
        None => None,
        Some(rest) => Some(rest),
    }
}
