//! The widths of a picture's texts, and the place where a long name is broken.
ghost use Rattle.std.specs.Prelude.{◌≡◌, ◌≤◌, ◌<◌, nat_eq, position, length, IfSome};
ghost use Rattle.picture_parts.specs.Columns.TextWidths.{text_width, break_of, line_break, name_width, cut_width, number_width};

/// The width of this number of characters in pixels, of which at most 80 count. In a font of 11 pixels a character is
/// at most 20/3 pixels wide.
fn text_width(characters: usize) -> u32
    ensures value { result ≡ text_width characters }
    ensures limit { result ≤ 534 }
{
    (20 * characters.min(80) as u32 + 2) / 3
}

/// The place of the first `_`.
fn underscore_in(bytes: &[u8]) -> Option<usize>
    ensures place { result ≡ position (λ b. nat_eq b 95) bytes.now }
    ensures within { IfSome result (λ place. place < length bytes.now) }
{
    bytes.iter().position(|byte| *byte == b'_')
}

/// The number of bytes of a name's upper line.
fn break_of(name: &[u8]) -> usize
    ensures value { result ≡ break_of name.now }
    ensures within { result ≤ length name.now }
{
    if name.len() <= 12 {
        return 0;
    }
    let third = name.len() / 3;
    match underscore_in(&name[third..]) {
        Some(place) => third + place + 1,
        None => 0,
    }
}

/// The number of bytes of a name's upper line, if the name is between neighbours. Elsewhere it has one line.
pub fn line_break(name: &[u8], near: bool) -> usize
    ensures value { result ≡ line_break near name.now }
    ensures within { result ≤ length name.now }
{
    if near { break_of(name) } else { 0 }
}

/// The width of a name, in pixels.
pub fn name_width(name: &[u8], near: bool) -> u32
    ensures value { result ≡ name_width near name.now }
    ensures limit { result ≤ 534 }
{
    let upper = line_break(name, near);
    text_width(upper.max(name.len() - upper))
}

/// The width of the label of a cut message, including the arrow before it.
pub(crate) fn cut_width(name: &[u8], other: &[u8]) -> u32
    requires name { length name.now ≤ 80 }
    requires other { length other.now ≤ 80 }
    ensures value { result ≡ cut_width name.now other.now }
{
    text_width(name.len() + other.len() + 6) + 21
}

/// The width of a number, in pixels.
pub(crate) fn number_width(number: usize) -> u32
    ensures value { result ≡ number_width number }
    ensures limit { result ≤ 22 }
{
    if number < 10 {
        6
    } else if number < 100 {
        11
    } else if number < 1000 {
        17
    } else {
        22
    }
}
