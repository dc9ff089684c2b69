//! Kinds of bytes.
ghost use Rattle.std.specs.Prelude.{◌≡◌};
ghost use Rattle.texts.specs.Bytes.Classes.{is_blank, is_white_space, is_word_byte, printable};

/// A space, a tab or a carriage return.
pub fn is_blank(byte: u8) -> bool
    ensures { result ≡ is_blank byte }
{
    byte == b' ' || byte == b'\t' || byte == b'\r'
}

/// A space, a tab, a line feed or a carriage return.
pub fn is_white_space(byte: u8) -> bool
    ensures { result ≡ is_white_space byte }
{
    byte == b' ' || byte == b'\t' || byte == b'\n' || byte == b'\r'
}

/// A digit, a letter or `_`.
pub fn is_word_byte(byte: u8) -> bool
    ensures { result ≡ is_word_byte byte }
{
    (b'0' <= byte && byte <= b'9')
        || (b'A' <= byte && byte <= b'Z')
        || (b'a' <= byte && byte <= b'z')
        || byte == b'_'
}

/// The byte as it is shown: `?` if it isn't a printable ASCII character.
pub fn printable(byte: u8) -> u8
    ensures { result ≡ printable byte }
{
    if b' ' <= byte && byte <= b'~' {
        byte
    } else {
        b'?'
    }
}
