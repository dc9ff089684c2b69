//! Words one after another in bytes, as another language gives them.
ghost use Rattle.std.specs.Prelude.{◌≡◌, ◌≤◌, length, take, drop};

/// The word of `many` bytes from `start` on, or its first part if the bytes end before.
pub fn word_at(bytes: &[u8], start: usize, many: usize) -> &[u8]
    requires { start ≤ length bytes.now }
    ensures { result.now ≡ take many (drop start bytes.now) }
{
    let rest = &bytes[start..];
    &rest[..many.min(rest.len())]
}
