//! Case-insensitive words.
ghost use Rattle.std.specs.Prelude.{◌≡◌, ◌≤◌, length, nat_eq, map, IsTrue};
ghost use Rattle.std.specs.Char.{to_ascii_lowercase};
ghost use Rattle.std.specs.List.{starts_with};
ghost use Rattle.texts.specs.Bytes.Words.{is_spelled};

/// Whether the bytes begin with the known ones.
pub fn begins(bytes: &[u8], known: &[u8]) -> bool
    ensures value { result ≡ starts_with nat_eq bytes.now known.now }
    ensures within { IsTrue result → length known.now ≤ length bytes.now }
{
    bytes.starts_with(known)
}

/// Whether the word is the known one. ASCII case is ignored.
#[tactic(auto, unfolding(crate::specs::Bytes::Words::is_spelled))]
pub fn is_spelled(known: &[u8], word: &[u8]) -> bool
    ensures { result ≡ is_spelled known.now word.now }
{
    word.eq_ignore_ascii_case(known)
}
