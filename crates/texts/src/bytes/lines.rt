//! The ends of a text's lines.
ghost use Rattle.std.specs.Prelude.{◌≡◌, ◌≤◌, ◌<◌, ◌==◌, length, position, IfSome};
ghost use Rattle.texts.specs.Bytes.Lines.{line_length};

/// The place of the first line feed.
fn line_feed(bytes: &[u8]) -> Option<usize>
    ensures value { result ≡ position (λ b. b == 10) bytes.now }
    ensures within { IfSome result (λ place. place < length bytes.now) }
{
    bytes.iter().position(|byte| *byte == b'\n')
}

/// The number of bytes before the first line feed, or before the end of the text.
#[tactic(auto, unfolding(crate::specs::Bytes::Lines::line_length))]
pub fn line_length(bytes: &[u8]) -> usize
    ensures value { result ≡ line_length bytes.now }
    ensures within { result ≤ length bytes.now }
{
    match line_feed(bytes) {
        None => bytes.len(),
        Some(place) => place,
    }
}
