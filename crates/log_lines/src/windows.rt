//! Several lines of a text together.
ghost use Rattle.std.specs.Prelude.{◌≡◌, ◌+◌, ◌≤◌, length, take};
ghost use Rattle.std.specs.List.{join_with_byte};
ghost use Rattle.log_lines.specs.Reading.{all_lines};
ghost use Rattle.log_lines.specs.Windows.{without_return};

use texts::next_line;

/// How many bytes the first line and `more` lines after it have, with the line feeds between them.
fn window_length(text: &[u8], more: usize) -> usize
    ensures within { result ≤ length text.now }
    ensures value { take result text.now ≡ join_with_byte 10 (take (more + 1) (all_lines text.now)) }
{
    match next_line(text) {
        None => text.len(),
        Some((line, after)) => {
            if more == 0 {
                line.len()
            } else {
                line.len() + 1 + window_length(after, more - 1)
            }
        }
    }
}

/// The bytes without a carriage return at their end.
#[tactic(auto, unfolding(crate::specs::Windows::without_return))]
fn without_return(bytes: &[u8]) -> &[u8]
    ensures { result.now ≡ without_return bytes.now }
{
    match bytes {
        [.., b'\r'] => &bytes[..bytes.len() - 1],
        _ => bytes,
    }
}

/// The first line of a text and `more` lines after it, without a carriage return at their end.
pub fn window(text: &[u8], more: usize) -> &[u8]
    ensures { result.now ≡ without_return (join_with_byte 10 (take (more + 1) (all_lines text.now))) }
{
    without_return(&text[..window_length(text, more)])
}
