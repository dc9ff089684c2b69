//! The number of lines in which an expression is searched.
ghost use Rattle.std.specs.Prelude.{◌≡◌, ◌+◌, ◌≤◌, ◌<◌, ◌^◌, length};
ghost use Rattle.log_formats.specs.Patterns.Feeds.{is_feed, behind_plain, behind_next, opened, depth_plain, depth_next, feeds_from};
ghost use Rattle.log_formats.specs.declared.patterns.feeds.Behind.TheVariants as stands;

/// What comes directly before a byte of an expression.
#[derive(Clone, Copy, Debug, PartialEq, Eq)]
pub(crate) enum Behind {
    /// A backslash that isn't escaped.
    Backslash,
    /// The bracket that opens a class.
    Bracket,
    /// The caret after such a bracket.
    Caret,
    Other,
}

/// Whether the byte is a line feed, or the letter of `\n`, and isn't in a class that begins with `[^`.
fn is_feed(behind: Behind, depth: usize, byte: u8) -> bool
    ensures { result ≡ is_feed behind depth byte }
{
    match behind {
        Behind::Backslash => depth == 0 && (byte == b'\n' || byte == b'n'),
        _ => depth == 0 && byte == b'\n',
    }
}

fn behind_plain(byte: u8) -> Behind
    ensures { result ≡ behind_plain byte }
{
    if byte == b'\\' {
        Behind::Backslash
    } else if byte == b'[' {
        Behind::Bracket
    } else {
        Behind::Other
    }
}

/// What comes directly before the next byte.
fn behind_next(behind: Behind, byte: u8) -> Behind
    ensures { result ≡ behind_next behind byte }
{
    match behind {
        Behind::Backslash => Behind::Other,
        Behind::Bracket => {
            if byte == b'^' {
                Behind::Caret
            } else {
                behind_plain(byte)
            }
        }
        _ => behind_plain(byte),
    }
}

/// The number of open classes after a bracket that opens one, counted from the outermost class that begins with `[^`.
fn opened(depth: usize) -> usize
    requires { depth < 2 ^ 63 }
    ensures value { result ≡ opened depth }
    ensures one { result ≤ depth + 1 }
{
    if depth == 0 { 0 } else { depth + 1 }
}

/// The same after a byte that closes no class.
fn depth_plain(depth: usize, byte: u8) -> usize
    requires { depth < 2 ^ 63 }
    ensures value { result ≡ depth_plain depth byte }
    ensures one { result ≤ depth + 1 }
{
    if byte == b'[' { opened(depth) } else { depth }
}

/// The same after any byte.
fn depth_next(behind: Behind, depth: usize, byte: u8) -> usize
    requires { depth < 2 ^ 63 }
    ensures value { result ≡ depth_next behind depth byte }
    ensures one { result ≤ depth + 1 }
{
    match behind {
        Behind::Backslash => depth,
        Behind::Bracket => {
            if byte == b'^' {
                depth.max(1)
            } else {
                depth_plain(depth, byte)
            }
        }
        Behind::Caret => depth_plain(depth, byte),
        Behind::Other => {
            if byte == b']' {
                depth.saturating_sub(1)
            } else {
                depth_plain(depth, byte)
            }
        }
    }
}

/// The number of line feeds of an expression: each `\n`, and each byte that is a line feed. Those in classes that begin
/// with `[^` don't count, since such a class matches other bytes.
#[tactic(auto, unfolding(crate::specs::Patterns::Feeds::feeds_from))]
pub(crate) fn feeds_in(expression: &[u8]) -> usize
    ensures value { result ≡ feeds_from stands.Other 0 expression.now }
    ensures within { result ≤ length expression.now }
{
    let mut count = 0;
    let mut behind = Behind::Other;
    let mut depth = 0;
    for byte in expression {
        if is_feed(behind, depth, *byte) {
            count += 1;
        }
        depth = depth_next(behind, depth, *byte);
        behind = behind_next(behind, *byte);
    }
    count
}
