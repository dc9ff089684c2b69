//! The name of a file.
ghost use Rattle.std.specs.Prelude.{◌≡◌, ◌<◌, length, IfSome};
ghost use Rattle.cmd_draw.specs.Titles.{behind, IsFileName};

use memchr::memrchr;

/// The part of a path after this place, or all of it without a place.
fn behind(path: &[u8], place: Option<usize>) -> &[u8]
    requires { IfSome place (λ place. place < length path.now) }
    ensures { result.now ≡ behind place path.now }
{
    match place {
        Some(place) => {
            let (_, rest) = path.split_at(place + 1);
            rest
        }
        None => path,
    }
}

/// The name of a file without its folders: the part of its path after the last `/`, or the whole path if it has none.
pub fn file_name(path: &[u8]) -> &[u8]
    ensures { IsFileName path.now result.now }
{
    behind(path, memrchr(b'/', path))
}
