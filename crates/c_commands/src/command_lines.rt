//! Command lines whose files are texts in memory, and whose output is written into buffers.
ghost use Rattle.std.specs.Prelude.{◌≡◌, ◌∷◌, length, map, codes, IfOk, IfErr};
ghost use Rattle.mscview_requests.specs.Lines.{RefusesWords};
ghost use Rattle.c_commands.specs.CommandLines.{IsViewed, IsRefused, Views, ViewsSome};

use crate::given::{Bytes, Texts};
use crate::performing::Performed;
use c_board::{Misuse, copy_out};
use cli::view::{Request, requested};
use cmd_base::{ProgramError, refused};
use mscview_requests::{many_files, refusal, view_request};
use std::alloc::{AllocFailed, Global};
use std::str::from_utf8;
use texts::MemoryOut;

/// The words of a command line, with the program's name first. G1: a word isn't text. F6: a growth was refused.
fn words_in<'a>(alloc: Global, words: &[Bytes<'a>]) -> Result<Vec<&'a str>, ProgramError>
    ensures words { IfOk result (λ all. map (λ w. w.now) all.items ≡ codes "mscview" ∷ map (λ w. w.bytes.now) words.now) }
    ensures refused { IfErr result RefusesWords }
{
    let mut all: Vec<&'a str> = Vec::new(alloc);
    match all.push("mscview") {
        Ok(()) => {}
        Err(AllocFailed { .. }) => return Err(ProgramError::Memory),
    }
    for word in words {
        let Ok(text) = from_utf8(word.bytes) else {
            return Err(ProgramError::Usage);
        };
        match all.push(text) {
            Ok(()) => {}
            Err(AllocFailed { .. }) => return Err(ProgramError::Memory),
        }
    }
    Ok(all)
}

/// Does the request with the texts, and writes its output into the buffers.
fn view_texts(
    alloc: Global,
    request: &Request<'_>,
    texts: &[Bytes<'_>],
    out: &mut [u8],
    err: &mut [u8],
) -> Performed
    ensures { IsViewed texts.now request.now out.old err.old result out.new err.new }
{
    let mut written = MemoryOut::new(alloc);
    let mut diagnostics = MemoryOut::new(alloc);
    let texts = Texts { texts };
    let status = view_request(alloc, request, &texts, &mut written, &mut diagnostics);
    Performed {
        status,
        out: copy_out(written.as_bytes(), out),
        err: copy_out(diagnostics.as_bytes(), err),
    }
}

/// Writes why the words are no request.
fn refuse(alloc: Global, error: ProgramError, out: &mut [u8], err: &mut [u8]) -> Performed
    ensures { IsRefused error out.old err.old result out.new err.new }
{
    let mut diagnostics = MemoryOut::new(alloc);
    let status = refused(&error, &mut diagnostics);
    Performed {
        status,
        out: copy_out(&[], out),
        err: copy_out(diagnostics.as_bytes(), err),
    }
}

/// Does the request of a command line, as `mscview` does it, with these texts as its files. The first file that it
/// reads is the first text, and so on, and standard input is one of them. Standard output goes into `out`, and standard
/// error into `err`, as much as there is room for. The result has their whole lengths.
///
/// [`Misuse::WrongNumber`]: the request doesn't read as many files as there are texts. Then nothing is done, and the
/// buffers stay as they were.
pub fn view_request_into(
    alloc: Global,
    request: &Request<'_>,
    texts: &[Bytes<'_>],
    out: &mut [u8],
    err: &mut [u8],
) -> Result<Performed, Misuse>
    ensures { Views texts.now request.now out.old err.old result out.new err.new }
{
    if many_files(request) != texts.len() {
        return Err(Misuse::WrongNumber);
    }
    Ok(view_texts(alloc, request, texts, out, err))
}

/// The same for the words of a command line, with the program's name first.
fn view_words(
    alloc: Global,
    words: &[&str],
    texts: &[Bytes<'_>],
    out: &mut [u8],
    err: &mut [u8],
) -> Result<Performed, Misuse>
    ensures { ViewsSome texts.now out.old err.old result out.new err.new }
{
    match requested(alloc, words) {
        Ok(request) => view_request_into(alloc, &request, texts, out, err),
        Err(error) => Ok(refuse(alloc, refusal(error), out, err)),
    }
}

/// Does the request of the words of a command line, without the program's name, as [`view_request_into`] does it. It
/// refuses the words that `mscview` refuses (G1, F6), with status 2 and the refusal's line in `err`, or a part of it.
pub fn view_into(
    alloc: Global,
    words: &[Bytes<'_>],
    texts: &[Bytes<'_>],
    out: &mut [u8],
    err: &mut [u8],
) -> Result<Performed, Misuse>
    ensures { ViewsSome texts.now out.old err.old result out.new err.new }
{
    match words_in(alloc, words) {
        Ok(words) => view_words(alloc, words.as_slice(), texts, out, err),
        Err(error) => Ok(refuse(alloc, error, out, err)),
    }
}
