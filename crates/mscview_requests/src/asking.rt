//! Questions about files: about a pair of events, and about the differences of two files.
ghost use Rattle.std.specs.Prelude.{◌≡◌};
ghost use Rattle.mscview_requests.specs.Words.Words.{Says};
ghost use Rattle.mscview_requests.specs.Effects.{DoesPair, DoesStrictly, ViewsPair, ViewsComparison};
ghost use Rattle.mscview_requests.specs.Wanted.{IsNumberIn, IsAsked, comparison_form};

use crate::giving::{Giver, first_in};
use cli::view::{Compare, Pair, Question};
use cmd_base::pairs::Asked;
use cmd_base::{ProgramError, number_in, refused_strictly};
use cmd_compare::{Form, compare};
use cmd_explain_race::{why, witness};
use std::alloc::Global;
use texts::Out;

/// The number in a word. G1: the word isn't a number.
pub(crate) fn number_by(word: &str) -> Result<u64, ProgramError>
    ensures { Says (IsNumberIn word.now) result }
{
    match number_in(word) {
        Some(number) => Ok(number),
        None => Err(ProgramError::Usage),
    }
}

/// The two events that the words name. G1: a word isn't a number.
pub(crate) fn asked_by<'a>(
    instance: &'a str,
    earlier: &str,
    receive: &str,
) -> Result<Asked<'a>, ProgramError>
    ensures { Says (IsAsked instance.now earlier.now receive.now) result }
{
    let earlier = number_by(earlier)?;
    let receive = number_by(receive)?;
    Ok(Asked {
        instance: instance.as_bytes(),
        earlier,
        receive,
    })
}

/// Explains the pair of events, or writes its witness.
pub(crate) fn answer_pair<W: Out, V: Out>(
    alloc: Global,
    question: Question,
    bytes: &[u8],
    asked: &Asked<'_>,
    out: &mut W,
    err: &mut V,
) -> u8
    ensures { DoesPair W.sink out.old out.new V.sink err.old err.new question asked.now bytes.now result }
{
    match question {
        Question::Witness => witness(alloc, bytes, asked, out, err),
        Question::Why => why(alloc, bytes, asked, out, err),
    }
}

/// Explains the pair of events, or writes its witness, unless `--strict` refuses the file.
fn answer_strictly<W: Out, V: Out>(
    alloc: Global,
    pair: &Pair<'_>,
    bytes: &[u8],
    asked: &Asked<'_>,
    out: &mut W,
    err: &mut V,
) -> u8
    ensures { DoesStrictly W.sink out.old out.new V.sink err.old err.new pair.now.strict
        (λ between. DoesPair W.sink out.old out.new V.sink between err.new pair.now.question asked.now) bytes.now
        result }
{
    match refused_strictly(alloc, pair.strict, bytes, err) {
        Some(status) => status,
        None => answer_pair(alloc, pair.question, bytes, asked, out, err),
    }
}

/// Explains a pair of events, or writes its witness.
pub(crate) fn view_pair<G: Giver, W: Out, V: Out>(
    alloc: Global,
    pair: &Pair<'_>,
    giver: &G,
    out: &mut W,
    err: &mut V,
) -> Result<u8, ProgramError>
    ensures { ViewsPair (G.gives giver.now) W.sink out.old out.new V.sink err.old err.new pair.now result }
{
    let asked = asked_by(pair.instance, pair.earlier, pair.receive)?;
    let bytes = first_in(alloc, giver, Some(pair.file))?;
    Ok(answer_strictly(alloc, pair, bytes.as_slice(), &asked, out, err))
}

fn form_of(json: bool) -> Form
    ensures { result ≡ comparison_form json }
{
    if json { Form::Json } else { Form::Plain }
}

/// Compares two files.
pub(crate) fn view_comparison<G: Giver, W: Out, V: Out>(
    alloc: Global,
    wanted: &Compare<'_>,
    giver: &G,
    out: &mut W,
    err: &mut V,
) -> Result<u8, ProgramError>
    ensures { ViewsComparison (G.gives giver.now) W.sink out.old out.new V.sink err.old err.new wanted.now result }
{
    let first = giver.bytes_in(alloc, 0, Some(wanted.first))?;
    let second = giver.bytes_in(alloc, 1, Some(wanted.second))?;
    let (first, second) = (first.as_slice(), second.as_slice());
    Ok(compare(alloc, first, second, form_of(wanted.json), out, err))
}
