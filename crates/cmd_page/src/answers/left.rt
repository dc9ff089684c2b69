//! The results of the commands for two events: their output, their text on standard error, and their status.
ghost use Rattle.std.specs.Prelude.{ℕ, List, IfOk, IsTrue};
ghost use Rattle.cmd_base.specs.Texts.{ComesFrom, IsReadAs};
ghost use Rattle.cmd_page.specs.Answers.Leaving.{IsWhole, IsWhy, IsWitness, IsMend};

use crate::answers::collected::Collected;
use cmd_base::Source;
use cmd_base::pairs::Asked;
use cmd_explain_race::{why_of_source, witness_of_source};
use cmd_mend::mend_of_source;
use std::alloc::{AllocError, Global};

/// The result of a command: the text on standard output, the text on standard error, and the exit status.
#[derive(Drop)]
pub struct Left {
    pub out: Collected,
    pub err: Collected,
    pub status: u8,
}

/// The line of a command that ran out of memory.
const OUT_OF_MEMORY: &[u8] = b"refused: F6 Memory\n";

/// Whether the result is complete: no put failed, and memory didn't run out otherwise.
fn is_all(left: &Left) -> bool
    ensures whole { IsTrue result → IsWhole left.now }
    ensures all { IsWhole left.now → IsTrue result }
{
    if !left.out.is_whole() {
        return false;
    }
    if !left.err.is_whole() {
        return false;
    }
    left.err.as_bytes() != OUT_OF_MEMORY
}

/// The result of `why` for the file of a chart.
pub(crate) fn why_left(
    alloc: Global,
    source: &Source<'_>,
    asked: &Asked<'_>,
) -> Result<Left, AllocError>
    ensures { IfOk result (λ left. (bytes : List ℕ) → IsReadAs bytes source.now → IsWhy bytes asked.now left) }
{
    let mut out = Collected::new(alloc);
    let mut err = Collected::new(alloc);
    let status = why_of_source(alloc, source, asked, &mut out, &mut err);
    let left = Left { out, err, status };
    if !is_all(&left) {
        return Err(AllocError);
    }
    Ok(left)
}

/// The result of `witness` for the file of a chart.
pub(crate) fn witness_left(
    alloc: Global,
    source: &Source<'_>,
    asked: &Asked<'_>,
) -> Result<Left, AllocError>
    requires { ComesFrom source.now }
    ensures { IfOk result (λ left. (bytes : List ℕ) → IsReadAs bytes source.now → IsWitness bytes asked.now left) }
{
    let mut out = Collected::new(alloc);
    let mut err = Collected::new(alloc);
    let status = witness_of_source(alloc, source, asked, &mut out, &mut err);
    let left = Left { out, err, status };
    if !is_all(&left) {
        return Err(AllocError);
    }
    Ok(left)
}

/// The result of `mend` for the file of a chart. `mend` chooses the name of the message.
pub(crate) fn mend_left(
    alloc: Global,
    source: &Source<'_>,
    asked: &Asked<'_>,
) -> Result<Left, AllocError>
    ensures { IfOk result (λ left. (bytes : List ℕ) → IsReadAs bytes source.now → IsMend bytes asked.now left) }
{
    let wanted = cmd_mend::Wanted {
        asked: *asked,
        name: None,
        detail: cmd_mend::Detail::Full,
    };
    let mut out = Collected::new(alloc);
    let mut err = Collected::new(alloc);
    let status = mend_of_source(alloc, source, &wanted, &mut out, &mut err);
    let left = Left { out, err, status };
    if !is_all(&left) {
        return Err(AllocError);
    }
    Ok(left)
}
