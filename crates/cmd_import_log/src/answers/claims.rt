//! The warnings about a log's chart, and whether no race is claimed.
ghost use Rattle.std.specs.Prelude.{◌≤◌, length, map, All};
ghost use Rattle.texts.specs.Writing.{Wrote, Adds};
ghost use Rattle.cmd_import_log.specs.Answers.Claims.{unclaimed_note, unclaimed_text, claims_text};

use crate::answers::diagnostics::{Diagnostics, add_diagnostics};
use texts::{Out, TextBuffer, WriteError};

/// Adds that no race is claimed.
#[tactic(auto, unfolding(crate::specs::Answers::Claims::unclaimed_note))]
fn add_unclaimed_note<V: Out>(text: &mut TextBuffer<'_, V>) -> Result<(), WriteError>
    ensures { Adds V.sink text.old text.new result unclaimed_note }
{
    text.add(b"no race is claimed: each is begun in the middle\n")
}

/// Adds that no race is claimed, if there are races and none is.
fn add_unclaimed<V: Out>(text: &mut TextBuffer<'_, V>, is_unclaimed: bool) -> Result<(), WriteError>
    ensures { Adds V.sink text.old text.new result (unclaimed_text is_unclaimed) }
{
    if is_unclaimed {
        add_unclaimed_note(text)
    } else {
        Ok(())
    }
}

#[tactic(auto, using(texts::proofs::Writes::joining), unfolding(crate::specs::Answers::Claims::claims_text))]
fn add_claims<V: Out>(
    text: &mut TextBuffer<'_, V>,
    files: &[&[u8]],
    diagnostics: &Diagnostics,
    is_unclaimed: bool,
) -> Result<(), WriteError>
    requires { All (λ e. e.instance ≤ length diagnostics.now.names) diagnostics.now.invented.items }
    ensures { Adds V.sink text.old text.new result (claims_text (map (λ file. file.now) files.now) diagnostics.now is_unclaimed) }
{
    add_diagnostics(text, files, diagnostics)?;
    add_unclaimed(text, is_unclaimed)
}

/// Writes the warnings, and then that no race is claimed, if there are races and each is begun in the middle. `files`
/// has the names of several files, and is empty for one.
#[tactic(auto, using(texts::proofs::Writes::joining))]
pub fn write_claims<V: Out>(
    files: &[&[u8]],
    diagnostics: &Diagnostics,
    is_unclaimed: bool,
    err: &mut V,
) -> Result<(), WriteError>
    requires { All (λ e. e.instance ≤ length diagnostics.now.names) diagnostics.now.invented.items }
    ensures { Wrote V.sink err.old err.new result (claims_text (map (λ file. file.now) files.now) diagnostics.now is_unclaimed) }
{
    let mut text = TextBuffer::new(err);
    add_claims(&mut text, files, diagnostics, is_unclaimed)?;
    text.finish()
}
