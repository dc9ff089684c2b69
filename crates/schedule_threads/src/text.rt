//! Outcomes of runs as text.
ghost use Rattle.std.specs.Prelude.{◌≡◌};
ghost use Rattle.std.specs.List.{flat_map};
ghost use Rattle.texts.specs.Writing.{Wrote, Adds};
ghost use Rattle.schedule_threads.specs.RunText.{spent_text, run_text};

use crate::run_outcome::RunOutcome;
use chart::Name;
use schedule::outcomes::add_outcome;
use texts::{Out, TextBuffer, WriteError};

#[tactic(auto, unfolding(crate::specs::RunText::spent_text))]
fn add_name<W: Out>(text: &mut TextBuffer<'_, W>, name: &Name) -> Result<(), WriteError>
    ensures { Adds W.sink text.old text.new result (spent_text name.now) }
{
    text.add_all(&[b"spent ", name.as_bytes(), b"\n"])
}

fn add_spent<W: Out>(text: &mut TextBuffer<'_, W>, names: &[Name]) -> Result<(), WriteError>
    ensures { Adds W.sink text.old text.new result (flat_map spent_text names.now) }
{
    for name in names {
        add_name(text, name)?;
    }
    Ok(())
}

#[tactic(auto, using(texts::proofs::Writes::joining), unfolding(crate::specs::RunText::run_text))]
fn add_run<W: Out>(text: &mut TextBuffer<'_, W>, run: &RunOutcome<'_>) -> Result<(), WriteError>
    ensures { Adds W.sink text.old text.new result (run_text run.now) }
{
    add_outcome(text, run.outcome())?;
    add_spent(text, run.spent())
}

impl RunOutcome<'_> {
    /// Writes the outcome's text: that of a replay's outcome, and then a line for each instance whose turns were spent.
    /// It takes no memory. If a put fails (F24), a beginning of the text was written, and no further put is tried.
    #[tactic(auto, using(texts::proofs::Writes::joining))]
    pub fn write<W: Out>(&self, out: &mut W) -> Result<(), WriteError>
        ensures { Wrote W.sink out.old out.new result (run_text self.now) }
    {
        let mut text = TextBuffer::new(out);
        add_run(&mut text, self)?;
        text.finish()
    }
}
