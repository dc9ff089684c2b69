//! The text on standard error: refusals, and the lines that come with an answer.
ghost use Rattle.std.specs.Prelude.{◌≡◌, ◌++◌};
ghost use Rattle.texts.specs.Writing.{Wrote, Adds};
ghost use Rattle.cmd_explain_race.specs.Answers.{
  closes_text,
  enforced_text,
  explained_exit,
  hidden_diagnostics,
  verdict_exit,
  witnessed_exit,
};
ghost use Rattle.cmd_base.specs.Answers.{Prints};
ghost use Rattle.cmd_base.specs.NotDone.{not_done_text};
ghost use Rattle.cmd_base.specs.Pairs.SayingText.{hidden_text};

use crate::verdict::{Explained, Verdict, Witnessed};
use cmd_base::pairs::hidden_text;
use cmd_base::{Answer, NotDone, print_diagnostics, print_not_done};
use texts::{Out, TextBuffer, WriteError};

#[tactic(auto, unfolding(crate::specs::Answers::closes_text))]
fn closes_text() -> &'static [u8]
    ensures { result.now ≡ closes_text }
{
    b"closes are left out\n"
}

#[tactic(auto, unfolding(crate::specs::Answers::enforced_text))]
fn enforced_text() -> &'static [u8]
    ensures { result.now ≡ enforced_text }
{
    b"enforced: each run has the two in this order\n"
}

/// The exit status of an explained pair, and the line about a coregion that hides it.
impl Answer for Verdict {
    ghost exit = { verdict_exit };

    fn status(&self) -> u8 {
        self.code()
    }

    fn print_diagnostics<V: Out>(&self, err: &mut V) {
        match self {
            Verdict::Enforced | Verdict::Race => {}
            Verdict::Hidden => print_diagnostics(hidden_text(), err),
        }
    }
}

#[tactic(auto, using(texts::proofs::Writes::joining))]
fn add_both<V: Out>(
    text: &mut TextBuffer<'_, V>,
    first: &[u8],
    second: &[u8],
) -> Result<(), WriteError>
    ensures { Adds V.sink text.old text.new result (first.now ++ second.now) }
{
    text.add(first)?;
    text.add(second)
}

#[tactic(auto, using(texts::proofs::Writes::joining))]
fn write_both<V: Out>(first: &[u8], second: &[u8], err: &mut V) -> Result<(), WriteError>
    ensures { Wrote V.sink err.old err.new result (first.now ++ second.now) }
{
    let mut text = TextBuffer::new(err);
    add_both(&mut text, first, second)?;
    text.finish()
}

/// Writes the lines about a pair that a coregion hides.
fn print_hidden<V: Out>(has_closes: bool, err: &mut V)
    ensures { Prints V.sink err.old err.new (hidden_diagnostics has_closes) }
{
    if has_closes {
        let _ = write_both(closes_text(), hidden_text(), err);
    } else {
        print_diagnostics(hidden_text(), err);
    }
}

#[tactic(auto, using(texts::proofs::Writes::joining))]
fn add_hidden<V: Out>(text: &mut TextBuffer<'_, V>, not_done: &NotDone) -> Result<(), WriteError>
    ensures { Adds V.sink text.old text.new result (hidden_text ++ not_done_text not_done.now) }
{
    text.add(hidden_text())?;
    not_done.add_to(text)
}

#[tactic(auto, using(texts::proofs::Writes::joining))]
fn write_hidden<V: Out>(not_done: &NotDone, err: &mut V) -> Result<(), WriteError>
    ensures { Wrote V.sink err.old err.new result (hidden_text ++ not_done_text not_done.now) }
{
    let mut text = TextBuffer::new(err);
    add_hidden(&mut text, not_done)?;
    text.finish()
}

/// The exit status of an explained pair of a file. Standard error reports a coregion that hides it, and the commands
/// that did nothing.
impl Answer for Explained {
    ghost exit = { explained_exit };

    fn status(&self) -> u8 {
        self.verdict.code()
    }

    fn print_diagnostics<V: Out>(&self, err: &mut V) {
        match (&self.verdict, &self.not_done) {
            (Verdict::Hidden, Some(not_done)) => {
                let _ = write_hidden(not_done, err);
            }
            (Verdict::Hidden, None) => print_diagnostics(hidden_text(), err),
            (_, not_done) => print_not_done(not_done, err),
        }
    }
}

/// The exit status of a search for a witness, and the lines that come with the witness or replace it.
impl Answer for Witnessed {
    ghost exit = { witnessed_exit };

    fn status(&self) -> u8 {
        self.verdict.code()
    }

    fn print_diagnostics<V: Out>(&self, err: &mut V) {
        match self.verdict {
            Verdict::Enforced => print_diagnostics(enforced_text(), err),
            Verdict::Race => {
                if self.has_closes {
                    print_diagnostics(closes_text(), err);
                }
            }
            Verdict::Hidden => print_hidden(self.has_closes, err),
        }
    }
}
