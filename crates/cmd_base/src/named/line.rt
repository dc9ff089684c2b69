//! The line of a refusal that names an instance.
ghost use Rattle.std.specs.Prelude.{◌≡◌};
ghost use Rattle.cmd_base.specs.Refusals.{start_text, end_text, behind_space, number_detail, Tried};
ghost use Rattle.texts.specs.Writing.{Wrote, Adds};
ghost use Rattle.cmd_base.specs.Named.NamedRefusals.{name_detail, named_text};

use chart::Name;
use itoa::Buffer;
use texts::{Out, TextBuffer, WriteError};

#[tactic(auto, unfolding(crate::specs::Refusals::start_text))]
fn add_start<V: Out>(text: &mut TextBuffer<'_, V>) -> Result<(), WriteError>
    ensures { Adds V.sink text.old text.new result start_text }
{
    text.add(b"refused: ")
}

#[tactic(auto, unfolding(crate::specs::Refusals::end_text))]
fn add_end<V: Out>(text: &mut TextBuffer<'_, V>) -> Result<(), WriteError>
    ensures { Adds V.sink text.old text.new result end_text }
{
    text.add(b"\n")
}

#[tactic(auto, unfolding(crate::specs::Named::NamedRefusals::name_detail))]
fn add_name<V: Out>(text: &mut TextBuffer<'_, V>, name: &Name) -> Result<(), WriteError>
    ensures { Adds V.sink text.old text.new result (name_detail name.now) }
{
    text.add_all(&[b" ", name.as_bytes()])
}

#[tactic(auto, unfolding(crate::specs::Refusals::behind_space))]
fn add_number<V: Out>(text: &mut TextBuffer<'_, V>, number: u64) -> Result<(), WriteError>
    ensures { Adds V.sink text.old text.new result (behind_space number) }
{
    let mut buffer = Buffer::new();
    let digits = buffer.format(number).as_bytes();
    text.add_all(&[b" ", digits])
}

fn add_number_if<V: Out>(
    text: &mut TextBuffer<'_, V>,
    number: Option<u64>,
) -> Result<(), WriteError>
    ensures { Adds V.sink text.old text.new result (number_detail number) }
{
    match number {
        Some(number) => add_number(text, number),
        None => text.add(b""),
    }
}

#[tactic(auto, using(texts::proofs::Writes::joining), unfolding(crate::specs::Named::NamedRefusals::named_text))]
fn add_named<V: Out>(
    text: &mut TextBuffer<'_, V>,
    label: &[u8],
    instance: &Name,
    number: Option<u64>,
) -> Result<(), WriteError>
    ensures { Adds V.sink text.old text.new result (named_text label.now instance.now number) }
{
    add_start(text)?;
    text.add(label)?;
    add_name(text, instance)?;
    add_number_if(text, number)?;
    add_end(text)
}

#[tactic(auto, using(texts::proofs::Writes::joining))]
fn write_named<V: Out>(
    label: &[u8],
    instance: &Name,
    number: Option<u64>,
    err: &mut V,
) -> Result<(), WriteError>
    ensures { Wrote V.sink err.old err.new result (named_text label.now instance.now number) }
{
    let mut text = TextBuffer::new(err);
    add_named(&mut text, label, instance, number)?;
    text.finish()
}

/// Prints the line of a refusal that is about an instance. It has the refusal's number and name, the instance's name,
/// and a number, if there is one. Returns the exit status, which is 2 even if the line could not be written.
pub fn refused_at<V: Out>(label: &[u8], instance: &Name, number: Option<u64>, err: &mut V) -> u8
    ensures status { result ≡ 2 }
    ensures line { Tried V.sink err.old err.new (named_text label.now instance.now number) }
{
    let _ = write_named(label, instance, number, err);
    2
}
