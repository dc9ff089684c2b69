//! The explanation of a race on a page: the reason why it is one, another order, and a message that removes it.
ghost use Rattle.std.specs.Prelude.{◌≡◌, ◌++◌, IfOk};
ghost use Rattle.cmd_base.specs.Texts.{IsReadAs};
ghost use Rattle.cmd_page.specs.Answers.Answering.{plus, texts, about_last, IsWhyExcerpt, IsWitnessExcerpt, IsMendExcerpt, AreAnswers};

use crate::answers::left::{Left, mend_left, why_left, witness_left};
use crate::answers::rows::row_in;
use crate::text::{Answers, Excerpt};
use chart::{Event, InstanceNo, Names};
use cmd_base::Source;
use cmd_base::pairs::Asked;
use std::alloc::{AllocError, Global};

/// The race of a file's chart that is explained.
#[derive(Clone, Copy)]
pub struct Subject<'a> {
    /// The bytes of the file.
    pub bytes: &'a [u8],
    /// The source of its chart.
    pub source: &'a Source<'a>,
    pub names: &'a Names,
    pub instance: InstanceNo,
    /// The events of the instance's line.
    pub events: &'a [Event],
    pub asked: Asked<'a>,
    pub earlier: u32,
    /// The last of the race's earlier events. `earlier` is the first.
    pub last: u32,
    pub receive: u32,
    /// How many lines stand above the rows of the line in what says why it is a race.
    pub above: u64,
}

/// The text on standard output, and then the text on standard error.
fn texts(left: Left) -> Result<Vec<u8>, AllocError>
    ensures { IfOk result (λ text. text.items ≡ texts left) }
{
    let Left {
        out,
        err,
        status: _,
    } = left;
    let mut text = out.into_bytes();
    text.extend_from_slice(err.as_bytes())?;
    Ok(text)
}

/// The reason why it is a race: the events that must come before the receive, and the line's rows round the two
/// events.
fn why_of(alloc: Global, subject: &Subject<'_>) -> Result<Excerpt, AllocError>
    requires { IsReadAs subject.now.bytes.now subject.now.source.now }
    ensures { IfOk result (IsWhyExcerpt subject.now) }
{
    let left = why_left(alloc, subject.source, &subject.asked)?;
    let text = texts(left)?;
    Ok(Excerpt {
        text,
        head: subject.above,
        earlier: subject.above.saturating_add(u64::from(subject.earlier)),
        receive: subject.above.saturating_add(u64::from(subject.receive)),
    })
}

/// The other order: the instances, the capacity, and the commands round the two events.
fn witness_of(alloc: Global, subject: &Subject<'_>) -> Result<Excerpt, AllocError>
    requires { IsReadAs subject.now.bytes.now subject.now.source.now }
    ensures { IfOk result (IsWitnessExcerpt subject.now) }
{
    let left = witness_left(alloc, subject.source, &subject.asked)?;
    let text = texts(left)?;
    let earlier = row_in(
        alloc,
        subject.names,
        subject.instance,
        subject.events,
        subject.earlier,
        text.as_slice(),
    )?;
    let receive = row_in(
        alloc,
        subject.names,
        subject.instance,
        subject.events,
        subject.receive,
        text.as_slice(),
    )?;
    Ok(Excerpt {
        text,
        head: 2,
        earlier,
        receive,
    })
}

/// The question about the last of the earlier events. A message that puts it before the receive puts all of them there.
fn about_last<'a>(subject: &Subject<'a>) -> Asked<'a>
    ensures { result ≡ about_last subject.now }
{
    Asked {
        instance: subject.asked.instance,
        earlier: u64::from(subject.last),
        receive: subject.asked.receive,
    }
}

/// The message that removes the race: the first lines of the text.
fn mend_of(alloc: Global, subject: &Subject<'_>) -> Result<Excerpt, AllocError>
    requires { IsReadAs subject.now.bytes.now subject.now.source.now }
    ensures { IfOk result (IsMendExcerpt subject.now) }
{
    let asked = about_last(subject);
    let left = mend_left(alloc, subject.source, &asked)?;
    let Left {
        out: _,
        err,
        status: _,
    } = left;
    Ok(Excerpt {
        text: err.into_bytes(),
        head: 24,
        earlier: 0,
        receive: 0,
    })
}

/// The whole explanation. The file is read once for all of its races: the source is that of its bytes.
pub fn answers_of(alloc: Global, subject: &Subject<'_>) -> Result<Answers, AllocError>
    requires { IsReadAs subject.now.bytes.now subject.now.source.now }
    ensures { IfOk result (AreAnswers subject.now) }
{
    Ok(Answers {
        why: why_of(alloc, subject)?,
        witness: witness_of(alloc, subject)?,
        mend: mend_of(alloc, subject)?,
    })
}
