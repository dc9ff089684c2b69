//! Breaks worked texts and prints the program's answer to each, to be compared with the answers of a plain model.
//!
//! The words are `MODE COUNT SEED FILE..`. The files are charts or schedules. `COUNT` texts are made from them, by a
//! generator that begins with the seed. In the mode `report` it prints each text with its answer. In both modes it then
//! prints how many texts were read, how many each refusal refused, and a digest of all texts and answers (`tally`).
#![tactic(auto)]

mod answers;
mod breaking;
mod tally;

use answers::Worked;
use anyhow::bail;
use breaking::below;
use rand_core::SeedableRng;
use rand_pcg::Lcg64Xsh32;
use std::convert::AsStr;
use std::io::Write;
use std::rt::{Env, Files};
use std::{env, fs, io};
use tally::Tally;

/// The request in the words after the program's name.
#[derive(Drop)]
struct Asked {
    /// Whether each text and its answer are printed.
    prints: bool,
    count: u64,
    seed: u64,
}

fn prints(mode: &str) -> anyhow::Result<bool> {
    match mode {
        "count" => Ok(false),
        "report" => Ok(true),
        _ => bail!("the mode is count or report"),
    }
}

/// The request in these words, and the names of the files.
fn asked_by<'a>(words: &'a [String]) -> anyhow::Result<(Asked, &'a [String])> {
    let [_, mode, count, seed, files @ ..] = words else {
        bail!("the words are MODE COUNT SEED FILE..");
    };
    let asked = Asked {
        prints: prints(mode.as_str())?,
        count: count.as_str().parse::<u64>()?,
        seed: seed.as_str().parse::<u64>()?,
    };
    Ok((asked, files))
}

/// The texts of these files.
fn worked_in<R: Files + AllocGlobal>(rt: &R, files: &[String]) -> anyhow::Result<Vec<Worked>> {
    let mut texts = Vec::new(rt.alloc());
    for file in files {
        texts.push(Worked::of(fs::read(rt, file.as_str())?))?;
    }
    Ok(texts)
}

/// Breaks one of the texts, gets its answer, and adds it to the tally.
fn answer_one<R: Print + AllocGlobal>(
    rt: &R,
    asked: &Asked,
    generator: &mut Lcg64Xsh32,
    worked: &Worked,
    tally: &mut Tally,
) -> anyhow::Result<()> {
    let answered = worked.answered(rt.alloc(), generator)?;
    let record = answered.record(rt.alloc())?;
    tally.add(answered.diagnostics(), record.as_slice());
    if asked.prints {
        io::writer(rt).write_all(record.as_slice())?;
    }
    Ok(())
}

/// Breaks as many texts as requested.
fn answer_all<R: Print + AllocGlobal>(
    rt: &R,
    asked: &Asked,
    texts: &[Worked],
) -> anyhow::Result<Tally> {
    if texts.is_empty() {
        bail!("there is no file");
    }
    let mut generator = Lcg64Xsh32::seed_from_u64(asked.seed);
    let mut tally = Tally::new();
    for _ in 0..asked.count {
        let worked = &texts[below(&mut generator, texts.len())];
        answer_one(rt, asked, &mut generator, worked, &mut tally)?;
    }
    Ok(tally)
}

fn main(rt: HostRuntime) -> anyhow::Result<()> {
    let words: Vec<String> = env::args(&rt)?.collect(rt.alloc())?;
    let (asked, files) = asked_by(words.as_slice())?;
    let texts = worked_in(&rt, files)?;
    let tally = answer_all(&rt, &asked, texts.as_slice())?;
    tally.print(&rt)?;
    Ok(())
}
