//! Tests of writers that fail in mid-stream or are interrupted, of the fault that a sink reports, and of the words of
//! an error.
use crate::calls::{are, are_bytes, every_growth_was_refused, holds};
use msc_text::reader::read;
use msc_text::write;
use std::alloc::Global;
use std::io::{self, ErrorKind, Write};
use std::process::Abort;
use std::test::Fail;
use texts::{Cause, Fault, MemoryOut, Out, OutFault, StreamOut, WriteError};

const CHART: &[u8] =
    b"msc run;\ninstance a;\nout ping to b;\nendinstance;\ninstance b;\nin ping from a;\nendinstance;\nendmsc;\n";

/// Asserts the result of writing the chart's text.
fn writes<W: Out>(rt: &impl Abort, alloc: Global, out: &mut W, wanted: Result<(), WriteError>) {
    let (names, chart) = read(alloc, CHART).expect(rt, "a chart");
    assert_eq!(rt; write(&names, &chart, out), wanted);
}

#[test]
fn a_full_stream_fails(rt: HostRuntime) {
    let mut place = [0; 20];
    let mut out = StreamOut::new(&mut place[..]);
    let full = WriteError::Put(OutFault::Full);
    writes(&rt, rt.alloc(), &mut out, Err(full));
    drop(out);
    are_bytes(&rt, "its front", place.as_slice(), &CHART[..20]);
}

/// A writer that a signal interrupts this number of times, and that then takes one byte with each call.
#[derive(Drop)]
struct Interrupted {
    times: u8,
    taken: Vec<u8>,
}

impl Write for Interrupted {
    fn write(&mut self, bytes: &[u8]) -> io::Result<usize> {
        if self.times > 0 {
            self.times -= 1;
            return Err(io::Error::new(ErrorKind::Interrupted, "a signal"));
        }
        let Some(first) = bytes.first() else {
            return Ok(0);
        };
        self.taken.push(*first)?;
        self.times = 2;
        Ok(1)
    }

    fn flush(&mut self) -> io::Result<()> {
        Ok(())
    }
}

#[test]
fn interrupted_writes_are_tried_again(rt: HostRuntime) {
    let mut out = StreamOut::new(Interrupted {
        times: 1,
        taken: Vec::new(rt.alloc()),
    });
    writes(&rt, rt.alloc(), &mut out, Ok(()));
    let taken = out.into_inner().taken;
    are_bytes(&rt, "its text", taken.as_slice(), CHART);
}

#[test]
fn prints_a_fault(rt: HostRuntime) {
    let fault = Fault::Line(3, Cause::ToItself);
    let text = format!(in rt.alloc(); "{fault}").expect(&rt, "a text");
    let words = b"line 3: an instance sends to itself";
    are_bytes(&rt, "its words", text.as_str().as_bytes(), words);
}

/// Puts bytes into an empty text, and once more if memory was refused. The refusal left the text empty.
fn puts(rt: &impl Abort, out: &mut MemoryOut, bytes: &[u8]) {
    if let Err(fault) = out.put(bytes) {
        holds(rt, "memory was refused", fault == OutFault::Memory);
        are(rt, "bytes", out.as_bytes().len(), 0);
        holds(rt, "it is put", out.put(bytes).is_ok());
    }
    are_bytes(rt, "the bytes", out.as_bytes(), bytes);
}

#[test]
fn refused_growths(rt: HostRuntime) -> Result<(), Fail> {
    puts(&rt, &mut MemoryOut::new(rt.alloc()), b"abc");
    every_growth_was_refused(rt.alloc())
}
