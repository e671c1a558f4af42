//! Runs: how they end, what the writer then holds, and which calls a run makes of it.

use crate::plain::plain;
use crate::routes::{KERNELS, MODES};
use crate::tests::texts::repeated;
use escape_simd::Kernel;
use escape_stream::{Mode, ToolFault, run};
use std::alloc::Global;
use std::io;
use std::io::{ErrorKind, Read, Write};

/// Gives its bytes one a call, then one error where it has one, and then the end.
#[derive(Drop)]
struct OneByOne<'a> {
    bytes: &'a [u8],
    error: Option<ErrorKind>,
}

impl Read for OneByOne<'_> {
    fn read(&mut self, buf: &mut [u8]) -> io::Result<usize> {
        if let Some(place) = buf.first_mut()
            && let Some((first, rest)) = self.bytes.split_first()
        {
            *place = *first;
            self.bytes = rest;
            return Ok(1);
        }
        match self.error.take() {
            Some(kind) => Err(kind.into()),
            None => Ok(0),
        }
    }
}

/// Takes at most `step` bytes a call while it has room, and then none. Where it has an error it gives
/// that once in place of the first none, and takes the rest after it, as if it had been interrupted.
#[derive(Drop)]
struct Narrow {
    held: Vec<u8>,
    step: usize,
    room: usize,
    error: Option<ErrorKind>,
    flush: Option<ErrorKind>,
    writes: usize,
    flushes: usize,
    // How many bytes it held at the last flush.
    flushed: usize,
}

impl Write for Narrow {
    fn write(&mut self, buf: &[u8]) -> io::Result<usize> {
        self.writes = self.writes.saturating_add(1);
        let count = buf.len().min(self.step).min(self.room);
        if count == 0
            && let Some(kind) = self.error.take()
        {
            self.room = usize::MAX;
            return Err(kind.into());
        }
        self.held.extend_from_slice(&buf[..count])?;
        self.room -= count;
        Ok(count)
    }

    fn flush(&mut self) -> io::Result<()> {
        self.flushes = self.flushes.saturating_add(1);
        self.flushed = self.held.len();
        match self.flush {
            Some(kind) => Err(kind.into()),
            None => Ok(()),
        }
    }
}

/// What a reader gives, and its error.
type Given = (&'static [u8], Option<ErrorKind>);

/// A writer's step, its room, and its errors of a write and of a flush.
type Taken = (usize, usize, Option<ErrorKind>, Option<ErrorKind>);

/// How a run ends, what the writer then holds, and how many writes and flushes it was asked for.
type Ended = (Result<(), ToolFault>, &'static [u8], usize, usize);

fn ends_so(
    alloc: Global,
    mode: Mode,
    kernel: Kernel,
    given: Given,
    taken: Taken,
    ended: Ended,
) -> bool {
    let mut input = OneByOne {
        bytes: given.0,
        error: given.1,
    };
    let mut output = writer(alloc, taken);
    run(alloc, mode, kernel, &mut input, &mut output) == ended.0
        && output.held.as_slice() == ended.1
        && output.writes == ended.2
        && output.flushes == ended.3
}

fn writer(alloc: Global, (step, room, error, flush): Taken) -> Narrow {
    Narrow {
        held: Vec::new(alloc),
        step,
        room,
        error,
        flush,
        writes: 0,
        flushes: 0,
        flushed: 0,
    }
}

/// A writer that takes all.
const ALL: Taken = (usize::MAX, usize::MAX, None, None);

static RUNS: [(Given, Taken, Ended); 13] = [
    (
        (b"\xe2\x80\xa6", None),
        ALL,
        (Ok(()), b"\xe2\x80\xa6", 1, 1),
    ),
    (
        (b"<a href='/x'>", None),
        ALL,
        (Ok(()), b"&lt;a href=&#x27;&#x2f;x&#x27;&gt;", 1, 1),
    ),
    (
        (b"<a", Some(ErrorKind::Other)),
        ALL,
        (Err(ToolFault::ReadFailed), b"", 0, 0),
    ),
    (
        (b"\xff", Some(ErrorKind::Other)),
        ALL,
        (Err(ToolFault::ReadFailed), b"", 0, 0),
    ),
    (
        (b"<", Some(ErrorKind::WouldBlock)),
        ALL,
        (Err(ToolFault::ReadFailed), b"", 0, 0),
    ),
    (
        (b"", Some(ErrorKind::Interrupted)),
        ALL,
        (Err(ToolFault::ReadFailed), b"", 0, 0),
    ),
    ((b"<", None), (1, 9, None, None), (Ok(()), b"&lt;", 4, 1)),
    (
        (b"<", None),
        (3, 3, None, None),
        (Err(ToolFault::WriteFailed), b"&lt", 2, 0),
    ),
    (
        (b"<", None),
        (2, 2, Some(ErrorKind::Other), None),
        (Err(ToolFault::WriteFailed), b"&l", 2, 0),
    ),
    (
        (b"<", None),
        (9, 0, Some(ErrorKind::Interrupted), None),
        (Err(ToolFault::WriteFailed), b"", 1, 0),
    ),
    (
        (b"<", None),
        (1, 1, Some(ErrorKind::Interrupted), None),
        (Err(ToolFault::WriteFailed), b"&", 2, 0),
    ),
    (
        (b"<", None),
        (0, 9, None, None),
        (Err(ToolFault::WriteFailed), b"", 1, 0),
    ),
    (
        (b"<", None),
        (9, 9, None, Some(ErrorKind::Other)),
        (Err(ToolFault::WriteFailed), b"&lt;", 1, 1),
    ),
];

#[test]
fn runs_in_html(rt: HostRuntime) {
    for (given, taken, ended) in &RUNS {
        for kernel in KERNELS {
            let is_right = ends_so(rt.alloc(), Mode::Html, kernel, *given, *taken, *ended);
            assert!(rt; is_right, "{kernel:?} {given:?} {taken:?}");
        }
    }
}

static NOT_UTF8: [&[u8]; 7] = [
    b"\xc3",
    b"\xed\xa0\x80",
    b"\xf4\x90\x80\x80",
    b"\xc0\xaf",
    b"\xf0\x9d\x84",
    b"a\xff",
    b"a\xe2\x80",
];

/// Whether a run by each kernel refuses the bytes, and writes nothing.
fn is_refused(alloc: Global, mode: Mode, bytes: &'static [u8]) -> bool {
    for kernel in KERNELS {
        let refused = (Err(ToolFault::NotUtf8), b"".as_slice(), 0, 0);
        if !ends_so(alloc, mode, kernel, (bytes, None), ALL, refused) {
            return false;
        }
    }
    true
}

#[test]
fn refuses_what_is_not_utf8(rt: HostRuntime) {
    for bytes in &NOT_UTF8 {
        for mode in MODES {
            assert!(rt; is_refused(rt.alloc(), mode, bytes), "{mode:?} {bytes:?}");
        }
    }
}

/// Whether a run writes this, a few bytes a call, and flushes once, after the last write.
fn flushes_once(alloc: Global, mode: Mode, text: &str, wanted: &str) -> bool {
    let mut input = text.as_bytes();
    let mut output = writer(alloc, (5, usize::MAX, None, None));
    run(alloc, mode, Kernel::Avx2, &mut input, &mut output).is_ok()
        && output.held.as_slice() == wanted.as_bytes()
        && output.flushes == 1
        && output.flushed == wanted.len()
}

// An empty input, one piece, and three.
#[test]
fn a_run_flushes_once(rt: HostRuntime) {
    for count in [0, 1, 20000] {
        let text = repeated(&rt, &[(count, "a<\u{2028}\"b")]);
        for mode in MODES {
            assert!(rt;
                flushes_once(rt.alloc(), mode, &text, &plain(&rt, mode, &text)),
                "{count}"
            );
        }
    }
}
