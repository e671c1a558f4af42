//! Memory that is refused, request by request, and what was asked for.

use crate::routes::MODES;
use crate::tests::rationed::Rationed;
use crate::tests::texts::repeated;
use escape_simd::html::{escape_html_each, escape_html_in, escape_html_into};
use escape_simd::json::{escape_in, escape_into, escape_script_in, escape_script_into};
use escape_simd::{Kernel, Refusal};
use escape_stream::{Mode, PIECE, ToolFault, run_in};
use escape_text::html::{
    escape_html_compact, escape_html_cow, escape_html_into_string, escape_html_joined_into,
};
use escape_text::json::{
    escape_array_into, escape_compact, escape_into_string, escape_script_array_into,
    escape_script_compact, escape_script_into_string, object_into, object_line_into,
};
use escape_text::page::{Part, page_into};
use std::alloc::{Allocator, Global};
use std::borrow::CowStr;
use std::process::Abort;

type Heap = Rationed<Global>;

/// A call that appends to a vector, of one text or of two.
#[derive(Clone, Copy)]
enum Call {
    One(Mode),
    Each,
    Joined,
    Array,
    ScriptArray,
    Object,
    Line,
    /// Of markup and the two texts, the last in a script.
    Page,
}

/// How a call ends: so many texts were written, and the next one was refused.
type Ended = Result<(), (usize, Refusal)>;

fn one<E: Into<Refusal>>(outcome: Result<(), E>) -> Ended {
    match outcome {
        Ok(()) => Ok(()),
        Err(error) => Err((0, error.into())),
    }
}

fn ended<'a>(call: Call, (first, second): (&'a str, &'a str), dst: &mut Vec<u8, &Heap>) -> Ended {
    match call {
        Call::One(Mode::Json) => one(escape_into(first, dst)),
        Call::One(Mode::Html) => one(escape_html_into(first, dst)),
        Call::One(Mode::Script) => one(escape_script_into(first, dst)),
        Call::Each => match escape_html_each(&[first, second], dst) {
            Ok(()) => Ok(()),
            Err((written, error)) => Err((written, error.into())),
        },
        Call::Joined => match escape_html_joined_into(&[first, second], "; ", dst) {
            Ok(()) => Ok(()),
            Err(stop) => Err((stop.written, stop.reason.into())),
        },
        Call::Array => one(escape_array_into(&[first, second], dst)),
        Call::ScriptArray => one(escape_script_array_into(&[first, second], dst)),
        Call::Object => one(object_into(&[(first, second)], dst)),
        Call::Line => one(object_line_into(&[(first, second)], dst)),
        Call::Page => {
            let parts = [Part::Markup("<b>"), Part::Text(first), Part::Script(second)];
            match page_into(&parts, dst) {
                Ok(()) => Ok(()),
                Err(stop) => Err((stop.written, stop.reason)),
            }
        }
    }
}

/// A request for memory: for how many bytes, 0 for any number. Then, if it is refused, which text is, and what the call
/// has appended.
type Request = (usize, usize, &'static str);

/// A call with its texts, the spare capacity of the vector, its requests, and what it appends if all are granted.
type Row = (
    Call,
    (&'static str, &'static str),
    usize,
    &'static [Request],
    &'static str,
);

/// The bytes that HTML escapes.
const SIX: &str = "\"&'/<>";

const LETTERS: &str = "\
    aaaaaaaaaaaaaaaaaaaaaaaaaaaaaaaaaaaaaaaaaaaaaaaaaa\
    aaaaaaaaaaaaaaaaaaaaaaaaaaaaaaaaaaaaaaaaaaaaaaaaaa";

const MARKUP_AND_LETTERS: &str = "&lt;\
    aaaaaaaaaaaaaaaaaaaaaaaaaaaaaaaaaaaaaaaaaaaaaaaaaa\
    aaaaaaaaaaaaaaaaaaaaaaaaaaaaaaaaaaaaaaaaaaaaaaaaaa";

/// A request for any number of bytes. If it is refused, the first text is, and nothing was appended.
const ANY: Request = (0, 0, "");

static ROWS: [Row; 18] = [
    (Call::One(Mode::Json), ("x", ""), 0, &[(42, 0, "")], "\"x\""),
    (Call::One(Mode::Json), ("\t", ""), 41, &[], "\"\\t\""),
    (Call::One(Mode::Html), ("", ""), 0, &[(33, 0, "")], ""),
    // So much less than the bound that a vector of twice the capacity would not hold it.
    (
        Call::One(Mode::Json),
        ("x", ""),
        12,
        &[(42, 0, "")],
        "\"x\"",
    ),
    (Call::One(Mode::Json), ("x", ""), 41, &[], "\"x\""),
    (Call::One(Mode::Html), ("<", ""), 0, &[(39, 0, "")], "&lt;"),
    (Call::One(Mode::Html), ("<", ""), 38, &[], "&lt;"),
    (
        Call::One(Mode::Script),
        ("&", ""),
        0,
        &[(42, 0, "")],
        "\"\\u0026\"",
    ),
    (Call::One(Mode::Script), ("&", ""), 41, &[], "\"\\u0026\""),
    (
        Call::Each,
        ("<", LETTERS),
        0,
        &[(39, 0, ""), (637, 1, "&lt;")],
        MARKUP_AND_LETTERS,
    ),
    (Call::Each, ("<", LETTERS), 636, &[], MARKUP_AND_LETTERS),
    (
        Call::Joined,
        ("<", ">"),
        0,
        &[(39, 0, ""), (0, 1, "&lt;")],
        "&lt;; &gt;",
    ),
    // The bracket asks first, and the texts after it.
    (
        Call::Array,
        ("x", "\n"),
        0,
        &[ANY, ANY, ANY],
        "[\"x\",\"\\n\"]",
    ),
    (
        Call::ScriptArray,
        ("<", ""),
        0,
        &[ANY, ANY, ANY],
        "[\"\\u003c\",\"\"]",
    ),
    (
        Call::Object,
        ("a", "b"),
        0,
        &[ANY, ANY, ANY],
        "{\"a\":\"b\"}",
    ),
    (
        Call::Line,
        (SIX, "\n"),
        0,
        &[ANY, ANY],
        "{\"\\\"&'/<>\":\"\\n\"}\n",
    ),
    (
        Call::Page,
        ("<", "<"),
        0,
        &[ANY, (0, 1, ""), (0, 2, "")],
        "<b>&lt;\"\\u003c\"",
    ),
    (
        Call::Page,
        (SIX, SIX),
        0,
        &[ANY, (0, 1, ""), (0, 2, "")],
        "<b>&quot;&amp;&#x27;&#x2f;&lt;&gt;\"\\\"\\u0026'/\\u003c\\u003e\"",
    ),
];

/// A vector that holds a byte ff and has room for `spare` more.
fn vector_of<'a>(rt: &impl Abort, heap: &'a Heap, spare: usize) -> Vec<u8, &'a Heap> {
    let mut vector = Vec::with_capacity(heap, spare.saturating_add(1)).expect(rt, "no memory");
    vector.push(0xff).expect(rt, "no memory");
    vector
}

/// Whether so many requests were made, the last for so many bytes.
fn is_asked(heap: &Heap, made: usize, size: usize) -> bool {
    let requests = heap.requests();
    requests.made == made as u64 && (size == 0 || requests.last_size == size)
}

/// Whether the call appends this if so many requests are granted, and so ends.
fn ends_so(
    heap: &Heap,
    row: &Row,
    granted: usize,
    dst: &mut Vec<u8, &Heap>,
    end: Ended,
    appended: &str,
) -> bool {
    heap.ration(granted as u64);
    ended(row.0, row.1, dst) == end && dst.strip_prefix(b"\xff") == Some(appended.as_bytes())
}

/// Whether the request after so many is refused, and the call with it.
fn is_row_refused(
    heap: &Heap,
    row: &Row,
    granted: usize,
    request: &Request,
    dst: &mut Vec<u8, &Heap>,
) -> bool {
    let end = Err((request.1, Refusal::OutOfMemory));
    ends_so(heap, row, granted, dst, end, request.2)
        && is_asked(heap, granted.saturating_add(1), request.0)
}

/// Whether the call makes the requests, and appends what it has to.
fn is_row_appended(heap: &Heap, row: &Row, dst: &mut Vec<u8, &Heap>) -> bool {
    let granted = row.3.len();
    let size = match row.3.last() {
        Some(last) => last.0,
        None => 0,
    };
    ends_so(heap, row, granted, dst, Ok(()), row.4) && is_asked(heap, granted, size)
}

#[test]
fn calls_that_append(rt: HostRuntime) {
    for row in &ROWS {
        for (granted, request) in row.3.iter().enumerate() {
            let heap = Rationed::new(rt.alloc());
            let mut dst = vector_of(&rt, &heap, row.2);
            assert!(rt;
                is_row_refused(&heap, row, granted, request, &mut dst),
                "{} {granted}",
                row.4
            );
        }
        let heap = Rationed::new(rt.alloc());
        let mut dst = vector_of(&rt, &heap, row.2);
        assert!(rt; is_row_appended(&heap, row, &mut dst), "{}", row.4);
    }
}

/// Whether ten thousand calls append a text, with at most 20 requests.
fn is_appended_often(heap: &Heap, mode: Mode) -> bool {
    heap.ration(20);
    let mut dst = Vec::new(heap);
    for _ in 0..10000 {
        if ended(Call::One(mode), ("x", ""), &mut dst).is_err() {
            return false;
        }
    }
    true
}

#[test]
fn appending_often_asks_seldom(rt: HostRuntime) {
    for mode in MODES {
        assert!(rt; is_appended_often(&Rationed::new(rt.alloc()), mode));
    }
}

/// A call that returns a string.
#[derive(Clone, Copy)]
enum Returning {
    Bounded(Mode),
    Compact(Mode),
    Cow,
}

fn returned<'a>(
    heap: &'a Heap,
    call: Returning,
    text: &'a str,
) -> Result<CowStr<'a, &'a Heap>, Refusal> {
    Ok(match call {
        Returning::Bounded(Mode::Json) => CowStr::Owned(escape_in(heap, text)?),
        Returning::Bounded(Mode::Html) => CowStr::Owned(escape_html_in(heap, text)?),
        Returning::Bounded(Mode::Script) => CowStr::Owned(escape_script_in(heap, text)?),
        Returning::Compact(Mode::Json) => CowStr::Owned(escape_compact(heap, text)?),
        Returning::Compact(Mode::Html) => CowStr::Owned(escape_html_compact(heap, text)?),
        Returning::Compact(Mode::Script) => CowStr::Owned(escape_script_compact(heap, text)?),
        Returning::Cow => escape_html_cow(heap, text)?,
    })
}

/// Whether the call returns the output if so many requests are granted.
fn is_returned(heap: &Heap, call: Returning, text: &str, output: &str, granted: u64) -> bool {
    heap.ration(granted);
    match returned(heap, call, text) {
        Ok(string) => string.as_bytes() == output.as_bytes(),
        Err(_) => false,
    }
}

/// Whether the call is refused if no request is granted.
fn is_refused(heap: &Heap, call: Returning, text: &str) -> bool {
    heap.ration(0);
    match returned(heap, call, text) {
        Ok(_) => false,
        Err(refusal) => refusal == Refusal::OutOfMemory,
    }
}

/// Whether the call asks once for so many bytes, and returns the output.
fn is_asked_once(heap: &Heap, call: Returning, text: &str, output: &str, size: usize) -> bool {
    is_refused(heap, call, text)
        && is_asked(heap, 1, size)
        && is_returned(heap, call, text, output, 1)
        && is_asked(heap, 1, size)
}

/// A call, a text, what stands for it, and how many bytes the call asks for.
static STRINGS: [(Returning, &str, &str, usize); 12] = [
    (Returning::Bounded(Mode::Json), "x", "\"x\"", 41),
    (Returning::Bounded(Mode::Html), "<", "&lt;", 38),
    (Returning::Bounded(Mode::Script), "&", "\"\\u0026\"", 41),
    (Returning::Compact(Mode::Json), "a", "\"a\"", 3),
    (Returning::Compact(Mode::Html), "a", "a", 1),
    (Returning::Compact(Mode::Json), "\n", "\"\\n\"", 4),
    (Returning::Compact(Mode::Json), "a\"\n", "\"a\\\"\\n\"", 7),
    (Returning::Compact(Mode::Script), "&", "\"\\u0026\"", 8),
    (
        Returning::Compact(Mode::Script),
        "\u{2028}\u{2026}<",
        "\"\\u2028\u{2026}\\u003c\"",
        17,
    ),
    (Returning::Compact(Mode::Html), "<", "&lt;", 4),
    (
        Returning::Compact(Mode::Html),
        "<a href='/x'>",
        "&lt;a href=&#x27;&#x2f;x&#x27;&gt;",
        34,
    ),
    (Returning::Cow, "a<", "a&lt;", 5),
];

#[test]
fn calls_that_return_a_string(rt: HostRuntime) {
    let heap = Rationed::new(rt.alloc());
    for (call, text, output, size) in &STRINGS {
        assert!(rt; is_asked_once(&heap, *call, text, output, *size), "{text}");
    }
}

/// How many letters texts have whose output is made at once, as it is, and in several pieces.
const LENGTHS: [usize; 6] = [0, 79, 80, 200, 600, 20000];

#[test]
fn texts_of_each_length(rt: HostRuntime) {
    let heap = Rationed::new(rt.alloc());
    assert!(rt; is_returned(&heap, Returning::Compact(Mode::Html), "", "", 0));
    for len in LENGTHS {
        let text = repeated(&rt, &[(len, "a"), (1, "\x01"), (len, "a")]);
        let output = repeated(
            &rt,
            &[(1, "\""), (len, "a"), (1, "\\u0001"), (len, "a"), (1, "\"")],
        );
        assert!(rt;
            is_returned(&heap, Returning::Cow, &text, &text, 0),
            "{len}"
        );
        let call = Returning::Compact(Mode::Json);
        assert!(rt;
            is_asked_once(&heap, call, &text, &output, output.len()),
            "{len}"
        );
    }
}

/// What a string holds before the calls.
const HELD: &str = "é";

/// A string that holds this, and has room for `spare` bytes more.
fn string_of<'a>(rt: &impl Abort, heap: &'a Heap, spare: usize) -> String<&'a Heap> {
    heap.ration(1);
    let capacity = HELD.len().saturating_add(spare);
    let mut string = String::with_capacity(heap, capacity).expect(rt, "no memory");
    string.push_str(HELD).expect(rt, "no memory");
    string
}

fn append_text<A: Allocator>(mode: Mode, text: &str, dst: &mut String<A>) -> Result<(), Refusal> {
    match mode {
        Mode::Json => escape_into_string(text, dst)?,
        Mode::Html => escape_html_into_string(text, dst)?,
        Mode::Script => escape_script_into_string(text, dst)?,
    }
    Ok(())
}

/// A mode, a text, what the call appends, and how many bytes it asks for.
type TextRow = (Mode, &'static str, &'static str, usize);

static TEXTS: [TextRow; 3] = [
    (Mode::Json, "x", "\"x\"", 43),
    (Mode::Html, "<", "&lt;", 40),
    (Mode::Script, "&", "\"\\u0026\"", 43),
];

/// Whether the call asks once, is refused, and leaves the string.
fn is_text_refused(heap: &Heap, row: &TextRow, dst: &mut String<&Heap>) -> bool {
    heap.ration(0);
    append_text(row.0, row.1, dst) == Err(Refusal::OutOfMemory)
        && dst.as_str() == HELD
        && is_asked(heap, 1, row.3)
}

/// Whether the call appends the output, and asks as often, each time for so many bytes.
fn is_text_appended(heap: &Heap, row: &TextRow, asks: usize, dst: &mut String<&Heap>) -> bool {
    heap.ration(asks as u64);
    append_text(row.0, row.1, dst).is_ok()
        && dst.as_str().strip_prefix(HELD) == Some(row.2)
        && is_asked(heap, asks, if asks == 0 { 0 } else { row.3 })
}

#[test]
fn calls_that_append_to_a_string(rt: HostRuntime) {
    let heap = Rationed::new(rt.alloc());
    for row in &TEXTS {
        let mut full = string_of(&rt, &heap, 0);
        assert!(rt; is_text_refused(&heap, row, &mut full), "{}", row.1);
        assert!(rt; is_text_appended(&heap, row, 1, &mut full), "{}", row.1);
        let mut roomy = string_of(&rt, &heap, row.3.saturating_sub(HELD.len()));
        assert!(rt; is_text_appended(&heap, row, 0, &mut roomy), "{}", row.1);
    }
}

/// Whether a run on "<" that is granted so many requests ends so, and writes this.
fn is_run_of(
    alloc: Global,
    heap: &Heap,
    mode: Mode,
    granted: u64,
    outcome: Result<(), ToolFault>,
    written: &str,
) -> bool {
    let mut output = Vec::new(alloc);
    heap.ration(granted);
    let mut input = b"<".as_slice();
    run_in(heap, mode, Kernel::Avx2, &mut input, &mut output) == outcome
        && output.as_slice() == written.as_bytes()
}

/// A mode, and what stands for "<".
static RUNS: [(Mode, &str); 3] = [
    (Mode::Json, "\"<\""),
    (Mode::Html, "&lt;"),
    (Mode::Script, "\"\\u003c\""),
];

// On so short an input a run asks twice: for the input, and for what its one piece may become.
#[test]
fn a_run_asks_for_the_input_and_a_piece(rt: HostRuntime) {
    let heap = Rationed::new(rt.alloc());
    let refused = Err(ToolFault::OutOfMemory);
    for (mode, written) in &RUNS {
        assert!(rt;
            is_run_of(rt.alloc(), &heap, *mode, 0, refused, ""),
            "{mode:?}"
        );
        assert!(rt;
            is_run_of(rt.alloc(), &heap, *mode, 1, refused, ""),
            "{mode:?}"
        );
        assert!(rt;
            is_run_of(rt.alloc(), &heap, *mode, 2, Ok(()), written),
            "{mode:?}"
        );
        assert!(rt; is_asked(&heap, 2, 38), "{mode:?}");
    }
}

/// Whether a run on so long a text asks at last for what a piece may become.
fn is_piece_asked(alloc: Global, heap: &Heap, text: &str) -> bool {
    let mut input = text.as_bytes();
    let mut output = Vec::new(alloc);
    run_in(heap, Mode::Html, Kernel::Avx2, &mut input, &mut output).is_ok()
        && heap.requests().last_size == 6 * PIECE + 32
}

#[test]
fn a_long_run_asks_at_last_for_a_piece(rt: HostRuntime) {
    let text = repeated(&rt, &[(2 * PIECE, "<")]);
    assert!(rt; is_piece_asked(rt.alloc(), &Rationed::new(rt.alloc()), &text));
}
