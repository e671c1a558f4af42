//! Texts with what stands for them, written out.

use crate::tests::texts::repeated;
use crate::tests::whole_targets::is_written;
use crate::writers::{UNTOUCHED, differing};
use escape_simd::html::escape_html_each;
use escape_simd::simd::target::Target;
use escape_simd::simd::util::escape_unchecked;
use escape_stream::Mode;
use std::process::Abort;

/// Each character below U+0080.
const ASCII: &str = "\
    \x00\x01\x02\x03\x04\x05\x06\x07\x08\x09\x0a\x0b\x0c\x0d\x0e\x0f\x10\x11\x12\
    \x13\x14\x15\x16\x17\x18\x19\x1a\x1b\x1c\x1d\x1e\x1f !\"#$%&'()*+,-./0123456\
    789:;<=>?@ABCDEFGHIJKLMNOPQRSTUVWXYZ[\\]^_`abcdefghijklmnopqrstuvwxyz{|}~\
    \x7f";

/// Its literal, by RFC 8259.
const ASCII_LITERAL: &str = "\
    \"\\u0000\\u0001\\u0002\\u0003\\u0004\\u0005\\u0006\\u0007\\b\\t\\n\\u000b\\\
    f\\r\\u000e\\u000f\\u0010\\u0011\\u0012\\u0013\\u0014\\u0015\\u0016\\u0017\\\
    u0018\\u0019\\u001a\\u001b\\u001c\\u001d\\u001e\\u001f !\\\"#$%&'()*+,-./012\
    3456789:;<=>?@ABCDEFGHIJKLMNOPQRSTUVWXYZ[\\\\]^_`abcdefghijklmnopqrstuvwxyz{\
    |}~\x7f\"";

/// What stands for it in HTML.
const ASCII_MARKUP_FREE: &str = "\
    \x00\x01\x02\x03\x04\x05\x06\x07\x08\x09\x0a\x0b\x0c\x0d\x0e\x0f\x10\x11\x12\
    \x13\x14\x15\x16\x17\x18\x19\x1a\x1b\x1c\x1d\x1e\x1f !&quot;#$%&amp;&#x27;()\
    *+,-.&#x2f;0123456789:;&lt;=&gt;?@ABCDEFGHIJKLMNOPQRSTUVWXYZ[\\]^_`abcdefghi\
    jklmnopqrstuvwxyz{|}~\x7f";

/// Its script literal.
const ASCII_SCRIPT_LITERAL: &str = "\
    \"\\u0000\\u0001\\u0002\\u0003\\u0004\\u0005\\u0006\\u0007\\b\\t\\n\\u000b\\\
    f\\r\\u000e\\u000f\\u0010\\u0011\\u0012\\u0013\\u0014\\u0015\\u0016\\u0017\\\
    u0018\\u0019\\u001a\\u001b\\u001c\\u001d\\u001e\\u001f !\\\"#$%\\u0026'()*+,-\
    ./0123456789:;\\u003c=\\u003e?@ABCDEFGHIJKLMNOPQRSTUVWXYZ[\\\\]^_`abcdefghijk\
    lmnopqrstuvwxyz{|}~\x7f\"";

/// A mode, a text, and what stands for it: in JSON what RFC 8259 has a string literal of the text be, where it is the
/// shortest with lower-case digits, and in script mode the shortest such that is safe inside a script element.
static ROWS: [(Mode, &str, &str); 29] = [
    (Mode::Json, ASCII, ASCII_LITERAL),
    (Mode::Json, "", "\"\""),
    (Mode::Json, "\n\x01\x7f", "\"\\n\\u0001\x7f\""),
    (Mode::Json, "\x0b", "\"\\u000b\""),
    (Mode::Json, "\\", "\"\\\\\""),
    (Mode::Json, "\u{1d11e}", "\"\u{1d11e}\""),
    (Mode::Json, "a\"", "\"a\\\"\""),
    (Mode::Json, "\"a\\\"\"", "\"\\\"a\\\\\\\"\\\"\""),
    (Mode::Json, "\x1f", "\"\\u001f\""),
    (Mode::Json, "a/b\u{80}", "\"a/b\u{80}\""),
    (Mode::Json, "\t", "\"\\t\""),
    (Mode::Json, "\x08\x0c\r", "\"\\b\\f\\r\""),
    (Mode::Html, ASCII, ASCII_MARKUP_FREE),
    (Mode::Html, "", ""),
    (
        Mode::Html,
        "<a href='/x'>",
        "&lt;a href=&#x27;&#x2f;x&#x27;&gt;",
    ),
    (Mode::Html, "&amp;", "&amp;amp;"),
    (Mode::Html, "<", "&lt;"),
    (Mode::Html, "\"\n\u{80}", "&quot;\n\u{80}"),
    // A byte order mark stays.
    (Mode::Html, "\u{feff}\"a", "\u{feff}&quot;a"),
    (Mode::Script, ASCII, ASCII_SCRIPT_LITERAL),
    (Mode::Script, "", "\"\""),
    (
        Mode::Script,
        "</script>&\u{2028}",
        "\"\\u003c/script\\u003e\\u0026\\u2028\"",
    ),
    (Mode::Script, "\u{2026}", "\"\u{2026}\""),
    (Mode::Script, "a/b", "\"a/b\""),
    (Mode::Script, "\n<", "\"\\n\\u003c\""),
    (Mode::Script, "\u{20ac}", "\"\u{20ac}\""),
    (Mode::Script, "\u{2028}\u{2029}", "\"\\u2028\\u2029\""),
    (Mode::Script, "\u{2026}\u{2028}", "\"\u{2026}\\u2028\""),
    (Mode::Script, "&", "\"\\u0026\""),
];

/// The parts of a text, each as often as its number says.
type Parts = &'static [(usize, &'static str)];

/// A mode, a text, and what stands for it.
static ROWS_OF_PARTS: [(Mode, Parts, Parts); 23] = [
    (
        Mode::Json,
        &[(31, "a"), (1, "\"\"b")],
        &[(1, "\""), (31, "a"), (1, "\\\"\\\"b\"")],
    ),
    (
        Mode::Json,
        &[(16, "a"), (1, "\"a\"b")],
        &[(1, "\""), (16, "a"), (1, "\\\"a\\\"b\"")],
    ),
    (
        Mode::Json,
        &[(32, "a"), (1, "\"a\"b")],
        &[(1, "\""), (32, "a"), (1, "\\\"a\\\"b\"")],
    ),
    (
        Mode::Json,
        &[(64, "a"), (1, "\"a\"b")],
        &[(1, "\""), (64, "a"), (1, "\\\"a\\\"b\"")],
    ),
    (
        Mode::Json,
        &[(64, "a"), (1, "")],
        &[(1, "\""), (64, "a"), (1, "\"")],
    ),
    (
        Mode::Script,
        &[(14, "a"), (1, "\u{2028}")],
        &[(1, "\""), (14, "a"), (1, "\\u2028\"")],
    ),
    (
        Mode::Script,
        &[(15, "a"), (1, "\u{2029}")],
        &[(1, "\""), (15, "a"), (1, "\\u2029\"")],
    ),
    (
        Mode::Script,
        &[(31, "a"), (1, "\u{2028}")],
        &[(1, "\""), (31, "a"), (1, "\\u2028\"")],
    ),
    (
        Mode::Script,
        &[(63, "a"), (1, "\u{2029}")],
        &[(1, "\""), (63, "a"), (1, "\\u2029\"")],
    ),
    (
        Mode::Json,
        &[(256, "\"")],
        &[(1, "\""), (256, "\\\""), (1, "\"")],
    ),
    (
        Mode::Json,
        &[(64, "\x01")],
        &[(1, "\""), (64, "\\u0001"), (1, "\"")],
    ),
    (
        Mode::Script,
        &[(64, "<")],
        &[(1, "\""), (64, "\\u003c"), (1, "\"")],
    ),
    (
        Mode::Script,
        &[(4200, "\u{2028}<")],
        &[(1, "\""), (4200, "\\u2028\\u003c"), (1, "\"")],
    ),
    (
        Mode::Json,
        &[(63, "a"), (1, "\\"), (64, "a")],
        &[(1, "\""), (63, "a"), (1, "\\\\"), (64, "a"), (1, "\"")],
    ),
    (
        Mode::Json,
        &[(40, "a"), (1, "\""), (23, "a")],
        &[(1, "\""), (40, "a"), (1, "\\\""), (23, "a"), (1, "\"")],
    ),
    (Mode::Html, &[(16, "<a")], &[(16, "&lt;a")]),
    (Mode::Html, &[(33, "<")], &[(33, "&lt;")]),
    (Mode::Html, &[(6, "\u{20ac}")], &[(6, "\u{20ac}")]),
    (
        Mode::Html,
        &[(15, "a"), (1, "&\u{20ac}")],
        &[(15, "a"), (1, "&amp;\u{20ac}")],
    ),
    (
        Mode::Html,
        &[(50, "a"), (1, ">"), (13, "a")],
        &[(50, "a"), (1, "&gt;"), (13, "a")],
    ),
    (
        Mode::Html,
        &[(1, "/"), (126, "a"), (1, "/")],
        &[(1, "&#x2f;"), (126, "a"), (1, "&#x2f;")],
    ),
    (
        Mode::Html,
        &[(128, "a"), (1, "'")],
        &[(128, "a"), (1, "&#x27;")],
    ),
    (
        Mode::Html,
        &[(4200, "a\u{e9}\"")],
        &[(4200, "a\u{e9}&quot;")],
    ),
];

/// All that writes in this mode writes the output for the text.
fn all_write(rt: &(impl Abort + AllocGlobal), mode: Mode, text: &str, output: &str) {
    if let Some(writer) = differing(rt.alloc(), mode, text, output.as_bytes()).expect(
        rt, "refused",
    ) {
        panic!(rt; "{writer:?} {mode:?} {text}");
    }
}

#[test]
fn rows(rt: HostRuntime) {
    for (mode, text, output) in &ROWS {
        all_write(&rt, *mode, text, output);
    }
}

#[test]
fn rows_of_parts(rt: HostRuntime) {
    for (mode, text, output) in &ROWS_OF_PARTS {
        all_write(&rt, *mode, &repeated(&rt, text), &repeated(&rt, output));
    }
}

/// Whether the texts are appended as these.
fn each_appends(texts: &[&str], target: &mut Vec<u8>, bytes: &[u8]) -> bool {
    escape_html_each(texts, target).is_ok() && target.as_slice() == bytes
}

#[test]
fn texts_one_after_another(rt: HostRuntime) {
    let mut target = Vec::new(rt.alloc());
    assert!(rt; each_appends(&["a"], &mut target, b"a"));
    assert!(rt; each_appends(&[], &mut target, b"a"));
    assert!(rt; each_appends(&["<", "", "a&"], &mut target, b"a&lt;a&amp;"));
}

/// Whether a run of two is written, and no byte six or more past it.
fn is_run() -> bool {
    let mut dst = [UNTOUCHED; 40];
    let mut target = Target::<16>::new(&mut dst);
    let places = escape_unchecked::<true, 16>(b"<&a", 0, &mut target, 0);
    places == (2, 9) && is_written(&dst, 9, 15, b"&lt;&amp;")
}

#[test]
fn a_run_of_escapes(rt: HostRuntime) {
    assert!(rt; is_run());
}
