//! Objects and pages, with what they become written out.

use crate::tests::rationed::Rationed;
use escape_simd::Refusal;
use escape_text::json::object_into;
use escape_text::page::Part::{Markup, Script, Text};
use escape_text::page::{Part, page};
use std::alloc::Global;

static OBJECTS: [(&[(&str, &str)], &str); 3] = [
    (&[], "{}"),
    (&[("a", "b"), ("c", "d")], "{\"a\":\"b\",\"c\":\"d\"}"),
    (
        &[("", ""), ("\"", "\n"), ("\"", "/")],
        "{\"\":\"\",\"\\\"\":\"\\n\",\"\\\"\":\"/\"}",
    ),
];

static PAGES: [(&[Part], &str); 4] = [
    (&[], ""),
    (&[Markup("<a href=\"'/&'\">")], "<a href=\"'/&'\">"),
    (
        &[Text("<a href=\"'/&'\">")],
        "&lt;a href=&quot;&#x27;&#x2f;&amp;&#x27;&quot;&gt;",
    ),
    (
        &[
            Markup("<b>"),
            Text("<b>"),
            Markup("</b>"),
            Script("</b>"),
            Text(""),
        ],
        "<b>&lt;b&gt;</b>\"\\u003c/b\\u003e\"",
    ),
];

fn is_object(alloc: Global, fields: &[(&str, &str)], wanted: &str) -> bool {
    let mut object = Vec::new(alloc);
    object_into(fields, &mut object).is_ok() && object.as_slice() == wanted.as_bytes()
}

fn is_page(alloc: Global, parts: &[Part<'_>], wanted: &str) -> bool {
    match page(alloc, parts) {
        Ok(page) => page.as_bytes() == wanted.as_bytes(),
        Err(_) => false,
    }
}

#[test]
fn objects(rt: HostRuntime) {
    for (fields, wanted) in &OBJECTS {
        assert!(rt; is_object(rt.alloc(), fields, wanted), "{wanted}");
    }
}

#[test]
fn pages(rt: HostRuntime) {
    for (parts, wanted) in &PAGES {
        assert!(rt; is_page(rt.alloc(), parts, wanted), "{wanted}");
    }
}

/// Whether a page of two texts is refused with the request after so many, and tells the text.
fn is_refused_at(heap: &Rationed<Global>, granted: u64, text: usize) -> bool {
    heap.ration(granted);
    match page(heap, &[Text("<"), Text("<")]) {
        Ok(_) => false,
        Err(stop) => stop.written == text && stop.reason == Refusal::OutOfMemory,
    }
}

#[test]
fn refused_pages(rt: HostRuntime) {
    for text in 0..2 {
        let heap = Rationed::new(rt.alloc());
        assert!(rt; is_refused_at(&heap, text as u64, text));
    }
}
