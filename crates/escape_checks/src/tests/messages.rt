//! What errors print, also as an `io::Error`; a formatter with a width.

use escape_simd::Refusal;
use escape_simd::html::EscapeHtmlError;
use escape_simd::json::EscapeError;
use escape_stream::ToolFault;
use escape_text::json::Escaped;
use std::fmt::Display;
use std::io;
use std::process::Abort;

fn prints<E: Display>(rt: &(impl Abort + AllocGlobal), error: &E, text: &str) {
    let printed = error.to_string(rt.alloc()).expect(rt, "no memory");
    assert!(rt; printed.as_str() == text, "{printed}");
}

#[test]
fn messages_of_refusals_among_errors_of_io(rt: HostRuntime) {
    let too_large = "input is too large to escape";
    prints(&rt, &io::Error::from(Refusal::TooLarge), too_large);
    prints(&rt, &io::Error::from(EscapeError::TooLarge), too_large);
    prints(
        &rt,
        &io::Error::from(EscapeHtmlError::OutOfMemory),
        "out of memory",
    );
}

static FAULTS: [(ToolFault, &str); 5] = [
    (ToolFault::ReadFailed, "reading failed"),
    (ToolFault::NotUtf8, "input is not UTF-8"),
    (ToolFault::TooLarge, "input is too large"),
    (ToolFault::OutOfMemory, "out of memory"),
    (ToolFault::WriteFailed, "writing failed"),
];

#[test]
fn messages_of_faults(rt: HostRuntime) {
    for (fault, text) in &FAULTS {
        prints(&rt, fault, text);
    }
}

#[test]
fn width_and_fill_have_no_effect(rt: HostRuntime) {
    let padded = format!(in rt.alloc(); "{:*>9}", Escaped("a")).expect(&rt, "no memory");
    assert!(rt; padded.as_str() == "\"a\"");
}
