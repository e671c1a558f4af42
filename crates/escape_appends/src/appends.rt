//! The calls that append, to vectors, strings, writers and formatters, those that return a string, and runs.
use escape_simd::html::{escape_html, escape_html_each, escape_html_into};
use escape_simd::json::{escape, escape_into, escape_script, escape_script_into};
use escape_simd::{Kernel, Mode, Refusal};
use escape_stream::run;
use escape_text::html::{
    self, escape_html_compact, escape_html_cow, escape_html_into_string, escape_html_joined_into,
    escape_html_to_writer,
};
use escape_text::json::{
    self, escape_array_into, escape_compact, escape_into_string, escape_joined_into,
    escape_script_array_into, escape_script_compact, escape_script_into_string,
    escape_script_to_writer, escape_to_writer, object_into,
};
use escape_text::page::{Part, page_into};
use std::alloc::{AllocError, Global};
use std::fmt::Write;

/// Each mode.
pub const MODES: [Mode; 3] = [Mode::Json, Mode::Html, Mode::Script];

/// Each kernel.
pub const KERNELS: [Kernel; 5] = [
    Kernel::V128,
    Kernel::Sse2,
    Kernel::Neon,
    Kernel::Avx2,
    Kernel::Avx512,
];

/// A call that [some modes](is_of) have.
#[derive(Debug, Clone, Copy)]
pub enum Call {
    /// To a vector.
    Vector,
    /// To a writer, which is a vector.
    Writer,
    /// Of a text twice, to a vector: as an array, in HTML with nothing between.
    Twice,
    /// Of a text twice with a separator, to a vector.
    Joined,
    /// Of a text twice, to a vector: as key and value of an object, in HTML and script as parts of a page.
    Record,
    /// To a string.
    Text,
    /// To a string, by `write!`.
    Formatter,
    /// Returns a string.
    Returned,
    /// Returns a string of the output's length.
    Compact,
    /// Returns the text itself if it is clean.
    Borrowed,
}

const CALLS: [Call; 10] = [
    Call::Vector,
    Call::Writer,
    Call::Twice,
    Call::Joined,
    Call::Record,
    Call::Text,
    Call::Formatter,
    Call::Returned,
    Call::Compact,
    Call::Borrowed,
];

/// What a vector or a string holds before.
const BEFORE: &str = "\u{e9}\"";

/// Whether the mode has the call.
fn is_of(mode: Mode, call: Call) -> bool {
    match call {
        Call::Joined => mode != Mode::Script,
        Call::Borrowed => mode == Mode::Html,
        _ => true,
    }
}

/// The first call of the mode that fails or writes something else than `output` for the text, where vectors and
/// strings have this spare capacity.
pub fn differing_call(
    alloc: Global,
    mode: Mode,
    text: &str,
    output: &[u8],
    spare: usize,
) -> Option<Call> {
    for call in CALLS {
        if is_of(mode, call) && !writes(alloc, call, mode, text, output, spare) {
            return Some(call);
        }
    }
    None
}

fn writes(alloc: Global, call: Call, mode: Mode, text: &str, output: &[u8], spare: usize) -> bool {
    match call {
        Call::Vector => match vector(alloc, spare) {
            Ok(mut dst) => append(mode, text, &mut dst).is_ok() && has(&dst, &[output]),
            Err(_) => false,
        },
        Call::Writer => match vector(alloc, spare) {
            Ok(mut dst) => write(mode, text, &mut dst) && has(&dst, &[output]),
            Err(_) => false,
        },
        Call::Twice => match vector(alloc, spare) {
            Ok(mut dst) => append_twice(mode, text, &mut dst) && is_twice(mode, &dst, output),
            Err(_) => false,
        },
        Call::Joined => match vector(alloc, spare) {
            Ok(mut dst) => append_joined(mode, text, &mut dst)
                && has(&dst, &[output, b"; ", output]),
            Err(_) => false,
        },
        Call::Record => match vector(alloc, spare) {
            Ok(mut dst) => append_record(mode, text, &mut dst) && is_record(mode, &dst, output),
            Err(_) => false,
        },
        Call::Text => match string(alloc, spare) {
            Ok(mut dst) => append_text(mode, text, &mut dst).is_ok()
                && has(dst.as_bytes(), &[output]),
            Err(_) => false,
        },
        Call::Formatter => match string(alloc, spare) {
            Ok(mut dst) => display(mode, text, &mut dst) && has(dst.as_bytes(), &[output]),
            Err(_) => false,
        },
        Call::Returned => is_string(returned(alloc, mode, text), output),
        Call::Compact => is_string(compact(alloc, mode, text), output),
        Call::Borrowed => is_borrowed(alloc, text, output),
    }
}

fn vector(alloc: Global, spare: usize) -> Result<Vec<u8>, AllocError> {
    let mut vector = Vec::with_capacity(alloc, BEFORE.len().saturating_add(spare))?;
    vector.extend_from_slice(BEFORE.as_bytes())?;
    Ok(vector)
}

fn string(alloc: Global, spare: usize) -> Result<String, AllocError> {
    let mut string = String::with_capacity(alloc, BEFORE.len().saturating_add(spare))?;
    string.push_str(BEFORE)?;
    Ok(string)
}

/// Whether the bytes are those from before, and then these parts.
fn has(bytes: &[u8], parts: &[&[u8]]) -> bool {
    let Some(mut rest) = bytes.strip_prefix(BEFORE.as_bytes()) else {
        return false;
    };
    for part in parts {
        match rest.strip_prefix(*part) {
            Some(behind) => rest = behind,
            None => return false,
        }
    }
    rest.is_empty()
}

fn append(mode: Mode, text: &str, dst: &mut Vec<u8>) -> Result<(), Refusal> {
    match mode {
        Mode::Json => escape_into(text, dst)?,
        Mode::Html => escape_html_into(text, dst)?,
        Mode::Script => escape_script_into(text, dst)?,
    }
    Ok(())
}

fn write(mode: Mode, text: &str, dst: &mut Vec<u8>) -> bool {
    match mode {
        Mode::Json => escape_to_writer(text, dst).is_ok(),
        Mode::Html => escape_html_to_writer(text, dst).is_ok(),
        Mode::Script => escape_script_to_writer(text, dst).is_ok(),
    }
}

fn append_twice(mode: Mode, text: &str, dst: &mut Vec<u8>) -> bool {
    match mode {
        Mode::Json => escape_array_into(&[text, text], dst).is_ok(),
        Mode::Html => escape_html_each(&[text, text], dst).is_ok(),
        Mode::Script => escape_script_array_into(&[text, text], dst).is_ok(),
    }
}

fn is_twice(mode: Mode, bytes: &[u8], output: &[u8]) -> bool {
    match mode {
        Mode::Html => has(bytes, &[output, output]),
        _ => has(bytes, &[b"[", output, b",", output, b"]"]),
    }
}

fn append_joined(mode: Mode, text: &str, dst: &mut Vec<u8>) -> bool {
    match mode {
        Mode::Html => escape_html_joined_into(&[text, text], "; ", dst).is_ok(),
        _ => escape_joined_into(&[text, text], "; ", dst).is_ok(),
    }
}

fn append_record(mode: Mode, text: &str, dst: &mut Vec<u8>) -> bool {
    let part = match mode {
        Mode::Json => return object_into(&[(text, text)], dst).is_ok(),
        Mode::Html => Part::Text(text),
        Mode::Script => Part::Script(text),
    };
    page_into(&[part, Part::Markup("; "), part], dst).is_ok()
}

fn is_record(mode: Mode, bytes: &[u8], output: &[u8]) -> bool {
    match mode {
        Mode::Json => has(bytes, &[b"{", output, b":", output, b"}"]),
        _ => has(bytes, &[output, b"; ", output]),
    }
}

fn append_text(mode: Mode, text: &str, dst: &mut String) -> Result<(), Refusal> {
    match mode {
        Mode::Json => escape_into_string(text, dst)?,
        Mode::Html => escape_html_into_string(text, dst)?,
        Mode::Script => escape_script_into_string(text, dst)?,
    }
    Ok(())
}

fn display(mode: Mode, text: &str, dst: &mut String) -> bool {
    match mode {
        Mode::Json => write!(dst, "{}", json::Escaped(text)).is_ok(),
        Mode::Html => write!(dst, "{}", html::Escaped(text)).is_ok(),
        Mode::Script => write!(dst, "{}", json::EscapedScript(text)).is_ok(),
    }
}

fn is_string(string: Result<String, Refusal>, output: &[u8]) -> bool {
    match string {
        Ok(string) => string.as_bytes() == output,
        Err(_) => false,
    }
}

fn returned(alloc: Global, mode: Mode, text: &str) -> Result<String, Refusal> {
    Ok(match mode {
        Mode::Json => escape(alloc, text)?,
        Mode::Html => escape_html(alloc, text)?,
        Mode::Script => escape_script(alloc, text)?,
    })
}

fn compact(alloc: Global, mode: Mode, text: &str) -> Result<String, Refusal> {
    Ok(match mode {
        Mode::Json => escape_compact(alloc, text)?,
        Mode::Html => escape_html_compact(alloc, text)?,
        Mode::Script => escape_script_compact(alloc, text)?,
    })
}

fn is_borrowed(alloc: Global, text: &str, output: &[u8]) -> bool {
    match escape_html_cow(alloc, text) {
        Ok(string) => string.as_bytes() == output,
        Err(_) => false,
    }
}

/// What the vector holds before a run appends to it. It is no text.
const BEFORE_RUN: [u8; 2] = [0xff, b'"'];

/// Whether a run by this kernel writes the output.
pub fn runs_write(alloc: Global, kernel: Kernel, mode: Mode, text: &str, output: &[u8]) -> bool {
    let mut input = text.as_bytes();
    let mut target = Vec::new(alloc);
    target.extend_from_slice(&BEFORE_RUN).is_ok()
        && run(alloc, mode, kernel, &mut input, &mut target).is_ok()
        && is_before_and(&target, output)
}

fn is_before_and(appended: &[u8], output: &[u8]) -> bool {
    match appended.strip_prefix(&BEFORE_RUN) {
        Some(after) => after == output,
        None => false,
    }
}
