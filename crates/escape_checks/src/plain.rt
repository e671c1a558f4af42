//! What stands for a text, character by character. It is written out here, and reads no table of the library.

use escape_stream::Mode;
use std::alloc::{AllocError, Global};
use std::process::Abort;

/// What stands for each character below U+0020 in JSON.
static CONTROLS: [&str; 32] = [
    "\\u0000", "\\u0001", "\\u0002", "\\u0003", "\\u0004", "\\u0005", "\\u0006", "\\u0007", "\\b",
    "\\t", "\\n", "\\u000b", "\\f", "\\r", "\\u000e", "\\u000f", "\\u0010", "\\u0011", "\\u0012",
    "\\u0013", "\\u0014", "\\u0015", "\\u0016", "\\u0017", "\\u0018", "\\u0019", "\\u001a",
    "\\u001b", "\\u001c", "\\u001d", "\\u001e", "\\u001f",
];

/// The whole output for the text.
pub fn plain(rt: &(impl Abort + AllocGlobal), mode: Mode, text: &str) -> String {
    output(rt.alloc(), mode, text).expect(rt, "no memory")
}

fn output(alloc: Global, mode: Mode, text: &str) -> Result<String, AllocError> {
    let quote = if mode == Mode::Html { "" } else { "\"" };
    let mut output = String::new(alloc);
    output.push_str(quote)?;
    for character in text.chars() {
        match replacement(mode, character) {
            Some(replacement) => output.push_str(replacement)?,
            None => output.push(character)?,
        }
    }
    output.push_str(quote)?;
    Ok(output)
}

/// What stands for the character, or none where it stands for itself.
pub fn replacement(mode: Mode, character: char) -> Option<&'static str> {
    match mode {
        Mode::Html => html(character),
        Mode::Json => json(character),
        Mode::Script => script(character),
    }
}

fn html(character: char) -> Option<&'static str> {
    match character {
        '"' => Some("&quot;"),
        '&' => Some("&amp;"),
        '\'' => Some("&#x27;"),
        '/' => Some("&#x2f;"),
        '<' => Some("&lt;"),
        '>' => Some("&gt;"),
        _ => None,
    }
}

fn json(character: char) -> Option<&'static str> {
    match character {
        '"' => Some("\\\""),
        '\\' => Some("\\\\"),
        _ => CONTROLS.get(character as usize).copied(),
    }
}

fn script(character: char) -> Option<&'static str> {
    match character {
        '<' => Some("\\u003c"),
        '>' => Some("\\u003e"),
        '&' => Some("\\u0026"),
        '\u{2028}' => Some("\\u2028"),
        '\u{2029}' => Some("\\u2029"),
        _ => json(character),
    }
}
