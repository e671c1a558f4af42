//! The tables, entry by entry.

use crate::plain::replacement;
use crate::routes::MODES;
use crate::tests::texts::all_are;
use escape_lanes::tables::{
    HTML_HI_NIBBLE_TAB, HTML_LO_NIBBLE_TAB, LINE_SEPARATOR, PARAGRAPH_SEPARATOR, SCRIPT_FLAGGED,
    SCRIPT_TAB, html_row, json_row,
};
use escape_stream::Mode;

/// The byte's mark and its entry.
fn row(mode: Mode, byte: u8) -> (u8, (u8, [u8; 8])) {
    match mode {
        Mode::Json => json_row(byte),
        Mode::Html => html_row(byte),
        Mode::Script => (SCRIPT_FLAGGED[byte as usize], SCRIPT_TAB[byte as usize]),
    }
}

/// What an entry has for the byte, nothing where it stands for itself. A script literal has to look at e2, with which
/// the separators begin. It stands for itself.
fn entry_of(mode: Mode, byte: u8) -> &'static [u8] {
    if mode == Mode::Script && byte == 0xe2 {
        return b"\xe2";
    }
    match replacement(mode, char::from(byte)) {
        Some(escape) => escape.as_bytes(),
        None => b"",
    }
}

/// Whether the entry counts these bytes, and has them and then zeros.
fn has_bytes(entry: &(u8, [u8; 8]), bytes: &[u8]) -> bool {
    usize::from(entry.0) == bytes.len()
        && match entry.1.strip_prefix(bytes) {
            Some(rest) => all_are(rest, 0),
            None => false,
        }
}

/// Whether the byte is marked if it has an entry, and has that.
fn is_row(mode: Mode, byte: u8) -> bool {
    let (mark, entry) = row(mode, byte);
    let bytes = entry_of(mode, byte);
    mark == !bytes.is_empty() as u8 && has_bytes(&entry, bytes)
}

#[test]
fn each_row(rt: HostRuntime) {
    for mode in MODES {
        for byte in 0..=u8::MAX {
            assert!(rt; is_row(mode, byte), "{mode:?} {byte}");
        }
    }
}

#[test]
fn separators_and_halves_of_a_byte(rt: HostRuntime) {
    assert!(rt; &LINE_SEPARATOR == b"\\u2028\0\0");
    assert!(rt; &PARAGRAPH_SEPARATOR == b"\\u2029\0\0");
    assert!(rt; HTML_LO_NIBBLE_TAB == [0, 0, 1, 0, 0, 0, 2, 4, 0, 0, 0, 0, 16, 0, 32, 8]);
    assert!(rt; HTML_HI_NIBBLE_TAB == [0, 0, 15, 48, 0, 0, 0, 0, 0, 0, 0, 0, 0, 0, 0, 0]);
}
