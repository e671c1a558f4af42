//! The modes that are measured: a further one is one more line in each list of this file.
use escape_simd::Mode;
use escape_simd::html::{escape_html, escape_html_into};
use escape_simd::json::{escape, escape_into, escape_script, escape_script_into};
use escape_simd::tables::{html_row, json_row, script_entry};
use std::alloc::Global;

pub const MODES: [Mode; 3] = [Mode::Json, Mode::Html, Mode::Script];

/// The count of the bytes that stand for the byte, 0 where it stands for itself, and those bytes.
pub fn entry_of(mode: Mode, byte: u8) -> (u8, [u8; 8]) {
    match mode {
        Mode::Json => json_row(byte).1,
        Mode::Html => html_row(byte).1,
        // The texts are ASCII, so no separator stands in them.
        Mode::Script => *script_entry(byte),
    }
}

/// Appends what the text becomes, and returns whether it could.
#[inline(always)]
pub fn append(mode: Mode, text: &str, target: &mut Vec<u8>) -> bool {
    match mode {
        Mode::Json => escape_into(text, target).is_ok(),
        Mode::Html => escape_html_into(text, target).is_ok(),
        Mode::Script => escape_script_into(text, target).is_ok(),
    }
}

/// What the text becomes, in memory of its own.
#[inline(always)]
pub fn answer(alloc: Global, mode: Mode, text: &str) -> Option<String> {
    match mode {
        Mode::Json => escape(alloc, text).ok(),
        Mode::Html => escape_html(alloc, text).ok(),
        Mode::Script => escape_script(alloc, text).ok(),
    }
}
