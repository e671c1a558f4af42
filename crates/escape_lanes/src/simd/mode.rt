//! The modes as numbers, and what depends on the mode: generic code has the number as its constant parameter
//! `MODE`, and asks here. No other file compares it.
ghost use Rattle.std.specs.Prelude.{◌≡◌, ◌↔◌, true, false};
ghost use Rattle.escape_lanes.specs.Entry.{entry_count, entry_bytes};
ghost use Rattle.escape_lanes.specs.Mode.{html, script, mode_numbered};

use crate::tables::{html_entry, json_entry, script_entry};

/// The number of the mode that writes a JSON string literal.
pub const JSON_MODE: u8 = 0;

/// The number of the mode that writes HTML.
pub const HTML_MODE: u8 = 1;

/// The number of the mode that writes a JSON string literal for a script element.
pub const SCRIPT_MODE: u8 = 2;

/// Returns how many bytes stand for the byte, 0 where it needs no escape, and these bytes with zeros
/// after them.
#[inline(always)]
pub fn entry<const MODE: u8>(b: u8) -> &'static (u8, [u8; 8])
    ensures count { result.now.0 ≡ entry_count (mode_numbered MODE) b }
    ensures bytes { result.now.1 ≡ entry_bytes (mode_numbered MODE) b }
{
    if MODE == JSON_MODE {
        json_entry(b)
    } else if MODE == HTML_MODE {
        html_entry(b)
    } else {
        script_entry(b)
    }
}

/// Returns whether the output stands between quotation marks.
#[inline(always)]
pub fn is_quoted<const MODE: u8>() -> bool
    ensures { (result ≡ false) ↔ (mode_numbered MODE ≡ html) }
{
    MODE != HTML_MODE
}

/// Returns whether some bytes have a short escape: a reverse solidus and one byte more.
#[inline(always)]
pub fn has_short_escapes<const MODE: u8>() -> bool
    ensures { (result ≡ false) ↔ (mode_numbered MODE ≡ html) }
{
    is_quoted::<MODE>()
}

/// Returns whether the output is a literal for a script element, in which U+2028 and U+2029 are escaped too.
#[inline(always)]
pub fn is_script<const MODE: u8>() -> bool
    ensures { (result ≡ true) ↔ (mode_numbered MODE ≡ script) }
{
    // To `mode_numbered`, a number past 2 is that of script mode.
    SCRIPT_MODE <= MODE
}
