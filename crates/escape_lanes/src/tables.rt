//! What stands for each byte of a text, written out for all 256 bytes.
ghost use Rattle.std.specs.Prelude.{◌≡◌, [], slice_index, slice_index_or, if◌then◌else◌};
ghost use Rattle.escape_lanes.specs.Mode.{json, html, script};
ghost use Rattle.escape_lanes.specs.Replacement.{needs_escape};
ghost use Rattle.escape_lanes.specs.Bits.{bits_of};
ghost use Rattle.escape_lanes.specs.Entry.{entry_count, entry_bytes};
ghost use Rattle.escape_lanes.specs.Spread.{spread};

mod html;
mod json;
mod nibble;
mod script;
mod spread;

pub use html::{HTML_ESCAPE_TAB, HTML_NEED_ESCAPED};
pub use json::{NEED_ESCAPED, QUOTE_TAB};
pub(crate) use nibble::{HTML_CANDIDATE_TAB, SCRIPT_HI_NIBBLE_TAB, SCRIPT_LO_NIBBLE_TAB};
pub use nibble::{HTML_HI_NIBBLE_TAB, HTML_LO_NIBBLE_TAB};
pub use script::{LINE_SEPARATOR, PARAGRAPH_SEPARATOR, SCRIPT_FLAGGED, SCRIPT_TAB};
use spread::SPREAD_TAB;

/// Returns the byte's entry in [`QUOTE_TAB`], by reference: the count of bytes that stand for it in a JSON
/// string literal, and 0 where it stands for itself; then those bytes, padded with zeros to eight.
#[inline(always)]
pub fn json_entry(b: u8) -> &'static (u8, [u8; 8])
    ensures count { result.now.0 ≡ entry_count json b }
    ensures bytes { result.now.1 ≡ entry_bytes json b }
{
    &QUOTE_TAB[b as usize]
}

/// Returns the byte's entry in [`HTML_ESCAPE_TAB`], by reference: the count of bytes that stand for it in
/// HTML, and 0 where it stands for itself; then those bytes, padded with zeros to eight.
#[inline(always)]
pub fn html_entry(b: u8) -> &'static (u8, [u8; 8])
    ensures count { result.now.0 ≡ entry_count html b }
    ensures bytes { result.now.1 ≡ entry_bytes html b }
{
    &HTML_ESCAPE_TAB[b as usize]
}

/// Returns the byte's entry in [`SCRIPT_TAB`], by reference: the count of bytes that stand for it in a script
/// literal where no separator begins with it, and 0 where it is not flagged; then those bytes, padded
/// with zeros to eight.
#[inline(always)]
pub fn script_entry(b: u8) -> &'static (u8, [u8; 8])
    ensures count { result.now.0 ≡ entry_count script b }
    ensures bytes { result.now.1 ≡ entry_bytes script b }
{
    &SCRIPT_TAB[b as usize]
}

/// Returns the places that the bytes of a block of eight are taken from, by their flags: place 8
/// stands before each flagged byte, and fills the row.
///
/// `spread_row(0b10)` is `[0, 8, 1, 2, 3, 4, 5, 6, 7, 8, 8, 8, 8, 8, 8, 8]`.
#[inline(always)]
pub fn spread_row(flags: u8) -> &'static [u8; 16]
    ensures { result.now ≡ spread (bits_of 8 flags) }
{
    &SPREAD_TAB[flags as usize]
}

/// Returns the byte's row of the JSON tables: its mark in [`NEED_ESCAPED`] and its entry in [`QUOTE_TAB`].
///
/// `json_row(0x0b)` is `(1, (6, *b"\\u000b\0\0"))`, and `json_row(0x7f)` is `(0, (0, [0; 8]))`.
#[inline(always)]
pub fn json_row(b: u8) -> (u8, (u8, [u8; 8]))
    ensures row { result ≡ (slice_index NEED_ESCAPED b, slice_index_or QUOTE_TAB b (0, [])) }
    ensures need { result.0 ≡ (if needs_escape json b then 1 else 0) }
    ensures count { result.1.0 ≡ entry_count json b }
    ensures bytes { result.1.1 ≡ entry_bytes json b }
{
    (NEED_ESCAPED[b as usize], *json_entry(b))
}

/// Returns the byte's row of the HTML tables: its mark in [`HTML_NEED_ESCAPED`] and its entry in
/// [`HTML_ESCAPE_TAB`].
///
/// `html_row(b'&')` is `(1, (5, *b"&amp;\0\0\0"))`, and `html_row(b'a')` is `(0, (0, [0; 8]))`.
#[inline(always)]
pub fn html_row(b: u8) -> (u8, (u8, [u8; 8]))
    ensures row { result ≡ (slice_index HTML_NEED_ESCAPED b, slice_index_or HTML_ESCAPE_TAB b (0, [])) }
    ensures need { result.0 ≡ (if needs_escape html b then 1 else 0) }
    ensures count { result.1.0 ≡ entry_count html b }
    ensures bytes { result.1.1 ≡ entry_bytes html b }
{
    (HTML_NEED_ESCAPED[b as usize], *html_entry(b))
}
