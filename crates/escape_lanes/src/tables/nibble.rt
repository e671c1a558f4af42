//! The bytes that are flagged in HTML, and those in script, by the two halves of a
//! byte.

/// A bit for each of the bytes that HTML escapes, by the low four bits of a byte.
///
/// For a byte `b`, `HTML_LO_NIBBLE_TAB[b & 15] & HTML_HI_NIBBLE_TAB[b >> 4]` is not 0 exactly where
/// HTML escapes `b`.
pub static HTML_LO_NIBBLE_TAB: [u8; 16] = [0, 0, 1, 0, 0, 0, 2, 4, 0, 0, 0, 0, 16, 0, 32, 8];

/// The bits that are left of [`HTML_LO_NIBBLE_TAB`], by the high four bits of a byte.
pub static HTML_HI_NIBBLE_TAB: [u8; 16] = [0, 0, 15, 48, 0, 0, 0, 0, 0, 0, 0, 0, 0, 0, 0, 0];

/// The one byte that HTML escapes with each low half, at that half: a byte `b` is escaped exactly where
/// `HTML_CANDIDATE_TAB[b & 15]` is `b` itself.
///
/// No two of the six bytes share their low half. Where a half has none, the entry is a byte with another
/// low half.
pub(crate) static HTML_CANDIDATE_TAB: [u8; 16] = [
    255, 0, 0x22, 0, 0, 0, 0x26, 0x27, 0, 0, 0, 0, 0x3c, 0, 0x3e, 0x2f,
];

/// What the low four bits of a byte add to [`SCRIPT_HI_NIBBLE_TAB`].
///
/// For a byte `b`, the sum of `SCRIPT_LO_NIBBLE_TAB[b & 15]` and `SCRIPT_HI_NIBBLE_TAB[b >> 4]`,
/// which wraps, is 0x80 or more exactly where `b` is flagged in script.
pub(crate) static SCRIPT_LO_NIBBLE_TAB: [u8; 16] = [
    0, 0, 0x20, 0, 0, 0, 0x10, 0, 0, 0, 0, 0, 0xe0, 0, 0xf0, 0,
];

/// The sums where the low four bits add nothing.
///
/// Control characters, 0 and 1, are far from both ends. Of the others, 2 and e fall short of 0x80,
/// and 3 and 5 are past 0xff: 2 and 6 among the low bits add what `"`, `&` and e2 lack, and c and e
/// take away what `<`, `>` and `\` are too much.
pub(crate) static SCRIPT_HI_NIBBLE_TAB: [u8; 16] = [
    0xc0, 0xc0, 0x70, 0x00, 0x40, 0x10, 0x40, 0x40, 0x40, 0x40, 0x40, 0x40, 0x40, 0x40, 0x60, 0x40,
];
