//! Capacities at the type's end, and the size of counts.

use escape_lanes::simd::target::{Target, Ticks};
use escape_simd::html::{InputTooLarge, html_capacity};
use escape_simd::json::{EscapeError, json_capacity};

/// Lengths, and the bounds for a text of each.
static CAPACITIES: [(
    usize,
    Result<usize, EscapeError>,
    Result<usize, InputTooLarge>,
); 7] = [
    (0, Ok(35), Ok(32)),
    (10, Ok(95), Ok(92)),
    (
        3074457345618258596,
        Ok(18446744073709551611),
        Ok(18446744073709551608),
    ),
    (
        3074457345618258597,
        Err(EscapeError::TooLarge),
        Ok(18446744073709551614),
    ),
    (
        3074457345618258598,
        Err(EscapeError::TooLarge),
        Err(InputTooLarge),
    ),
    (
        usize::MAX / 6,
        Err(EscapeError::TooLarge),
        Err(InputTooLarge),
    ),
    (usize::MAX, Err(EscapeError::TooLarge), Err(InputTooLarge)),
];

#[test]
fn capacities(rt: HostRuntime) {
    for (len, json, html) in &CAPACITIES {
        assert!(rt; json_capacity(*len) == *json, "{len}");
        assert!(rt; html_capacity(*len) == *html, "{len}");
    }
}

#[test]
fn counts_take_no_bytes(rt: HostRuntime) {
    assert!(rt; size_of::<Ticks>() == 0);
    assert!(rt; size_of::<Target<'_, 16>>() == size_of::<&mut [u8]>());
}
