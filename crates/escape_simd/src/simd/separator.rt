//! The separators, U+2028 and U+2029: the two characters of more than one byte that a mode escapes.
ghost use Rattle.std.specs.Prelude.{◌≡◌, ◌<◌, ◌==◌, true, false, length, drop, codes, if◌then◌else◌};
ghost use Rattle.escape_lanes.specs.Entry.{padded};
ghost use Rattle.escape_lanes.specs.Mode.{script};
ghost use Rattle.escape_simd.specs.Modes.{mode_numbered};
ghost use Rattle.escape_simd.specs.Output.{begins_separator};

use escape_lanes::simd::mode::is_script;
use escape_lanes::tables::{LINE_SEPARATOR, PARAGRAPH_SEPARATOR};

/// Returns whether the mode escapes separators, and one begins at `at`: e2 80 a8 or e2 80 a9.
#[inline(always)]
pub(crate) fn is_separator<const MODE: u8>(src: &[u8], at: usize) -> bool
    requires { at < length src.now }
    ensures begins { result ≡ true
        → (mode_numbered MODE ≡ script) × (begins_separator (drop at src.now) ≡ true) }
    ensures none { result ≡ false → mode_numbered MODE ≡ script → begins_separator (drop at src.now) ≡ false }
{
    if !is_script::<MODE>() {
        return false;
    }
    if src[at] != 0xe2 || src.len() - at < 3 {
        return false;
    }
    let (second, third) = (src[at + 1], src[at + 2]);
    second == 0x80 && (third == 0xa8 || third == 0xa9)
}

/// Returns what stands for the separator with this third byte.
#[inline(always)]
pub(crate) fn separator_entry(third: u8) -> &'static [u8; 8]
    ensures { result.now
        ≡ padded (if third == 0xa8 then codes "\\u2028" else codes "\\u2029") }
{
    if third == 0xa8 {
        &LINE_SEPARATOR
    } else {
        &PARAGRAPH_SEPARATOR
    }
}
