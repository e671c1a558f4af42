//! The kernel of 16 lanes in a vector that classifies by comparisons.
ghost use Rattle.std.specs.Prelude.{◌≤◌, length, take, chars};
ghost use Rattle.escape_lanes.specs.Mode.{mode_of, script};
ghost use Rattle.escape_lanes.specs.Written.{bytes_of};
ghost use Rattle.escape_simd.specs.Output.{bound};
ghost use Rattle.escape_simd.specs.Formatted.{IsFormatted, IsWritten};
ghost use Rattle.escape_simd.specs.Headline.{IsOnlyOutput};
ghost use Rattle.escape_simd.specs.Laws.{IsOfOneText};

use crate::simd::{HTML_MODE, JSON_MODE, SCRIPT_MODE, whole};
pub use escape_lanes::simd::sse2::{Mask128, Simd128u, escaped_mask, script_mask};
use escape_lanes::simd::target::{Target, Ticks};

/// Writes the output of a text to the front of the target: as HTML if `HTML`, else as a JSON string literal.
/// Returns the length of the output in bytes. The call allocates nothing and does not fail.
///
/// For a text of `n` bytes, the target must have at least `6 * n + 35` bytes, in HTML `6 * n + 32`. Its bytes
/// from that index on are unchanged, and so are those that are 16 or more past the end of the output. The
/// target counts the writes, `ticks` the classifications.
///
/// ```rust
/// let mut dst = [0; 38];
/// let mut target = target::Target::new(&mut dst);
/// let len = sse2::format_target::<true>("<", &mut target, &mut target::Ticks::new()); // 4
/// ```
#[inline(never)]
pub fn format_target<const HTML: bool>(
    value: &str,
    target: &mut Target<'_, 16>,
    ticks: &mut Ticks,
) -> usize
    requires has_room { bound (mode_of HTML) (length value.now) ≤ length (bytes_of target.old) }
    ensures { IsFormatted (mode_of HTML) value.now
        target.old target.new result ticks.old ticks.new }
{
    if HTML {
        return whole::format::<Simd128u, { HTML_MODE }, 16>(value, target, ticks);
    }
    whole::format::<Simd128u, { JSON_MODE }, 16>(value, target, ticks)
}

/// As [`format_target`], with the target made over `dst`.
///
/// ```rust
/// let mut dst = [0; 38];
/// let len = sse2::format_string::<true>("<", &mut dst); // 4
/// ```
pub fn format_string<const HTML: bool>(value: &str, dst: &mut [u8]) -> usize
    requires has_room { bound (mode_of HTML) (length value.now) ≤ length dst.old }
    ensures written { IsWritten 16 (mode_of HTML) value.now dst.old dst.new result }
    ensures headline { IsOnlyOutput (mode_of HTML) (take result dst.new) (chars value.now) }
    ensures equal_texts { IsOfOneText (mode_of HTML) value.now (take result dst.new) }
{
    if HTML {
        return whole::format_string::<Simd128u, { HTML_MODE }, 16>(value, dst);
    }
    whole::format_string::<Simd128u, { JSON_MODE }, 16>(value, dst)
}

/// As [`format_target`], as a JSON string literal that is safe inside a script element.
///
/// ```rust
/// let mut dst = [0; 41];
/// let mut target = target::Target::new(&mut dst);
/// let len = sse2::format_script_target("<", &mut target, &mut target::Ticks::new()); // 8
/// ```
#[inline(never)]
pub fn format_script_target(value: &str, target: &mut Target<'_, 16>, ticks: &mut Ticks) -> usize
    requires has_room { bound script (length value.now) ≤ length (bytes_of target.old) }
    ensures { IsFormatted script value.now
        target.old target.new result ticks.old ticks.new }
{
    whole::format::<Simd128u, { SCRIPT_MODE }, 16>(value, target, ticks)
}

/// As [`format_script_target`], with the target made over `dst`.
///
/// ```rust
/// let mut dst = [0; 41];
/// let len = sse2::format_script_string("<", &mut dst); // 8
/// ```
pub fn format_script_string(value: &str, dst: &mut [u8]) -> usize
    requires has_room { bound script (length value.now) ≤ length dst.old }
    ensures written { IsWritten 16 script value.now dst.old dst.new result }
    ensures headline { IsOnlyOutput script (take result dst.new) (chars value.now) }
    ensures equal_texts { IsOfOneText script value.now (take result dst.new) }
{
    whole::format_string::<Simd128u, { SCRIPT_MODE }, 16>(value, dst)
}
