//! Which of 16 bytes are flagged in script, on all lanes of a word at once.
ghost use Rattle.std.specs.Prelude.{◌≡◌, ◌+◌, map};
ghost use Rattle.escape_lanes.specs.Lanes.{flagged_lanes};
ghost use Rattle.escape_lanes.specs.Mode.{script};
ghost use Rattle.escape_lanes.specs.Replacement.{needs_escape};
ghost use Rattle.escape_lanes.specs.Words.{lanes_of_word};

use crate::simd::target::Ticks;
use crate::simd::traits::{BitMask, Simd};
use crate::simd::v128::{Simd128u, lane_bits, sums};

/// Returns the flags of script, in one word.
///
/// Each sum takes the low seven bits: those of the wanted bytes are flipped to the greatest numbers
/// below 0x80. Of the bytes that are not ASCII, e2 alone is wanted.
#[inline(always)]
fn script_needs(lanes: u64) -> u64
    ensures { flagged_lanes (lanes_of_word result) ≡ map (needs_escape script) (lanes_of_word lanes) }
{
    let control_quote_or_ampersand = sums(lanes, 0x7b, 0x7d, 0x21);
    let angle = sums(lanes, 0x7d, 0x43, 0x01);
    let backslash = sums(lanes, 0x7f, 0x23, 0x01);
    let separator = sums(lanes, 0x7f, 0x1d, 0x01);
    let ascii = control_quote_or_ampersand | angle | backslash;
    ascii ^ ((ascii ^ separator) & lanes)
}

/// Returns which lanes of `v` are flagged in script: their bytes need an escape, or are e2. It ticks once.
///
/// Where `v` begins with the bytes of `a<b`, lane 1 is set.
#[inline(always)]
pub fn script_mask(v: &Simd128u, ticks: &mut Ticks) -> u16
    ensures lanes { ⟦<u16 as BitMask>⟧.bits result
        ≡ map (needs_escape script) (⟦<Simd128u as Simd>⟧.lanes v.now) }
    ensures tick { ticks.new ≡ ticks.old + 1 }
{
    ticks.tick();
    lane_bits(script_needs(v.low), script_needs(v.high))
}
