//! 64 bytes in a vector of `std::simd`, with one bit a lane in the mask. HTML is classified by one
//! table of candidates.
ghost use Rattle.std.specs.Prelude.{◌≡◌, ◌+◌, map, refl};
ghost use Rattle.std.proofs.Common.{lit≤};
ghost use Rattle.escape_lanes.specs.Mode.{script, mode_of};
ghost use Rattle.escape_lanes.specs.Replacement.{needs_escape};

use crate::simd::classifier::Classifier;
use crate::simd::lane_mask::LaneMask;
use crate::simd::mode::{is_quoted, is_script};
use crate::simd::needs;
use crate::simd::target::Ticks;
use crate::simd::traits::{BitMask, Simd};
use crate::simd::vector::Vector;

/// A vector of 64 bytes.
pub type Simd512u = Vector<1, 64>;

/// A truth value for each lane of a [`Simd512u`].
pub type Mask512 = LaneMask<1, 64>;

impl<const MODE: u8> Classifier<MODE, 64> for Simd512u {
    ghost lane_count = { refl };

    ghost sixteens = { refl };

    ghost several = { lit≤ tt };

    ghost most = { lit≤ tt };

    #[inline]
    fn escape_bits(&self, ticks: &mut Ticks) -> u64 {
        if is_script::<MODE>() {
            script_mask(self, ticks)
        } else if is_quoted::<MODE>() {
            escaped_mask::<false>(self, ticks)
        } else {
            escaped_mask::<true>(self, ticks)
        }
    }
}

/// Returns which lanes of `v` have bytes that need an escape: in HTML if `HTML`, else in JSON. It
/// ticks once.
///
/// Where `v` begins with the bytes of `a<b`, lane 1 is set in HTML, and none of these in JSON.
#[inline(always)]
pub fn escaped_mask<const HTML: bool>(v: &Simd512u, ticks: &mut Ticks) -> u64
    ensures lanes { ⟦<u64 as BitMask>⟧.bits result
        ≡ map (needs_escape (mode_of HTML)) (⟦<Simd512u as Simd>⟧.lanes v.now) }
    ensures tick { ticks.new ≡ ticks.old + 1 }
{
    ticks.tick();
    let lanes = v.lanes();
    let flags = if HTML {
        needs::html_needs_by_candidates(&lanes)
    } else {
        needs::json_needs(&lanes)
    };
    needs::flag_bits(&flags)
}

/// Returns which lanes of `v` are flagged in script: their bytes need an escape, or are e2. It ticks once.
///
/// Where `v` begins with the bytes of `a<b`, lane 1 is set.
#[inline(always)]
pub fn script_mask(v: &Simd512u, ticks: &mut Ticks) -> u64
    ensures lanes { ⟦<u64 as BitMask>⟧.bits result
        ≡ map (needs_escape script) (⟦<Simd512u as Simd>⟧.lanes v.now) }
    ensures tick { ticks.new ≡ ticks.old + 1 }
{
    ticks.tick();
    needs::flag_bits(&needs::script_needs(&v.lanes()))
}
