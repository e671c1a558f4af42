//! 16 bytes in a vector of `std::simd`, with [`NeonBits`] as the bit mask. HTML is classified
//! by nibble tables.
ghost use Rattle.std.specs.Prelude.{◌≡◌, ◌+◌, map, refl};
ghost use Rattle.std.proofs.Common.{lit≤};
ghost use Rattle.escape_lanes.specs.Mode.{script, mode_of};
ghost use Rattle.escape_lanes.specs.Replacement.{needs_escape};

use crate::simd::bits::NeonBits;
use crate::simd::classifier::Classifier;
use crate::simd::lane_mask::LaneMask;
use crate::simd::mask::Mask;
use crate::simd::mode::{is_quoted, is_script};
use crate::simd::needs;
use crate::simd::target::Ticks;
use crate::simd::traits::{BitMask, Simd};
use crate::simd::vector::Vector;

/// A vector of 16 bytes.
pub type Simd128u = Vector<4, 16>;

/// A truth value for each lane of a [`Simd128u`].
pub type Mask128 = LaneMask<4, 16>;

impl<const MODE: u8> Classifier<MODE, 16> for Simd128u {
    ghost lane_count = { refl };

    ghost sixteens = { refl };

    ghost several = { lit≤ tt };

    ghost most = { lit≤ tt };

    #[inline]
    fn escape_bits(&self, ticks: &mut Ticks) -> u64 {
        if is_script::<MODE>() {
            script_mask(self, ticks).lane_bits() as u64
        } else if is_quoted::<MODE>() {
            escaped_mask::<false>(self, ticks).lane_bits() as u64
        } else {
            escaped_mask::<true>(self, ticks).lane_bits() as u64
        }
    }
}

/// Returns which lanes of `v` have bytes that need an escape: in HTML if `HTML`, else in JSON. It
/// ticks once.
///
/// Where `v` begins with the bytes of `a<b`, lane 1 is set in HTML, and none of these in JSON.
#[inline(always)]
pub fn escaped_mask_vec<const HTML: bool>(v: &Simd128u, ticks: &mut Ticks) -> Mask128
    ensures lanes { ⟦<Mask128 as Mask>⟧.truths result
        ≡ map (needs_escape (mode_of HTML)) (⟦<Simd128u as Simd>⟧.lanes v.now) }
    ensures tick { ticks.new ≡ ticks.old + 1 }
{
    ticks.tick();
    let lanes = v.lanes();
    let flags = if HTML {
        needs::html_needs(&lanes)
    } else {
        needs::json_needs(&lanes)
    };
    LaneMask::new(needs::flag_bits(&flags))
}

/// Returns the bit mask of [`escaped_mask_vec`], which is called once, so it ticks once.
#[inline(always)]
pub fn escaped_mask<const HTML: bool>(v: &Simd128u, ticks: &mut Ticks) -> NeonBits
    ensures lanes { ⟦<NeonBits as BitMask>⟧.bits result
        ≡ map (needs_escape (mode_of HTML)) (⟦<Simd128u as Simd>⟧.lanes v.now) }
    ensures tick { ticks.new ≡ ticks.old + 1 }
{
    escaped_mask_vec::<HTML>(v, ticks).bitmask()
}

/// Returns which lanes of `v` are flagged in script: their bytes need an escape, or are e2. It ticks once.
///
/// Where `v` begins with the bytes of `a<b`, lane 1 is set.
#[inline(always)]
pub fn script_mask(v: &Simd128u, ticks: &mut Ticks) -> NeonBits
    ensures lanes { ⟦<NeonBits as BitMask>⟧.bits result
        ≡ map (needs_escape script) (⟦<Simd128u as Simd>⟧.lanes v.now) }
    ensures tick { ticks.new ≡ ticks.old + 1 }
{
    ticks.tick();
    NeonBits::of(needs::flag_bits(&needs::script_needs(&v.lanes())) as u16)
}
