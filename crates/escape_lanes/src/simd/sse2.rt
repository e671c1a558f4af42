//! 16 bytes in a vector of `std::simd`. HTML is classified by three compares.
ghost use Rattle.std.specs.Prelude.{◌≡◌, ◌+◌, map, refl};
ghost use Rattle.std.proofs.Common.{lit≤};
ghost use Rattle.escape_lanes.specs.Lanes.{AreBytes, flagged_lanes};
ghost use Rattle.escape_lanes.specs.Mode.{html, script, mode_of};
ghost use Rattle.escape_lanes.specs.Replacement.{needs_escape};

use crate::simd::classifier::Classifier;
use crate::simd::lane_mask::LaneMask;
use crate::simd::mode::{is_quoted, is_script};
use crate::simd::needs;
use crate::simd::target::Ticks;
use crate::simd::traits::{BitMask, Simd};
use crate::simd::vector::Vector;
use std::simd::prelude::*;

/// A vector of 16 bytes.
pub type Simd128u = Vector<1, 16>;

/// A truth value for each lane of a [`Simd128u`].
pub type Mask128 = LaneMask<1, 16>;

impl<const MODE: u8> Classifier<MODE, 16> for Simd128u {
    ghost lane_count = { refl };

    ghost sixteens = { refl };

    ghost several = { lit≤ tt };

    ghost most = { lit≤ tt };

    #[inline]
    fn escape_bits(&self, ticks: &mut Ticks) -> u64 {
        if is_script::<MODE>() {
            script_mask(self, ticks) as u64
        } else if is_quoted::<MODE>() {
            escaped_mask::<false>(self, ticks) as u64
        } else {
            escaped_mask::<true>(self, ticks) as u64
        }
    }
}

/// Returns flags where HTML needs an escape.
///
/// The six bytes are three pairs, each of two bytes that differ in one bit.
#[inline(always)]
fn html_needs(v: &u8x16) -> u8x16
    requires { AreBytes 16 v.now }
    ensures bytes { AreBytes 16 result }
    ensures lanes { flagged_lanes result ≡ map (needs_escape html) v.now }
{
    let quote_or_ampersand = needs::is_without(v, 0x04, b'"');
    let apostrophe_or_slash = needs::is_without(v, 0x08, b'\'');
    let angle = needs::is_without(v, 0x02, b'<');
    quote_or_ampersand | apostrophe_or_slash | angle
}

/// Returns which lanes of `v` have bytes that need an escape: in HTML if `HTML`, else in JSON. It
/// ticks once.
///
/// Where `v` begins with the bytes of `a<b`, lane 1 is set in HTML, and none of these in JSON.
#[inline(always)]
pub fn escaped_mask<const HTML: bool>(v: &Simd128u, ticks: &mut Ticks) -> u16
    ensures lanes { ⟦<u16 as BitMask>⟧.bits result
        ≡ map (needs_escape (mode_of HTML)) (⟦<Simd128u as Simd>⟧.lanes v.now) }
    ensures tick { ticks.new ≡ ticks.old + 1 }
{
    ticks.tick();
    let lanes = v.lanes();
    let flags = if HTML {
        html_needs(&lanes)
    } else {
        needs::json_needs(&lanes)
    };
    needs::flag_bits(&flags) as u16
}

/// Returns which lanes of `v` are flagged in script: their bytes need an escape, or are e2. It ticks once.
///
/// Where `v` begins with the bytes of `a<b`, lane 1 is set.
#[inline(always)]
pub fn script_mask(v: &Simd128u, ticks: &mut Ticks) -> u16
    ensures lanes { ⟦<u16 as BitMask>⟧.bits result
        ≡ map (needs_escape script) (⟦<Simd128u as Simd>⟧.lanes v.now) }
    ensures tick { ticks.new ≡ ticks.old + 1 }
{
    ticks.tick();
    needs::flag_bits(&needs::script_needs(&v.lanes())) as u16
}
