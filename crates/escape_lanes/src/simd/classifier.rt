//! What the body asks of its vector.
ghost use Rattle.std.specs.Prelude.{◌≡◌, ◌+◌, ◌-◌, ◌*◌, ◌/◌, ◌≤◌, ◌++◌, false, map, replicate};
ghost use Rattle.escape_lanes.specs.Bits.{bits_of};
ghost use Rattle.escape_lanes.specs.Mode.{mode_numbered};
ghost use Rattle.escape_lanes.specs.Replacement.{needs_escape};

use crate::simd::ticks::Ticks;
use crate::simd::traits::LoadStore;

/// A vector of `N` bytes, with its classifier in the mode numbered `MODE`: its own `escaped_mask` or
/// `script_mask`, whose bit mask becomes a number.
pub trait Classifier<const MODE: u8, const N: usize>: LoadStore {
    /// Returns which lanes have bytes that need an escape (script: also e2): bit `i` is set where lane `i`
    /// does. Ticks once.
    fn escape_bits(&self, ticks: &mut Ticks) -> u64
        ensures lanes { bits_of 64 result
            ≡ map (needs_escape (mode_numbered MODE)) (Self.lanes self.now) ++ replicate (64 - N) false }
        ensures tick { ticks.new ≡ ticks.old + 1 };

    // There are `N` lanes.
    ghost lane_count: { Self.LANES ≡ N };

    // Whole blocks of 16, at least one, and so few that two vectors fit in an array.
    ghost sixteens: { N ≡ 16 * (N / 16) };

    ghost several: { 16 ≤ N };

    ghost most: { N ≤ 64 };
}
