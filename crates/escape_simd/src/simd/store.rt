//! Vectors of a text, stored as they are.
ghost use Rattle.std.specs.Prelude.{◌≡◌, ◌+◌, ◌≤◌, length, take, drop};
ghost use Rattle.escape_lanes.specs.Masks.{told_by, used_up};
ghost use Rattle.escape_lanes.specs.Written.{bytes_of};
ghost use Rattle.escape_simd.specs.Stretch.{IsStored, reach};

use escape_lanes::simd::escape_mask::EscapeMask;
use escape_lanes::simd::target::Target;
use escape_lanes::simd::traits::LoadStore;

/// How far past an output the store of a whole vector may reach: kernels of more lanes store a text's last bytes
/// exactly.
const WIDEST_REACH: usize = 32;

/// Stores a vector at `to`, and uses up the mask, which tells of its first `left` lanes. Returns the place
/// after these.
///
/// Where `LAST`, they may be a text's last bytes, and the store reaches at most 32 bytes past them.
#[inline]
pub(crate) fn store_lanes<V: LoadStore, const MODE: u8, const N: usize, const LAST: bool>(
    v: V,
    left: usize,
    mask: &mut EscapeMask<MODE>,
    target: &mut Target<'_, N>,
    to: usize,
) -> usize
    requires { (V.LANES ≡ N)
        × (left ≤ N)
        × (told_by mask.old ≡ take left (V.lanes v))
        × (to + left + reach LAST N ≤ length (bytes_of target.old))
        × (mask.old.stored ≡ 0) }
    ensures stored { IsStored (reach LAST N) (V.lanes v) target.old target.new left to }
    ensures place { result ≡ to + left }
    ensures used { mask.new ≡ used_up mask.old }
{
    mask.count_store();
    if LAST && WIDEST_REACH < N {
        target.store_front(to, &v, left);
    } else {
        target.store(to, &v);
    }
    to + left
}

/// Loads the text's vector at `at`.
#[inline(always)]
pub(crate) fn load_vector<V: LoadStore>(src: &[u8], at: usize) -> V
    requires { at + V.LANES ≤ length src.now }
    ensures { V.lanes result ≡ take V.LANES (drop at src.now) }
{
    V::load(&src[at..])
}

/// Stores the text's vector at `from`, as [`store_lanes`] does. Returns the places after its `left` bytes.
#[inline(always)]
pub(crate) fn store_vector<V: LoadStore, const MODE: u8, const N: usize, const LAST: bool>(
    src: &[u8],
    from: usize,
    left: usize,
    mask: &mut EscapeMask<MODE>,
    target: &mut Target<'_, N>,
    to: usize,
) -> (usize, usize)
    requires { (V.LANES ≡ N)
        × (left ≤ N)
        × (from + N ≤ length src.now)
        × (told_by mask.old ≡ take left (drop from src.now))
        × (to + left + reach LAST N ≤ length (bytes_of target.old))
        × (mask.old.stored ≡ 0) }
    ensures stored { IsStored (reach LAST N) (drop from src.now) target.old target.new left to }
    ensures places { (result.0 ≡ from + left) × (result.1 ≡ to + left) }
    ensures used { mask.new ≡ used_up mask.old }
{
    let v: V = load_vector(src, from);
    let end = store_lanes::<V, MODE, N, LAST>(v, left, mask, target, to);
    (from + left, end)
}
