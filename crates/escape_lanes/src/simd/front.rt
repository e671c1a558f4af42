//! The copy of a vector's lanes by pieces of a few fixed sizes: a copy of a number of bytes that is
//! known only at run time is a call.
ghost use Rattle.std.specs.Prelude.{◌≡◌, ◌*◌, ◌+◌, ◌<◌, ◌≤◌, length, take, drop};

/// Returns the `P` lanes from `at` on as an array, which can't overlap the target: so no test comes before the
/// move.
#[inline(always)]
fn piece<const P: usize>(lanes: &[u8], at: usize) -> [u8; P]
    requires { at + P ≤ length lanes.now }
    ensures { result ≡ take P (drop at lanes.now) }
{
    let mut piece = [0u8; P];
    piece.copy_from_slice(&lanes[at..at + P]);
    piece
}

/// Copies all lanes as two pieces of `P`, one from each end. They may overlap.
#[inline(always)]
fn copy_ends<const P: usize>(dst: &mut [u8], lanes: &[u8])
    requires same { length lanes.now ≡ length dst.old }
    requires several { P ≤ length lanes.now }
    requires few { length lanes.now ≤ 2 * P }
    ensures { dst.new ≡ lanes.now }
{
    let last = lanes.len() - P;
    let (front, end) = (piece::<P>(lanes, 0), piece::<P>(lanes, last));
    dst[..P].copy_from_slice(&front);
    dst[last..].copy_from_slice(&end);
}

/// Copies all lanes, three at most, as the first, the middle and the last one.
#[inline(always)]
fn copy_up_to_three(dst: &mut [u8], lanes: &[u8])
    requires same { length lanes.now ≡ length dst.old }
    requires few { length lanes.now < 4 }
    ensures { dst.new ≡ lanes.now }
{
    if lanes.len() == 0 {
        return;
    }
    let middle = lanes.len() / 2;
    let last = lanes.len() - 1;
    dst[0] = lanes[0];
    dst[middle] = lanes[middle];
    dst[last] = lanes[last];
}

/// Copies all lanes, at most 64. Where their number is known when this is compiled, that is one move,
/// and two for 64.
#[inline]
pub(crate) fn copy_lanes(dst: &mut [u8], lanes: &[u8])
    requires same { length lanes.now ≡ length dst.old }
    requires few { length lanes.now ≤ 64 }
    ensures { dst.new ≡ lanes.now }
{
    let count = lanes.len();
    if 32 <= count {
        copy_ends::<32>(dst, lanes);
    } else if 16 <= count {
        copy_ends::<16>(dst, lanes);
    } else if 8 <= count {
        copy_ends::<8>(dst, lanes);
    } else if 4 <= count {
        copy_ends::<4>(dst, lanes);
    } else {
        copy_up_to_three(dst, lanes);
    }
}
