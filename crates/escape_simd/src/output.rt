//! The calls on which further calls are built. Each has the number of the mode as its constant parameter `MODE`:
//! [`JSON_MODE`](crate::simd::JSON_MODE), [`HTML_MODE`](crate::simd::HTML_MODE) or
//! [`SCRIPT_MODE`](crate::simd::SCRIPT_MODE). No other number is accepted.
ghost use Rattle.std.specs.Prelude.{◌≡◌, ◌+◌, ◌*◌, ◌<◌, ◌≤◌, ◌^◌, ◌↔◌, ◌++◌, length, take, string_bytes, vec_len, vec_capacity, Err, IsOk, IfOk, OnOk, OnErr, IfSome, IsNone};
ghost use Rattle.escape_simd.specs.Modes.{mode_numbered};
ghost use Rattle.escape_simd.specs.Output.{plain, inner, bound};

mod bytes;
mod clean;
mod error;
mod in_place;
mod length;
mod push;

pub use crate::mode::quote;
use crate::simd::avx2::Simd256u;
use crate::simd::escape_to_slice;
use crate::{html, json};
use bytes::{append_last, append_long};
pub use clean::is_clean;
pub use error::Refusal;
use escape_lanes::simd::mode::is_quoted;
pub use length::escaped_len;
use push::push_quote;
use std::alloc::Allocator;

/// The vector of these calls, and how many bytes it has.
type V = Simd256u;

const N: usize = 32;

/// Returns the bound for a text of `len` bytes, the size in bytes that a slice must have for the output:
/// `6 * len + 35`, in HTML `6 * len + 32`. Returns `None` if that exceeds `usize::MAX`.
///
/// ```rust
/// let bound = scratch_bound::<{ HTML_MODE }>(10); // Some(92)
/// ```
pub fn scratch_bound<const MODE: u8>(len: usize) -> Option<usize>
    requires mode { MODE ≤ 2 }
    ensures fits { IfSome result (λ n. n ≡ bound (mode_numbered MODE) len) }
    ensures passes { IsNone result ↔ (usize.MAX < bound (mode_numbered MODE) len) }
{
    let (factor, slack) = if is_quoted::<MODE>() {
        (json::CAPACITY_FACTOR, json::CAPACITY_SLACK)
    } else {
        (html::CAPACITY_FACTOR, html::CAPACITY_SLACK)
    };
    len.checked_mul(factor)?.checked_add(slack)
}

/// Writes the output of a text in the mode `MODE`, without its quotation marks, to `dst` from the index `at` on.
/// Returns the index after it. The call allocates nothing and does not fail.
///
/// For a text of `n` bytes, `dst` must have at least `6 * n + 32` bytes from `at` on. Its bytes before `at` are
/// unchanged. Those from the returned index on may have changed.
///
/// ```rust
/// let end = write_inner::<{ HTML_MODE }>("<", &mut dst, 0); // 4
/// ```
#[inline(always)]
pub fn write_inner<const MODE: u8>(value: &str, dst: &mut [u8], at: usize) -> usize
    requires mode { MODE ≤ 2 }
    requires has_room { at + 6 * length value.now + 32 ≤ length dst.old }
    ensures end { result ≡ at + length (inner (mode_numbered MODE) value.now) }
    ensures written { take result dst.new
        ≡ take at dst.old ++ inner (mode_numbered MODE) value.now }
{
    escape_to_slice::<V, MODE, false, N>(value.as_bytes(), dst, at)
}

/// Appends the output of a text in the mode `MODE` to a `Vec` that has room for the bound ([`scratch_bound`]) past the
/// bytes that it has. The call allocates nothing and does not fail.
///
/// ```rust
/// append_reserved::<{ HTML_MODE }, _>("<", &mut page); // &lt;
/// ```
pub fn append_reserved<const MODE: u8, A: Allocator>(value: &str, dst: &mut Vec<u8, A>)
    requires mode { MODE ≤ 2 }
    requires room { vec_len dst.old + bound (mode_numbered MODE) (length value.now)
        ≤ vec_capacity dst.old }
    ensures { dst.new.items ≡ dst.old.items ++ plain (mode_numbered MODE) value.now }
{
    push_quote::<MODE, A>(dst);
    let text = value.as_bytes();
    // The empty text goes this way too: so the compiler drops the test for it from the short way.
    if text.is_empty() || 2 * N <= text.len() {
        return append_long::<MODE, A>(value, dst);
    }
    append_last::<MODE, A>(text, dst);
}

/// Appends the output of a text in the mode `MODE` to `dst`. The bytes that `dst` has are kept, and may be any bytes.
///
/// If `dst` has room for fewer bytes than the bound ([`scratch_bound`]) past those that it has, the call reserves
/// them from the allocator of `dst`. Else it allocates nothing.
///
/// # Errors
///
/// - [`Refusal::TooLarge`]: the bound exceeds `usize::MAX`.
/// - [`Refusal::OutOfMemory`]: the allocator refused the memory, or `dst` would have to hold more than `isize::MAX` bytes.
///
/// `dst` is unchanged after each.
///
/// ```rust
/// append::<{ HTML_MODE }, _>("<", &mut page)?; // &lt;
/// ```
pub fn append<const MODE: u8, A: Allocator>(
    value: &str,
    dst: &mut Vec<u8, A>,
) -> Result<(), Refusal>
    requires mode { MODE ≤ 2 }
    ensures exact { OnOk result (dst.new.items ≡ dst.old.items ++ plain (mode_numbered MODE) value.now) }
    ensures unchanged { OnErr result (dst.new.items ≡ dst.old.items) }
    ensures too_large { (result ≡ Err Refusal.TooLarge)
        ↔ (usize.MAX < bound (mode_numbered MODE) (length value.now)) }
    ensures fits { OnOk result (bound (mode_numbered MODE) (length value.now) ≤ usize.MAX) }
    ensures vector_size { OnOk result
        (vec_len dst.old + bound (mode_numbered MODE) (length value.now) < 2 ^ 63) }
    ensures has_room { vec_len dst.old + bound (mode_numbered MODE) (length value.now)
        ≤ vec_capacity dst.old → IsOk result }
{
    let scratch = scratch_bound::<MODE>(value.len()).ok_or(Refusal::TooLarge)?;
    dst.reserve(scratch)?;
    append_reserved::<MODE, A>(value, dst);
    Ok(())
}

/// Returns the output of a text in the mode `MODE`, in memory of `alloc`.
pub(crate) fn output_in<const MODE: u8, A: Allocator>(
    alloc: A,
    value: &str,
) -> Result<String<A>, Refusal>
    requires mode { MODE ≤ 2 }
    ensures exact { IfOk result (λ output. string_bytes output ≡ plain (mode_numbered MODE) value.now) }
    ensures vector_size { OnOk result (bound (mode_numbered MODE) (length value.now) < 2 ^ 63) }
    ensures too_large { (result ≡ Err Refusal.TooLarge)
        ↔ (usize.MAX < bound (mode_numbered MODE) (length value.now)) }
{
    let capacity = scratch_bound::<MODE>(value.len()).ok_or(Refusal::TooLarge)?;
    let mut bytes = Vec::with_capacity(alloc, capacity)?;
    append_reserved::<MODE, A>(value, &mut bytes);
    // The output for a text is a text.
    Ok(unsafe { String::from_utf8_unchecked(bytes) })
}
