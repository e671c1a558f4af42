//! The output of a text, at the end of a `String`.
ghost use Rattle.std.specs.Prelude.{◌≡◌, ◌+◌, ◌<◌, ◌≤◌, ◌↔◌, ◌++◌, length, string_bytes, string_len, string_capacity, Err, IsOk, OnOk, OnErr};
ghost use Rattle.escape_simd.specs.Modes.{mode_numbered};
ghost use Rattle.escape_simd.specs.Output.{plain, bound};

use core::mem::replace_with;
use escape_simd::output::{Refusal, append};
use std::alloc::Allocator;

/// Appends the output of a text in the mode `MODE` to `dst`.
pub(crate) fn append_text<const MODE: u8, A: Allocator>(
    value: &str,
    dst: &mut String<A>,
) -> Result<(), Refusal>
    requires mode { MODE ≤ 2 }
    ensures exact { OnOk result (string_bytes dst.new
        ≡ string_bytes dst.old ++ plain (mode_numbered MODE) value.now) }
    ensures unchanged { OnErr result (string_bytes dst.new ≡ string_bytes dst.old) }
    ensures too_large { (result ≡ Err Refusal.TooLarge)
        ↔ (usize.MAX < bound (mode_numbered MODE) (length value.now)) }
    ensures has_room { string_len dst.old + bound (mode_numbered MODE) (length value.now)
        ≤ string_capacity dst.old → IsOk result }
{
    replace_with(dst, value, appended::<MODE, A>)
}

/// Returns `dst` with the output appended, or as it was after an error.
fn appended<const MODE: u8, A: Allocator>(
    dst: String<A>,
    value: &str,
) -> (String<A>, Result<(), Refusal>)
    requires mode { MODE ≤ 2 }
    ensures exact { OnOk result.1 (string_bytes result.0
        ≡ string_bytes dst ++ plain (mode_numbered MODE) value.now) }
    ensures unchanged { OnErr result.1 (string_bytes result.0 ≡ string_bytes dst) }
    ensures too_large { (result.1 ≡ Err Refusal.TooLarge)
        ↔ (usize.MAX < bound (mode_numbered MODE) (length value.now)) }
    ensures has_room { string_len dst + bound (mode_numbered MODE) (length value.now)
        ≤ string_capacity dst → IsOk result.1 }
{
    let mut bytes = dst.into_bytes();
    let outcome = append::<MODE, A>(value, &mut bytes);
    // The output for a text is a text.
    (unsafe { String::from_utf8_unchecked(bytes) }, outcome)
}
