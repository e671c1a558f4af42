//! The output of a text in a `String` of the output's own length.
ghost use Rattle.std.specs.Prelude.{◌≤◌, ◌≡◌, ◌<◌, ◌↔◌, length, string_bytes, Err, IfOk};
ghost use Rattle.escape_simd.specs.Modes.{mode_numbered};
ghost use Rattle.escape_simd.specs.Output.{plain};

use crate::exact::write_exact;
use escape_simd::Refusal;
use escape_simd::output::escaped_len;
use std::alloc::Allocator;

/// Returns the output of the text. The call makes one allocation, of the output's length.
pub(crate) fn compact_text<const MODE: u8, A: Allocator>(
    alloc: A,
    value: &str,
) -> Result<String<A>, Refusal>
    requires mode { MODE ≤ 2 }
    ensures exact { IfOk result (λ output. string_bytes output ≡ plain (mode_numbered MODE) value.now) }
    ensures too_large { (result ≡ Err Refusal.TooLarge)
        ↔ (usize.MAX < length (plain (mode_numbered MODE) value.now)) }
{
    let len = escaped_len::<MODE>(value).ok_or(Refusal::TooLarge)?;
    let mut bytes = vec![in alloc; 0; len]?;
    write_exact::<MODE>(value, &mut bytes);
    // The output for a text is a text.
    Ok(unsafe { String::from_utf8_unchecked(bytes) })
}
