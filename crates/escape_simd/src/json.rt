//! JSON string literals (RFC 8259, section 7), and literals that are safe inside a script element.
ghost use Rattle.std.specs.Prelude.{◌≡◌, ◌+◌, ◌*◌, ◌<◌, ◌≤◌, ◌^◌, ◌↔◌, ◌++◌, length, string_bytes, vec_len, vec_capacity, Err, IsOk, IsOkUnless, IfOk, OnOk, OnErr};
ghost use Rattle.escape_lanes.specs.Mode.{json, script};
ghost use Rattle.escape_simd.specs.Output.{plain, bound};
ghost use Rattle.escape_simd.specs.Escaping.{IsEscaping};
ghost use Rattle.escape_simd.specs.Laws.{appended};
ghost use Rattle.escape_simd.specs.Script.{IsSafeInScript};

mod error;
mod length;

use crate::output::{append, output_in, scratch_bound};
use crate::simd::{JSON_MODE, SCRIPT_MODE};
pub use error::EscapeError;
pub use length::{escaped_len, is_clean, is_script_clean, script_len};
use std::alloc::{Allocator, Global};

/// The largest number of output bytes for one byte of text in a JSON or script literal: 6.
///
/// For a text of `n` bytes, the slice of [`format_json_string`](crate::format_json_string) needs
/// `CAPACITY_FACTOR * n + CAPACITY_SLACK` bytes. The two constants give the size of an array:
///
/// ```rust
/// const ROOM: usize = json::CAPACITY_FACTOR * 80 + json::CAPACITY_SLACK;
/// let mut dst = [0; ROOM];
/// ```
pub const CAPACITY_FACTOR: usize = 6;

/// The bytes that such a slice needs in addition: 35. See [`CAPACITY_FACTOR`].
pub const CAPACITY_SLACK: usize = 35;

/// Returns the size in bytes that a slice must have for the JSON or script literal of a text of `len` bytes:
/// `6 * len + 35`.
///
/// # Errors
///
/// [`EscapeError::TooLarge`] if `6 * len + 35` exceeds `usize::MAX`.
///
/// ```rust
/// let capacity = json_capacity(10)?; // 95
/// ```
pub fn json_capacity(len: usize) -> Result<usize, EscapeError>
    ensures exact { IfOk result (λ capacity. capacity ≡ bound json len) }
    ensures by_name { bound json len ≡ CAPACITY_FACTOR * len + CAPACITY_SLACK }
    ensures too_large { (result ≡ Err EscapeError.TooLarge) ↔ (usize.MAX < bound json len) }
    ensures refusal { IsOkUnless result EscapeError.TooLarge }
{
    scratch_bound::<{ JSON_MODE }>(len).ok_or(EscapeError::TooLarge)
}

/// Returns the JSON string literal of a text, with its quotation marks (RFC 8259, section 7).
///
/// Only `"`, `\` and the characters below U+0020 are escaped, each in the shortest way and with lower-case hex
/// digits. Any other literal of the text is longer, or has an upper-case hex digit. For a text of `n` bytes the
/// literal has `n + 2` to `6 * n + 2` bytes. The call makes one allocation, of `6 * n + 35` bytes.
///
/// # Errors
///
/// - [`EscapeError::TooLarge`]: `6 * n + 35` exceeds `usize::MAX`.
/// - [`EscapeError::OutOfMemory`]: the allocator refused the memory, or the size exceeds `isize::MAX`.
///
/// ```rust
/// let literal = escape(rt.alloc(), "a\"\n")?; // "a\"\n"
/// ```
pub fn escape(alloc: Global, value: &str) -> Result<String, EscapeError>
    ensures output { IfOk result (λ output. IsEscaping json value.now (string_bytes output)) }
    ensures vector_size { OnOk result (bound json (length value.now) < 2 ^ 63) }
    ensures too_large { (result ≡ Err EscapeError.TooLarge)
        ↔ (usize.MAX < bound json (length value.now)) }
{
    escape_in(alloc, value)
}

/// Returns what [`escape`] returns, in memory of `alloc`: an arena or a pool, for example. The call makes one
/// allocation, of `6 * n + 35` bytes for a text of `n` bytes, and only from `alloc`.
///
/// # Errors
///
/// Those of [`escape`].
///
/// ```rust
/// let literal = escape_in(&arena, "x")?; // "x"
/// ```
pub fn escape_in<A: Allocator>(alloc: A, value: &str) -> Result<String<A>, EscapeError>
    ensures output { IfOk result (λ output. IsEscaping json value.now (string_bytes output)) }
    ensures vector_size { OnOk result (bound json (length value.now) < 2 ^ 63) }
    ensures too_large { (result ≡ Err EscapeError.TooLarge)
        ↔ (usize.MAX < bound json (length value.now)) }
{
    Ok(output_in::<{ JSON_MODE }, A>(alloc, value)?)
}

/// Appends to `dst` the literal that [`escape`] returns. The bytes that `dst` has are kept, and may be any bytes.
///
/// If `dst` has room for less than `6 * n + 35` more bytes, for a text of `n` bytes, the call reserves them from the
/// allocator of `dst`. Else it allocates nothing.
///
/// # Errors
///
/// Those of [`escape`]. `dst` is then unchanged.
///
/// ```rust
/// let mut line = Vec::new(rt.alloc());
/// escape_into("a\tb", &mut line)?; // "a\tb"
/// ```
pub fn escape_into<A: Allocator>(value: &str, dst: &mut Vec<u8, A>) -> Result<(), EscapeError>
    ensures exact { OnOk result (dst.new.items ≡ dst.old.items ++ plain json value.now) }
    ensures output { OnOk result (IsEscaping json value.now
        (appended dst.old.items dst.new.items)) }
    ensures unchanged { OnErr result (dst.new.items ≡ dst.old.items) }
    ensures vector_size { OnOk result (vec_len dst.old + bound json (length value.now) < 2 ^ 63) }
    ensures too_large { (result ≡ Err EscapeError.TooLarge)
        ↔ (usize.MAX < bound json (length value.now)) }
    ensures has_room { vec_len dst.old + bound json (length value.now)
        ≤ vec_capacity dst.old → IsOk result }
{
    Ok(append::<{ JSON_MODE }, A>(value, dst)?)
}

/// Returns a JSON string literal of a text that is safe inside a script element of an HTML page, with its quotation
/// marks.
///
/// As [`escape`], and the characters `<`, `>`, `&`, U+2028 and U+2029 are written as hex escapes. So the literal has
/// no `</script`, which would end the element, and no `<!--`, which would begin a comment. JavaScript of every
/// version reads it as the same string. Any other literal of the text without these characters is longer, or has an
/// upper-case hex digit. Sizes and memory are those of [`escape`].
///
/// # Errors
///
/// Those of [`escape`].
///
/// ```rust
/// let literal = escape_script(rt.alloc(), "</script>")?; // "\u003c/script\u003e"
/// ```
pub fn escape_script(alloc: Global, value: &str) -> Result<String, EscapeError>
    ensures output { IfOk result (λ output. IsEscaping script value.now (string_bytes output)) }
    ensures safe { IfOk result (λ output. IsSafeInScript (string_bytes output)) }
    ensures vector_size { OnOk result (bound script (length value.now) < 2 ^ 63) }
    ensures too_large { (result ≡ Err EscapeError.TooLarge)
        ↔ (usize.MAX < bound script (length value.now)) }
{
    escape_script_in(alloc, value)
}

/// Returns what [`escape_script`] returns, in memory of `alloc`: an arena or a pool, for example. The call makes one
/// allocation, of `6 * n + 35` bytes for a text of `n` bytes, and only from `alloc`.
///
/// # Errors
///
/// Those of [`escape_script`].
///
/// ```rust
/// let literal = escape_script_in(&arena, "a<b")?; // "a\u003cb"
/// ```
pub fn escape_script_in<A: Allocator>(alloc: A, value: &str) -> Result<String<A>, EscapeError>
    ensures output { IfOk result (λ output. IsEscaping script value.now (string_bytes output)) }
    ensures safe { IfOk result (λ output. IsSafeInScript (string_bytes output)) }
    ensures vector_size { OnOk result (bound script (length value.now) < 2 ^ 63) }
    ensures too_large { (result ≡ Err EscapeError.TooLarge)
        ↔ (usize.MAX < bound script (length value.now)) }
{
    Ok(output_in::<{ SCRIPT_MODE }, A>(alloc, value)?)
}

/// Appends to `dst` the literal that [`escape_script`] returns. The bytes that `dst` has are kept, and may be any
/// bytes.
///
/// If `dst` has room for less than `6 * n + 35` more bytes, for a text of `n` bytes, the call reserves them from the
/// allocator of `dst`. Else it allocates nothing.
///
/// # Errors
///
/// Those of [`escape_script`]. `dst` is then unchanged.
///
/// ```rust
/// page.extend_from_slice(b"<script>const user = ")?;
/// escape_script_into("Ann </script>", &mut page)?; // "Ann \u003c/script\u003e"
/// page.extend_from_slice(b";</script>")?;
/// ```
pub fn escape_script_into<A: Allocator>(
    value: &str,
    dst: &mut Vec<u8, A>,
) -> Result<(), EscapeError>
    ensures exact { OnOk result (dst.new.items ≡ dst.old.items ++ plain script value.now) }
    ensures output { OnOk result (IsEscaping script value.now
        (appended dst.old.items dst.new.items)) }
    ensures safe { OnOk result (IsSafeInScript (appended dst.old.items dst.new.items)) }
    ensures unchanged { OnErr result (dst.new.items ≡ dst.old.items) }
    ensures vector_size { OnOk result (vec_len dst.old + bound script (length value.now) < 2 ^ 63) }
    ensures too_large { (result ≡ Err EscapeError.TooLarge)
        ↔ (usize.MAX < bound script (length value.now)) }
    ensures has_room { vec_len dst.old + bound script (length value.now)
        ≤ vec_capacity dst.old → IsOk result }
{
    Ok(append::<{ SCRIPT_MODE }, A>(value, dst)?)
}
