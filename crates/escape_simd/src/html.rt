//! HTML text in which six bytes are written as entities: `"`, `&`, `'`, `/`, `<` and `>`.
ghost use Rattle.std.specs.Prelude.{◌≡◌, ◌+◌, ◌*◌, ◌<◌, ◌≤◌, ◌^◌, ◌↔◌, ◌++◌, length, string_bytes, vec_len, vec_capacity, Err, IsOk, IsErr, IfOk, OnOk, OnErr};
ghost use Rattle.escape_lanes.specs.Mode.{html};
ghost use Rattle.escape_simd.specs.Output.{plain, bound};
ghost use Rattle.escape_simd.specs.Escaping.{IsEscaping};
ghost use Rattle.escape_simd.specs.Laws.{appended};

mod each;
mod error;
mod length;

use crate::output::{append, output_in, scratch_bound};
use crate::simd::HTML_MODE;
pub use each::escape_html_each;
pub use error::{EscapeHtmlError, InputTooLarge};
pub use length::{escaped_len, is_clean};
use std::alloc::{Allocator, Global};

/// The largest number of output bytes for one byte of text in HTML: 6.
///
/// For a text of `n` bytes, the slice of [`format_html_string`](crate::format_html_string) needs
/// `CAPACITY_FACTOR * n + CAPACITY_SLACK` bytes. The two constants give the size of an array:
///
/// ```rust
/// const ROOM: usize = html::CAPACITY_FACTOR * 80 + html::CAPACITY_SLACK;
/// let mut dst = [0; ROOM];
/// ```
pub const CAPACITY_FACTOR: usize = 6;

/// The bytes that such a slice needs in addition: 32. See [`CAPACITY_FACTOR`].
pub const CAPACITY_SLACK: usize = 32;

/// Returns the size in bytes that a slice must have for a text of `len` bytes as HTML: `6 * len + 32`.
///
/// # Errors
///
/// [`InputTooLarge`] if `6 * len + 32` exceeds `usize::MAX`.
///
/// ```rust
/// let capacity = html_capacity(10)?; // 92
/// ```
pub fn html_capacity(len: usize) -> Result<usize, InputTooLarge>
    ensures exact { IfOk result (λ capacity. capacity ≡ bound html len) }
    ensures by_name { bound html len ≡ CAPACITY_FACTOR * len + CAPACITY_SLACK }
    ensures too_large { IsErr result ↔ (usize.MAX < bound html len) }
{
    scratch_bound::<{ HTML_MODE }>(len).ok_or(InputTooLarge)
}

/// Returns the text as HTML: `"`, `&`, `'`, `/`, `<` and `>` are written as entities.
///
/// The output is safe between tags, and in an attribute value between quotation marks. It has none of `"`, `'`, `/`,
/// `<` and `>`, and each `&` in it begins an entity. Among outputs without these bytes that use only these six entities,
/// no other reads as the text. An `&` that begins an entity in the text is escaped too: `&amp;` becomes `&amp;amp;`.
/// For a text of `n` bytes the output has `n` to `6 * n` bytes. The call makes one allocation, of `6 * n + 32` bytes.
///
/// # Errors
///
/// - [`EscapeHtmlError::TooLarge`]: `6 * n + 32` exceeds `usize::MAX`.
/// - [`EscapeHtmlError::OutOfMemory`]: the allocator refused the memory, or the size exceeds `isize::MAX`.
///
/// ```rust
/// let text = escape_html(rt.alloc(), "<a href='/x'>")?; // &lt;a href=&#x27;&#x2f;x&#x27;&gt;
/// ```
pub fn escape_html(alloc: Global, value: &str) -> Result<String, EscapeHtmlError>
    ensures output { IfOk result (λ output. IsEscaping html value.now (string_bytes output)) }
    ensures vector_size { OnOk result (bound html (length value.now) < 2 ^ 63) }
    ensures too_large { (result ≡ Err (EscapeHtmlError.TooLarge (record {})))
        ↔ (usize.MAX < bound html (length value.now)) }
{
    escape_html_in(alloc, value)
}

/// Returns what [`escape_html`] returns, in memory of `alloc`: an arena or a pool, for example. The call makes one
/// allocation, of `6 * n + 32` bytes for a text of `n` bytes, and only from `alloc`.
///
/// # Errors
///
/// Those of [`escape_html`].
///
/// ```rust
/// let text = escape_html_in(&arena, "<")?; // &lt;
/// ```
pub fn escape_html_in<A: Allocator>(alloc: A, value: &str) -> Result<String<A>, EscapeHtmlError>
    ensures output { IfOk result (λ output. IsEscaping html value.now (string_bytes output)) }
    ensures vector_size { OnOk result (bound html (length value.now) < 2 ^ 63) }
    ensures too_large { (result ≡ Err (EscapeHtmlError.TooLarge (record {})))
        ↔ (usize.MAX < bound html (length value.now)) }
{
    Ok(output_in::<{ HTML_MODE }, A>(alloc, value)?)
}

/// Appends to `dst` the output that [`escape_html`] returns. The bytes that `dst` has are kept, and may be any bytes.
///
/// If `dst` has room for less than `6 * n + 32` more bytes, for a text of `n` bytes, the call reserves them from the
/// allocator of `dst`. Else it allocates nothing.
///
/// # Errors
///
/// Those of [`escape_html`]. `dst` is then unchanged.
///
/// ```rust
/// let mut page = Vec::new(rt.alloc());
/// escape_html_into("a<b", &mut page)?; // a&lt;b
/// ```
pub fn escape_html_into<A: Allocator>(
    value: &str,
    dst: &mut Vec<u8, A>,
) -> Result<(), EscapeHtmlError>
    ensures exact { OnOk result (dst.new.items ≡ dst.old.items ++ plain html value.now) }
    ensures output { OnOk result (IsEscaping html value.now
        (appended dst.old.items dst.new.items)) }
    ensures unchanged { OnErr result (dst.new.items ≡ dst.old.items) }
    ensures vector_size { OnOk result (vec_len dst.old + bound html (length value.now) < 2 ^ 63) }
    ensures too_large { (result ≡ Err (EscapeHtmlError.TooLarge (record {})))
        ↔ (usize.MAX < bound html (length value.now)) }
    ensures has_room { vec_len dst.old + bound html (length value.now)
        ≤ vec_capacity dst.old → IsOk result }
{
    Ok(append::<{ HTML_MODE }, A>(value, dst)?)
}
