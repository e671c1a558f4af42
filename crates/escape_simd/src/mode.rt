//! The modes: what is written for a text.
ghost use Rattle.std.specs.Prelude.{◌≡◌, ◌<◌, ◌≤◌, ◌↔◌, Err, IfOk, IsOkUnless};
ghost use Rattle.escape_simd.specs.Modes.{escaping, mode_numbered};
ghost use Rattle.escape_simd.specs.Output.{bound, quote_of};
ghost use Rattle.escape_simd.specs.declared.output.error.Refusal.{Refusal};

use crate::output::{Refusal, scratch_bound};
use crate::simd::{HTML_MODE, JSON_MODE};
use escape_lanes::simd::mode::is_quoted;

/// A mode: what is written for a text.
///
/// ```rust
/// let len = format_text(Kernel::default(), Mode::Html, "<", &mut dst); // 4
/// ```
#[derive(Debug, Clone, Copy, PartialEq, Eq)]
pub enum Mode {
    /// A JSON string literal (RFC 8259, section 7), with its quotation marks.
    Json,
    /// HTML: each of `"`, `&`, `'`, `/`, `<` and `>` as its entity.
    Html,
    /// A JSON string literal that is safe inside a script element: `<`, `>`, `&`, U+2028 and U+2029 are escaped too.
    Script,
}

impl Mode {
    /// Returns the size in bytes that a slice must have for the output of a text of `len` bytes: `6 * len + 35`, in
    /// HTML `6 * len + 32`.
    ///
    /// # Errors
    ///
    /// [`Refusal::TooLarge`] if that exceeds `usize::MAX`.
    ///
    /// ```rust
    /// let capacity = Mode::Html.capacity(10)?; // 92
    /// ```
    pub fn capacity(self, len: usize) -> Result<usize, Refusal>
        ensures exact { IfOk result (λ capacity. capacity ≡ bound (escaping self) len) }
        ensures too_large { (result ≡ Err Refusal.TooLarge) ↔ (usize.MAX < bound (escaping self) len) }
        ensures refusal { IsOkUnless result Refusal.TooLarge }
    {
        let capacity = match self {
            Mode::Json | Mode::Script => scratch_bound::<{ JSON_MODE }>(len),
            Mode::Html => scratch_bound::<{ HTML_MODE }>(len),
        };
        capacity.ok_or(Refusal::TooLarge)
    }

    /// Returns what stands before and after an output: a quotation mark in JSON, also in script mode, and nothing in
    /// HTML.
    ///
    /// ```rust
    /// let mark = Mode::Json.quote(); // "
    /// ```
    #[inline(always)]
    pub fn quote(self) -> &'static str
        ensures { result.now ≡ quote_of (escaping self) }
    {
        match self {
            Mode::Json | Mode::Script => quote::<{ JSON_MODE }>(),
            Mode::Html => quote::<{ HTML_MODE }>(),
        }
    }
}

/// Returns what stands before and after an output: a quotation mark in JSON, also in script mode, and nothing in HTML.
///
/// ```rust
/// let mark = quote::<{ JSON_MODE }>(); // "
/// ```
#[inline(always)]
pub fn quote<const MODE: u8>() -> &'static str
    requires mode { MODE ≤ 2 }
    ensures { result.now ≡ quote_of (mode_numbered MODE) }
{
    if is_quoted::<MODE>() { "\"" } else { "" }
}
