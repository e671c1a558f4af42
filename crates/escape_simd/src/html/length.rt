//! The length of a text as HTML, and whether a text needs no escape in HTML.
ghost use Rattle.std.specs.Prelude.{◌≡◌, ◌<◌, ◌↔◌, true, length, IfSome, IsNone};
ghost use Rattle.escape_lanes.specs.Mode.{html};
ghost use Rattle.escape_simd.specs.Output.{plain};

use crate::output;
use crate::simd::HTML_MODE;

/// Returns the length in bytes of the output that [`escape_html`](crate::html::escape_html) returns. Returns `None`
/// if it exceeds `usize::MAX`.
///
/// The call allocates nothing. It classifies clean text once, and bytes near an escape up to six times.
///
/// `escape_html_compact` of `escape_text` reserves exactly this length. The calls of this crate that write the output
/// need [`html_capacity`](crate::html::html_capacity) bytes, which is more.
///
/// ```rust
/// let len = html::escaped_len("a<b"); // Some(6)
/// ```
pub fn escaped_len(value: &str) -> Option<usize>
    ensures exact { IfSome result (λ len. len ≡ length (plain html value.now)) }
    ensures passes { IsNone result ↔ (usize.MAX < length (plain html value.now)) }
{
    output::escaped_len::<{ HTML_MODE }>(value)
}

/// Returns whether the text has none of `"`, `&`, `'`, `/`, `<` and `>`. If so,
/// [`escape_html`](crate::html::escape_html) returns a copy of the text.
///
/// The call allocates nothing. It reads the text in parts of at most 128 bytes, returns `false` at the first part in
/// which something needs an escape, and else reads the whole text.
///
/// ```rust
/// let clean = html::is_clean("a/b"); // false
/// ```
pub fn is_clean(value: &str) -> bool
    ensures { (result ≡ true) ↔ (plain html value.now ≡ value.now) }
{
    output::is_clean::<{ HTML_MODE }>(value)
}
