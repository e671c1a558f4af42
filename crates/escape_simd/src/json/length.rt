//! How long a literal is, and whether a text stands in it as it is.
ghost use Rattle.std.specs.Prelude.{◌≡◌, ◌<◌, ◌↔◌, true, length, IfSome, IsNone};
ghost use Rattle.escape_lanes.specs.Mode.{json, script};
ghost use Rattle.escape_simd.specs.Output.{plain, inner};

use crate::output;
use crate::simd::{JSON_MODE, SCRIPT_MODE};

/// Returns the length in bytes of the literal that [`escape`](crate::json::escape) returns, with its quotation marks.
/// Returns `None` if it exceeds `usize::MAX`.
///
/// The call allocates nothing. It classifies clean text once, and bytes near an escape up to six times.
///
/// `escape_compact` of `escape_text` reserves exactly this length. The calls of this crate that write the literal
/// need [`json_capacity`](crate::json::json_capacity) bytes, which is more.
///
/// ```rust
/// let len = json::escaped_len("a\"\n"); // Some(7)
/// ```
pub fn escaped_len(value: &str) -> Option<usize>
    ensures exact { IfSome result (λ len. len ≡ length (plain json value.now)) }
    ensures passes { IsNone result ↔ (usize.MAX < length (plain json value.now)) }
{
    output::escaped_len::<{ JSON_MODE }>(value)
}

/// Returns the length in bytes of the literal that [`escape_script`](crate::json::escape_script) returns, with its
/// quotation marks. Returns `None` if it exceeds `usize::MAX`. Memory and reads are those of [`escaped_len`].
///
/// `escape_script_compact` of `escape_text` reserves exactly this length. The calls of this crate that write the
/// literal need [`json_capacity`](crate::json::json_capacity) bytes, which is more.
///
/// ```rust
/// let len = script_len("a<b"); // Some(10)
/// ```
pub fn script_len(value: &str) -> Option<usize>
    ensures exact { IfSome result (λ len. len ≡ length (plain script value.now)) }
    ensures passes { IsNone result ↔ (usize.MAX < length (plain script value.now)) }
{
    output::escaped_len::<{ SCRIPT_MODE }>(value)
}

/// Returns whether no byte of the text needs an escape in a JSON string literal (RFC 8259, section 7). If so, the
/// literal is the text between quotation marks.
///
/// The call allocates nothing. It reads the text in parts of at most 128 bytes, returns `false` at the first part in
/// which something needs an escape, and else reads the whole text.
///
/// ```rust
/// let clean = json::is_clean("a/b"); // true
/// ```
pub fn is_clean(value: &str) -> bool
    ensures { (result ≡ true) ↔ (inner json value.now ≡ value.now) }
{
    output::is_clean::<{ JSON_MODE }>(value)
}

/// Returns whether no character of the text needs an escape in a literal for a script element. If so, the literal
/// that [`escape_script`](crate::json::escape_script) returns is the text between quotation marks.
///
/// The call allocates nothing. It reads the text in parts of at most 128 bytes, returns `false` at the first part in
/// which something needs an escape, and else reads the whole text.
///
/// ```rust
/// let clean = is_script_clean("a\u{2028}"); // false
/// ```
pub fn is_script_clean(value: &str) -> bool
    ensures { (result ≡ true) ↔ (inner script value.now ≡ value.now) }
{
    output::is_clean::<{ SCRIPT_MODE }>(value)
}
