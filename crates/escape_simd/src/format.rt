//! Calls that write an output to a slice, with the kernel that the caller names. They allocate nothing and do not
//! fail.
ghost use Rattle.std.specs.Prelude.{◌+◌, ◌*◌, ◌≤◌, ◌++◌, true, length, take, chars};
ghost use Rattle.escape_lanes.specs.Mode.{json, html, script};
ghost use Rattle.escape_simd.specs.Escaping.{IsEscaping};
ghost use Rattle.escape_simd.specs.Examples.{HtmlExamples, JsonExamples, ScriptExamples};
ghost use Rattle.escape_simd.specs.Formatted.{IsInnerWritten, IsWritten};
ghost use Rattle.escape_simd.specs.Headline.{IsOnlyOutput};
ghost use Rattle.escape_simd.specs.Json.{IsOnlyJson};
ghost use Rattle.escape_simd.specs.Kernels.{lanes_of};
ghost use Rattle.escape_simd.specs.Laws.{AgreesWithEach};
ghost use Rattle.escape_simd.specs.Modes.{escaping, mode_numbered};
ghost use Rattle.escape_simd.specs.Output.{bound, quote_of, quoted};
ghost use Rattle.escape_simd.specs.Parts.{IsEscapedAt, room_for};
ghost use Rattle.escape_simd.specs.Script.{IsOnlyScript};
ghost use Rattle.escape_simd.specs.Stretch.{reach};

use crate::kernel::Kernel;
use crate::mode::Mode;
use crate::simd::{
    HTML_MODE, JSON_MODE, SCRIPT_MODE, avx2, avx512, escape_to_slice, neon, sse2, v128,
};

/// Writes the output of a text in the mode `mode` to the front of `dst`, with the kernel `kernel`. Returns the length
/// of the output in bytes. The call allocates nothing and does not fail.
///
/// For a text of `n` bytes, `dst` must have at least `6 * n + 35` bytes, in HTML `6 * n + 32` ([`Mode::capacity`]).
/// The bytes of `dst` from that index on are unchanged, and so are those that are a vector (16, 32 or 64 bytes) or more
/// past the end of the output. The bytes between may have changed. All kernels write the same output.
///
/// ```rust
/// let mut dst = [0; 38];
/// let len = format_text(Kernel::Avx2, Mode::Html, "<", &mut dst); // 4
/// ```
#[inline(always)]
pub fn format_text(kernel: Kernel, mode: Mode, value: &str, dst: &mut [u8]) -> usize
    requires has_room { bound (escaping mode) (length value.now) ≤ length dst.old }
    ensures written { IsWritten (lanes_of kernel) (escaping mode) value.now dst.old dst.new result }
    ensures output { IsEscaping (escaping mode) value.now (take result dst.new) }
    ensures agree { AgreesWithEach (escaping mode) value.now result (take result dst.new) }
{
    let text = value.as_bytes();
    match mode {
        Mode::Json => escape_by::<{ JSON_MODE }, true>(kernel, text, dst),
        Mode::Html => escape_by::<{ HTML_MODE }, true>(kernel, text, dst),
        Mode::Script => escape_by::<{ SCRIPT_MODE }, true>(kernel, text, dst),
    }
}

/// Writes the output of a text in the mode `mode` without its quotation marks to the front of `dst`, with the kernel
/// `kernel`. Returns the number of bytes written. The call allocates nothing and does not fail. HTML has no quotation
/// marks, and so this is the whole output.
///
/// Use it to write an output in pieces: [`Mode::quote`], the outputs of the pieces one after another, and
/// [`Mode::quote`] are the output of the whole text.
///
/// For a text of `n` bytes, `dst` must have at least `6 * n + 32` bytes. The bytes of `dst` from index `6 * n + 32` on
/// are unchanged, and so are those that are a vector (16, 32 or 64 bytes) or more past the end of the output. The bytes
/// between may have changed. All kernels write the same output.
///
/// ```rust
/// let mut dst = [0; 38];
/// let len = format_inner(Kernel::Avx2, Mode::Json, "\"", &mut dst); // 2
/// ```
#[inline(always)]
pub fn format_inner(kernel: Kernel, mode: Mode, value: &str, dst: &mut [u8]) -> usize
    requires has_room { 6 * length value.now + 32 ≤ length dst.old }
    ensures written { IsInnerWritten (lanes_of kernel) (escaping mode) value.now dst.old dst.new result }
    ensures headline { IsOnlyOutput (escaping mode)
        (quote_of (escaping mode) ++ (take result dst.new ++ quote_of (escaping mode))) (chars value.now) }
{
    let text = value.as_bytes();
    match mode {
        Mode::Json => escape_by::<{ JSON_MODE }, false>(kernel, text, dst),
        Mode::Html => escape_by::<{ HTML_MODE }, false>(kernel, text, dst),
        Mode::Script => escape_by::<{ SCRIPT_MODE }, false>(kernel, text, dst),
    }
}

/// Writes the JSON string literal of a text (RFC 8259, section 7), with its quotation marks, to the front of `dst`,
/// with the kernel `kernel`. Returns the length of the literal in bytes. The call allocates nothing and does not
/// fail.
///
/// For a text of `n` bytes, `dst` must have at least `6 * n + 35` bytes
/// ([`json_capacity`](crate::json::json_capacity)). The bytes of `dst` from index `6 * n + 35` on are unchanged, and
/// so are those that are a vector (16, 32 or 64 bytes) or more past the end of the literal. The bytes between may
/// have changed. All kernels write the same literal.
///
/// ```rust
/// let mut dst = [0; 41];
/// let len = format_json_string(Kernel::Avx2, "x", &mut dst); // 3
/// ```
pub fn format_json_string(kernel: Kernel, value: &str, dst: &mut [u8]) -> usize
    requires has_room { bound json (length value.now) ≤ length dst.old }
    ensures written { IsWritten (lanes_of kernel) json value.now dst.old dst.new result }
    ensures output { IsEscaping json value.now (take result dst.new) }
    ensures agree { AgreesWithEach json value.now result (take result dst.new) }
{
    format_text(kernel, Mode::Json, value, dst)
}

/// Writes what [`format_json_string`] writes, and returns the literal as a `&str` that borrows `dst`.
///
/// For a text of `n` bytes, `dst` must have at least `6 * n + 35` bytes.
///
/// ```rust
/// let mut dst = [0; 41];
/// let literal = format_json_str(Kernel::Avx2, "<", &mut dst); // "<"
/// ```
pub fn format_json_str<'a>(kernel: Kernel, value: &str, dst: &'a mut [u8]) -> &'a str
    requires has_room { bound json (length value.now) ≤ length dst.old }
    ensures output { IsEscaping json value.now result.now }
{
    format_str(kernel, Mode::Json, value, dst)
}

/// Writes a text as HTML, with `"`, `&`, `'`, `/`, `<` and `>` as entities, to the front of `dst`, with the kernel
/// `kernel`. Returns the length of the output in bytes. The call allocates nothing and does not fail.
///
/// For a text of `n` bytes, `dst` must have at least `6 * n + 32` bytes
/// ([`html_capacity`](crate::html::html_capacity)). The bytes of `dst` from index `6 * n + 32` on are unchanged, and
/// so are those that are a vector (16, 32 or 64 bytes) or more past the end of the output. The bytes between may have
/// changed. All kernels write the same output.
///
/// ```rust
/// let mut dst = [0; 38];
/// let len = format_html_string(Kernel::Avx2, "<", &mut dst); // 4
/// ```
pub fn format_html_string(kernel: Kernel, value: &str, dst: &mut [u8]) -> usize
    requires has_room { bound html (length value.now) ≤ length dst.old }
    ensures written { IsWritten (lanes_of kernel) html value.now dst.old dst.new result }
    ensures output { IsEscaping html value.now (take result dst.new) }
    ensures agree { AgreesWithEach html value.now result (take result dst.new) }
{
    format_text(kernel, Mode::Html, value, dst)
}

/// Writes what [`format_html_string`] writes, and returns the output as a `&str` that borrows `dst`.
///
/// For a text of `n` bytes, `dst` must have at least `6 * n + 32` bytes.
///
/// ```rust
/// let mut dst = [0; 38];
/// let text = format_html_str(Kernel::Avx2, "<", &mut dst); // &lt;
/// ```
pub fn format_html_str<'a>(kernel: Kernel, value: &str, dst: &'a mut [u8]) -> &'a str
    requires has_room { bound html (length value.now) ≤ length dst.old }
    ensures output { IsEscaping html value.now result.now }
    // Examples of what HTML reads as.
    ensures examples { HtmlExamples }
{
    format_str(kernel, Mode::Html, value, dst)
}

/// Writes a JSON string literal of a text that is safe inside a script element of an HTML page, with its quotation
/// marks, to the front of `dst`, with the kernel `kernel`. Returns the length of the literal in bytes. The call
/// allocates nothing and does not fail.
///
/// For a text of `n` bytes, `dst` must have at least `6 * n + 35` bytes
/// ([`json_capacity`](crate::json::json_capacity)). The bytes of `dst` from index `6 * n + 35` on are unchanged, and
/// so are those that are a vector (16, 32 or 64 bytes) or more past the end of the literal. The bytes between may
/// have changed. All kernels write the same literal.
///
/// ```rust
/// let mut dst = [0; 41];
/// let len = format_script_string(Kernel::Avx2, "<", &mut dst); // 8
/// ```
pub fn format_script_string(kernel: Kernel, value: &str, dst: &mut [u8]) -> usize
    requires has_room { bound script (length value.now) ≤ length dst.old }
    ensures written { IsWritten (lanes_of kernel) script value.now dst.old dst.new result }
    ensures output { IsEscaping script value.now (take result dst.new) }
    ensures agree { AgreesWithEach script value.now result (take result dst.new) }
{
    format_text(kernel, Mode::Script, value, dst)
}

/// Writes what [`format_script_string`] writes, and returns the literal as a `&str` that borrows `dst`.
///
/// For a text of `n` bytes, `dst` must have at least `6 * n + 35` bytes.
///
/// ```rust
/// let mut dst = [0; 41];
/// let literal = format_script_str(Kernel::Avx2, "<", &mut dst); // "\u003c"
/// ```
pub fn format_script_str<'a>(kernel: Kernel, value: &str, dst: &'a mut [u8]) -> &'a str
    requires has_room { bound script (length value.now) ≤ length dst.old }
    ensures output { IsEscaping script value.now result.now }
{
    format_str(kernel, Mode::Script, value, dst)
}

/// Writes the JSON string literal of a text without its quotation marks to the front of `dst`, with the kernel
/// `kernel`. Returns the number of bytes written. The call allocates nothing and does not fail.
///
/// Use it to write a literal in pieces: a quotation mark, the outputs of the pieces one after another, and a
/// quotation mark are the literal of the whole text. For HTML, use [`format_html_string`].
///
/// For a text of `n` bytes, `dst` must have at least `6 * n + 32` bytes, the same number as
/// [`html_capacity`](crate::html::html_capacity) returns. The bytes of `dst` from index `6 * n + 32` on are
/// unchanged, and so are those that are a vector (16, 32 or 64 bytes) or more past the end of the output. The bytes
/// between may have changed. All kernels write the same output.
///
/// ```rust
/// let mut dst = [0; 38];
/// let len = format_json_inner(Kernel::Avx2, "\"", &mut dst); // 2
/// ```
pub fn format_json_inner(kernel: Kernel, value: &str, dst: &mut [u8]) -> usize
    requires has_room { 6 * length value.now + 32 ≤ length dst.old }
    ensures written { IsInnerWritten (lanes_of kernel) json value.now dst.old dst.new result }
    ensures headline { IsOnlyJson (quoted (take result dst.new)) (chars value.now) }
    // Examples of what a literal denotes.
    ensures examples { JsonExamples }
{
    format_inner(kernel, Mode::Json, value, dst)
}

/// Writes the literal of a text that is safe inside a script element (see [`format_script_string`]) without its
/// quotation marks to the front of `dst`, with the kernel `kernel`. Returns the number of bytes written. The call
/// allocates nothing and does not fail.
///
/// Use it to write a literal in pieces: a quotation mark, the outputs of the pieces one after another, and a
/// quotation mark are the literal of the whole text. For HTML, use [`format_html_string`].
///
/// For a text of `n` bytes, `dst` must have at least `6 * n + 32` bytes, the same number as
/// [`html_capacity`](crate::html::html_capacity) returns. The bytes of `dst` from index `6 * n + 32` on are
/// unchanged, and so are those that are a vector (16, 32 or 64 bytes) or more past the end of the output. The bytes
/// between may have changed. All kernels write the same output.
///
/// ```rust
/// let mut dst = [0; 38];
/// let len = format_script_inner(Kernel::Avx2, "<", &mut dst); // 6
/// ```
pub fn format_script_inner(kernel: Kernel, value: &str, dst: &mut [u8]) -> usize
    requires has_room { 6 * length value.now + 32 ≤ length dst.old }
    ensures written { IsInnerWritten (lanes_of kernel) script value.now dst.old dst.new result }
    ensures headline { IsOnlyScript (quoted (take result dst.new)) (chars value.now) }
    // Examples of what `IsOnlyScript` takes for a literal without raw marks.
    ensures examples { ScriptExamples }
{
    format_inner(kernel, Mode::Script, value, dst)
}

/// Writes what [`format_text`] writes, and returns it.
fn format_str<'a>(kernel: Kernel, mode: Mode, value: &str, dst: &'a mut [u8]) -> &'a str
    requires { bound (escaping mode) (length value.now) ≤ length dst.old }
    ensures { IsEscaping (escaping mode) value.now result.now }
{
    let count = format_text(kernel, mode, value, dst);
    // The output for a text is a text.
    unsafe { str::from_utf8_unchecked(&dst[..count]) }
}

/// Writes what stands for the text in the mode numbered `MODE` to the front of `dst`, by the kernel, between quotation
/// marks if `QUOTED`. Returns the index after it.
///
/// The default kernel is compared first: so it takes one comparison, and no jump by a table.
fn escape_by<const MODE: u8, const QUOTED: bool>(
    kernel: Kernel,
    text: &[u8],
    dst: &mut [u8],
) -> usize
    requires { room_for QUOTED (mode_numbered MODE) (length text.now) ≤ length dst.old }
    ensures { IsEscapedAt (reach true (lanes_of kernel)) (mode_numbered MODE) QUOTED
        text.now dst.old dst.new 0 result }
{
    match kernel {
        Kernel::Avx2 => escape_to_slice::<avx2::Simd256u, MODE, QUOTED, 32>(text, dst, 0),
        _ => escape_by_other::<MODE, QUOTED>(kernel, text, dst),
    }
}

/// As [`escape_by`], by any kernel.
#[inline(never)]
fn escape_by_other<const MODE: u8, const QUOTED: bool>(
    kernel: Kernel,
    text: &[u8],
    dst: &mut [u8],
) -> usize
    requires { room_for QUOTED (mode_numbered MODE) (length text.now) ≤ length dst.old }
    ensures { IsEscapedAt (reach true (lanes_of kernel)) (mode_numbered MODE) QUOTED
        text.now dst.old dst.new 0 result }
{
    match kernel {
        Kernel::V128 => escape_to_slice::<v128::Simd128u, MODE, QUOTED, 16>(text, dst, 0),
        Kernel::Sse2 => escape_to_slice::<sse2::Simd128u, MODE, QUOTED, 16>(text, dst, 0),
        Kernel::Neon => escape_to_slice::<neon::Simd128u, MODE, QUOTED, 16>(text, dst, 0),
        Kernel::Avx2 => escape_to_slice::<avx2::Simd256u, MODE, QUOTED, 32>(text, dst, 0),
        Kernel::Avx512 => escape_to_slice::<avx512::Simd512u, MODE, QUOTED, 64>(text, dst, 0),
    }
}
