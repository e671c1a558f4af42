//! JSON string literals, also for a script element, to formatters, writers and `String`s, and of many texts.
ghost use Rattle.std.specs.Prelude.{◌≡◌, ◌+◌, ◌<◌, ◌≤◌, ◌↔◌, ◌++◌, length, take, string_bytes, string_len, string_capacity, slice_get, All, Any, Some, Err, IsOk, IfOk, OnOk, OnErr, IfErr, IfSome};
ghost use Rattle.std.specs.Io.KnownBytes.{Appends};
ghost use Rattle.std.specs.List.{join_by};
ghost use Rattle.escape_lanes.specs.Mode.{json, script};
ghost use Rattle.escape_simd.specs.Escaping.{IsEscaping};
ghost use Rattle.escape_simd.specs.Laws.{appended};
ghost use Rattle.escape_simd.specs.Output.{plain, bound};
ghost use Rattle.escape_simd.specs.Script.{IsSafeInScript};
ghost use Rattle.escape_text.specs.Lists.{array_of};
ghost use Rattle.escape_text.specs.Writers.{AppendsBeginning};

mod object;

use crate::adapter::display;
use crate::appended_text::append_text;
use crate::compact::compact_text;
use crate::list::{ListError, append_enclosed, append_joined};
use crate::writer::write_output;
use escape_simd::json::EscapeError;
use escape_simd::simd::{JSON_MODE, SCRIPT_MODE};
pub use object::{object_into, object_line_into};
use std::alloc::Allocator;
use std::fmt;
use std::io::{self, Write};

/// A text as a JSON string literal, with its quotation marks, for `write!`, `print!` and `format!`.
///
/// `{}` writes what [`escape`](escape_simd::json::escape) returns. It makes the output in an array of at most 3104
/// bytes on the stack, allocates nothing, and takes a text of any size. A width or fill in the format string has no
/// effect.
///
/// # Errors
///
/// An error of the formatter, which is returned at once.
///
/// ```rust
/// write!(line, "{{\"name\":{}}}", json::Escaped("Ann \"A\""))?; // {"name":"Ann \"A\""}
/// ```
#[derive(Debug, Clone, Copy, PartialEq, Eq)]
pub struct Escaped<'a>(pub &'a str);

impl fmt::Display for Escaped<'_> {
    ghost output = { λ escaped. Some (plain json escaped.0.now) };

    fn fmt<W: fmt::Write>(&self, f: &mut fmt::Formatter<W>) -> fmt::Result {
        display::<{ JSON_MODE }, W>(self.0, f)
    }
}

/// A text as a JSON string literal that is safe inside a script element, with its quotation marks, for `write!`,
/// `print!` and `format!`.
///
/// `{}` writes what [`escape_script`](escape_simd::json::escape_script) returns. Memory, width, fill and errors are
/// as in [`Escaped`].
///
/// ```rust
/// write!(page, "const user = {};", EscapedScript("a<b"))?; // const user = "a\u003cb";
/// ```
#[derive(Debug, Clone, Copy, PartialEq, Eq)]
pub struct EscapedScript<'a>(pub &'a str);

impl fmt::Display for EscapedScript<'_> {
    ghost output = { λ escaped. Some (plain script escaped.0.now) };

    fn fmt<W: fmt::Write>(&self, f: &mut fmt::Formatter<W>) -> fmt::Result {
        display::<{ SCRIPT_MODE }, W>(self.0, f)
    }
}

/// Writes the literal of a text to `writer`, as [`escape`](escape_simd::json::escape) returns it, and does not flush.
///
/// The call makes the output in an array of at most 3104 bytes on the stack, allocates nothing, and takes a text of
/// any size. It repeats a write that was interrupted. A long text is written in pieces, each by a write of its own:
/// if a write of `writer` is slow, wrap it in a `BufWriter`.
///
/// # Errors
///
/// The error of the first write that fails, or `WriteZero` if a write takes no bytes. `writer` has then taken a
/// prefix of the literal.
///
/// ```rust
/// escape_to_writer("a\"b", &mut log)?; // "a\"b"
/// ```
pub fn escape_to_writer<W: Write>(value: &str, writer: &mut W) -> io::Result<()>
    ensures exact { OnOk result (Appends (W.contents writer.old) (W.contents writer.new)
        (plain json value.now)) }
    ensures beginning { OnErr result (AppendsBeginning (W.contents writer.old)
        (W.contents writer.new) (plain json value.now)) }
{
    write_output::<{ JSON_MODE }, W>(value, writer)
}

/// Writes the literal of a text that is safe inside a script element to `writer`, as
/// [`escape_script`](escape_simd::json::escape_script) returns it, and does not flush.
///
/// Memory, writes and errors are as in [`escape_to_writer`].
///
/// ```rust
/// escape_script_to_writer("a<b", &mut page)?; // "a\u003cb"
/// ```
pub fn escape_script_to_writer<W: Write>(value: &str, writer: &mut W) -> io::Result<()>
    ensures exact { OnOk result (Appends (W.contents writer.old) (W.contents writer.new)
        (plain script value.now)) }
    ensures beginning { OnErr result (AppendsBeginning (W.contents writer.old)
        (W.contents writer.new) (plain script value.now)) }
{
    write_output::<{ SCRIPT_MODE }, W>(value, writer)
}

/// Appends the literal of a text to `dst`, as [`escape`](escape_simd::json::escape) returns it.
///
/// If `dst` has room for less than `6 * n + 35` more bytes, for a text of `n` bytes, the call reserves them from the
/// allocator of `dst`. Else it allocates nothing.
///
/// # Errors
///
/// Those of [`escape`](escape_simd::json::escape). `dst` is then unchanged.
///
/// ```rust
/// escape_into_string("a\n", &mut line)?; // "a\n"
/// ```
pub fn escape_into_string<A: Allocator>(value: &str, dst: &mut String<A>) -> Result<(), EscapeError>
    ensures exact { OnOk result (string_bytes dst.new ≡ string_bytes dst.old ++ plain json value.now) }
    ensures output { OnOk result (IsEscaping json value.now
        (appended (string_bytes dst.old) (string_bytes dst.new))) }
    ensures unchanged { OnErr result (string_bytes dst.new ≡ string_bytes dst.old) }
    ensures too_large { (result ≡ Err EscapeError.TooLarge)
        ↔ (usize.MAX < bound json (length value.now)) }
    ensures has_room { string_len dst.old + bound json (length value.now)
        ≤ string_capacity dst.old → IsOk result }
{
    Ok(append_text::<{ JSON_MODE }, A>(value, dst)?)
}

/// Appends the literal of a text that is safe inside a script element to `dst`, as
/// [`escape_script`](escape_simd::json::escape_script) returns it.
///
/// Memory and errors are as in [`escape_into_string`].
///
/// ```rust
/// escape_script_into_string("a<b", &mut page)?; // "a\u003cb"
/// ```
pub fn escape_script_into_string<A: Allocator>(
    value: &str,
    dst: &mut String<A>,
) -> Result<(), EscapeError>
    ensures exact { OnOk result (string_bytes dst.new ≡ string_bytes dst.old ++ plain script value.now) }
    ensures output { OnOk result (IsEscaping script value.now
        (appended (string_bytes dst.old) (string_bytes dst.new))) }
    ensures unchanged { OnErr result (string_bytes dst.new ≡ string_bytes dst.old) }
    ensures too_large { (result ≡ Err EscapeError.TooLarge)
        ↔ (usize.MAX < bound script (length value.now)) }
    ensures has_room { string_len dst.old + bound script (length value.now)
        ≤ string_capacity dst.old → IsOk result }
{
    Ok(append_text::<{ SCRIPT_MODE }, A>(value, dst)?)
}

/// Returns the literal of a text, as [`escape`](escape_simd::json::escape) returns it, in a `String` that reserves
/// the length of the literal and no more.
///
/// The call makes one allocation, from `alloc`, of `n + 2` to `6 * n + 2` bytes for a text of `n` bytes. It goes
/// through the text twice. [`escape`](escape_simd::json::escape) is faster, and its `String` keeps `6 * n + 35` bytes.
///
/// # Errors
///
/// - [`EscapeError::TooLarge`]: the length of the literal exceeds `usize::MAX`.
/// - [`EscapeError::OutOfMemory`]: the allocator refused the memory, or the length exceeds `isize::MAX`.
///
/// ```rust
/// let literal = escape_compact(rt.alloc(), "a\n")?; // "a\n"
/// ```
pub fn escape_compact<A: Allocator>(alloc: A, value: &str) -> Result<String<A>, EscapeError>
    ensures output { IfOk result (λ output. IsEscaping json value.now (string_bytes output)) }
    ensures too_large { (result ≡ Err EscapeError.TooLarge)
        ↔ (usize.MAX < length (plain json value.now)) }
{
    Ok(compact_text::<{ JSON_MODE }, A>(alloc, value)?)
}

/// Returns the literal of a text that is safe inside a script element, as
/// [`escape_script`](escape_simd::json::escape_script) returns it, in a `String` that reserves the length of the
/// literal and no more.
///
/// Memory and errors are as in [`escape_compact`].
///
/// ```rust
/// let literal = escape_script_compact(rt.alloc(), "a<b")?; // "a\u003cb"
/// ```
pub fn escape_script_compact<A: Allocator>(alloc: A, value: &str) -> Result<String<A>, EscapeError>
    ensures output { IfOk result (λ output. IsEscaping script value.now (string_bytes output)) }
    ensures too_large { (result ≡ Err EscapeError.TooLarge)
        ↔ (usize.MAX < length (plain script value.now)) }
{
    Ok(compact_text::<{ SCRIPT_MODE }, A>(alloc, value)?)
}

/// Appends the literals of the texts to `dst`, each as [`escape`](escape_simd::json::escape) returns it, and between
/// each two of them the text `between` as it is. The call stops at the first text that is refused.
///
/// For each text of `n` bytes it reserves `6 * n + 35` bytes if `dst` has less room, and room for `between`, from the
/// allocator of `dst`.
///
/// # Errors
///
/// A [`ListError`]: `written` texts were appended, and the next one was refused for `reason`. `dst` then has the
/// bytes that it had before, and these literals with `between` between each two.
///
/// ```rust
/// escape_joined_into(&["a", "\n"], ", ", &mut line)?; // "a", "\n"
/// ```
pub fn escape_joined_into<A: Allocator>(
    values: &[&str],
    between: &str,
    dst: &mut Vec<u8, A>,
) -> Result<(), ListError<EscapeError>>
    ensures exact { OnOk result (dst.new.items
        ≡ dst.old.items ++ join_by (λ v. plain json v.now) between.now values.now) }
    ensures fits { OnOk result (All (λ v. bound json (length v.now) ≤ usize.MAX) values.now) }
    ensures stopped { IfErr result (λ stop. dst.new.items ≡ dst.old.items
        ++ join_by (λ v. plain json v.now) between.now (take stop.written values.now)) }
    ensures inside { IfErr result (λ stop. stop.written < length values.now) }
    ensures too_large { IfErr result (λ stop. IfSome (slice_get values.now stop.written) (λ v.
        (stop.reason ≡ EscapeError.TooLarge) ↔ (usize.MAX < bound json (length v.now)))) }
{
    match append_joined::<{ JSON_MODE }, _, A>(values, between, dst) {
        Ok(()) => Ok(()),
        Err(stop) => Err(ListError {
            written: stop.written,
            reason: EscapeError::from(stop.reason),
        }),
    }
}

/// Appends a JSON array of the literals of the texts (RFC 8259, section 5), each as
/// [`escape`](escape_simd::json::escape) returns it.
///
/// For each text of `n` bytes it reserves `6 * n + 35` bytes if `dst` has less room, and room for the brackets and
/// commas.
///
/// # Errors
///
/// The error for the first text that is refused, or `OutOfMemory` for a bracket or a comma. It is `TooLarge` only if
/// `6 * n + 35` exceeds `usize::MAX` for a text. `dst` keeps the bytes that it had, and has no others.
///
/// ```rust
/// escape_array_into(&["a", "\n"], &mut line)?; // ["a","\n"]
/// ```
pub fn escape_array_into<A: Allocator>(
    values: &[&str],
    dst: &mut Vec<u8, A>,
) -> Result<(), EscapeError>
    ensures exact { OnOk result (dst.new.items
        ≡ dst.old.items ++ array_of (λ v. plain json v.now) values.now) }
    ensures fits { OnOk result (All (λ v. bound json (length v.now) ≤ usize.MAX) values.now) }
    ensures unchanged { OnErr result (dst.new.items ≡ dst.old.items) }
    ensures too_large { result ≡ Err EscapeError.TooLarge
        → Any (λ v. usize.MAX < bound json (length v.now)) values.now }
{
    Ok(append_enclosed::<{ JSON_MODE }, _, A>("[", values, "]", dst)?)
}

/// Appends a JSON array of the literals of the texts (RFC 8259, section 5), each as
/// [`escape_script`](escape_simd::json::escape_script) returns it. The whole array is safe inside a script element.
///
/// Memory and errors are as in [`escape_array_into`].
///
/// ```rust
/// escape_script_array_into(&["a", "<"], &mut page)?; // ["a","\u003c"]
/// ```
pub fn escape_script_array_into<A: Allocator>(
    values: &[&str],
    dst: &mut Vec<u8, A>,
) -> Result<(), EscapeError>
    ensures exact { OnOk result (dst.new.items
        ≡ dst.old.items ++ array_of (λ v. plain script v.now) values.now) }
    ensures fits { OnOk result (All (λ v. bound script (length v.now) ≤ usize.MAX) values.now) }
    ensures safe { OnOk result
        (IsSafeInScript (array_of (λ v. plain script v.now) values.now)) }
    ensures unchanged { OnErr result (dst.new.items ≡ dst.old.items) }
    ensures too_large { result ≡ Err EscapeError.TooLarge
        → Any (λ v. usize.MAX < bound script (length v.now)) values.now }
{
    Ok(append_enclosed::<{ SCRIPT_MODE }, _, A>("[", values, "]", dst)?)
}
