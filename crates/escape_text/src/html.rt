//! HTML to formatters, writers and `String`s, and of many texts with something between.
ghost use Rattle.std.specs.Prelude.{◌≡◌, ◌≢◌, ◌+◌, ◌<◌, ◌≤◌, ◌↔◌, ◌++◌, length, take, string_bytes, string_len, string_capacity, slice_get, All, Some, Err, IsOk, IfOk, OnOk, OnErr, IfErr, IfSome};
ghost use Rattle.std.specs.Cow.{cow_str_bytes, IsOwnedStr};
ghost use Rattle.std.specs.Io.KnownBytes.{Appends};
ghost use Rattle.std.specs.List.{join_by};
ghost use Rattle.escape_lanes.specs.Mode.{html};
ghost use Rattle.escape_simd.specs.Escaping.{IsEscaping, IsHarmlessHtml};
ghost use Rattle.escape_simd.specs.Laws.{appended};
ghost use Rattle.escape_simd.specs.Output.{plain, bound};
ghost use Rattle.escape_text.specs.Writers.{AppendsBeginning};

use crate::adapter::display;
use crate::appended_text::append_text;
use crate::compact::compact_text;
use crate::list::{ListError, append_joined};
use crate::writer::write_output;
use escape_simd::html::{EscapeHtmlError, is_clean};
use escape_simd::simd::HTML_MODE;
use std::alloc::Allocator;
use std::borrow::CowStr;
use std::fmt;
use std::io::{self, Write};

/// A text as HTML, for `write!`, `print!` and `format!`.
///
/// `{}` writes what [`escape_html`](escape_simd::html::escape_html) returns. It makes the output in an array of at
/// most 3104 bytes on the stack, allocates nothing, and takes a text of any size. A width or fill in the format
/// string has no effect.
///
/// # Errors
///
/// An error of the formatter, which is returned at once.
///
/// ```rust
/// write!(page, "<p title=\"{}\">", html::Escaped("a \"b\""))?; // <p title="a &quot;b&quot;">
/// ```
#[derive(Debug, Clone, Copy, PartialEq, Eq)]
pub struct Escaped<'a>(pub &'a str);

impl fmt::Display for Escaped<'_> {
    ghost output = { λ escaped. Some (plain html escaped.0.now) };

    fn fmt<W: fmt::Write>(&self, f: &mut fmt::Formatter<W>) -> fmt::Result {
        display::<{ HTML_MODE }, W>(self.0, f)
    }
}

/// Writes a text as HTML to `writer`, as [`escape_html`](escape_simd::html::escape_html) returns it, and does not
/// flush.
///
/// The call makes the output in an array of at most 3104 bytes on the stack, allocates nothing, and takes a text of
/// any size. It repeats a write that was interrupted. A long text is written in pieces, each by a write of its own:
/// if a write of `writer` is slow, wrap it in a `BufWriter`.
///
/// # Errors
///
/// The error of the first write that fails, or `WriteZero` if a write takes no bytes. `writer` has then taken a
/// prefix of the output.
///
/// ```rust
/// escape_html_to_writer("a<b", &mut page)?; // a&lt;b
/// ```
pub fn escape_html_to_writer<W: Write>(value: &str, writer: &mut W) -> io::Result<()>
    ensures exact { OnOk result (Appends (W.contents writer.old) (W.contents writer.new)
        (plain html value.now)) }
    ensures beginning { OnErr result (AppendsBeginning (W.contents writer.old)
        (W.contents writer.new) (plain html value.now)) }
{
    write_output::<{ HTML_MODE }, W>(value, writer)
}

/// Appends a text as HTML to `dst`, as [`escape_html`](escape_simd::html::escape_html) returns it.
///
/// If `dst` has room for less than `6 * n + 32` more bytes, for a text of `n` bytes, the call reserves them from the
/// allocator of `dst`. Else it allocates nothing.
///
/// # Errors
///
/// Those of [`escape_html`](escape_simd::html::escape_html). `dst` is then unchanged.
///
/// ```rust
/// escape_html_into_string("a<b", &mut page)?; // a&lt;b
/// ```
pub fn escape_html_into_string<A: Allocator>(
    value: &str,
    dst: &mut String<A>,
) -> Result<(), EscapeHtmlError>
    ensures exact { OnOk result (string_bytes dst.new ≡ string_bytes dst.old ++ plain html value.now) }
    ensures output { OnOk result (IsEscaping html value.now
        (appended (string_bytes dst.old) (string_bytes dst.new))) }
    ensures unchanged { OnErr result (string_bytes dst.new ≡ string_bytes dst.old) }
    ensures too_large { (result ≡ Err (EscapeHtmlError.TooLarge (record {})))
        ↔ (usize.MAX < bound html (length value.now)) }
    ensures has_room { string_len dst.old + bound html (length value.now)
        ≤ string_capacity dst.old → IsOk result }
{
    Ok(append_text::<{ HTML_MODE }, A>(value, dst)?)
}

/// Returns the text as HTML, as [`escape_html`](escape_simd::html::escape_html) returns it, in a `String` that
/// reserves the length of the output and no more.
///
/// The call makes at most one allocation, from `alloc`, of `n` to `6 * n` bytes for a text of `n` bytes. It goes
/// through the text twice. [`escape_html`](escape_simd::html::escape_html) is faster, and its `String` keeps
/// `6 * n + 32` bytes.
///
/// # Errors
///
/// - [`EscapeHtmlError::TooLarge`]: the length of the output exceeds `usize::MAX`.
/// - [`EscapeHtmlError::OutOfMemory`]: the allocator refused the memory, or the length exceeds `isize::MAX`.
///
/// ```rust
/// let text = escape_html_compact(rt.alloc(), "a<b")?; // a&lt;b
/// ```
pub fn escape_html_compact<A: Allocator>(
    alloc: A,
    value: &str,
) -> Result<String<A>, EscapeHtmlError>
    ensures output { IfOk result (λ output. IsEscaping html value.now (string_bytes output)) }
    ensures too_large { (result ≡ Err (EscapeHtmlError.TooLarge (record {})))
        ↔ (usize.MAX < length (plain html value.now)) }
{
    Ok(compact_text::<{ HTML_MODE }, A>(alloc, value)?)
}

/// Returns the text as HTML. If nothing in the text needs an escape, the result borrows the text. Else it owns what
/// [`escape_html_compact`] returns.
///
/// For a text that needs no escape, the call allocates nothing and returns no error.
///
/// # Errors
///
/// Those of [`escape_html_compact`].
///
/// ```rust
/// let borrowed = escape_html_cow(rt.alloc(), "a b")?; // CowStr::Borrowed("a b")
/// let owned = escape_html_cow(rt.alloc(), "a<b")?; // a&lt;b
/// ```
pub fn escape_html_cow<'a, A: Allocator>(
    alloc: A,
    value: &'a str,
) -> Result<CowStr<'a, A>, EscapeHtmlError>
    ensures output { IfOk result (λ output. IsEscaping html value.now (cow_str_bytes output)) }
    ensures borrowed { IfOk result (λ output. IsOwnedStr output ↔ (plain html value.now ≢ value.now)) }
    ensures clean { plain html value.now ≡ value.now → IsOk result }
    ensures too_large { (result ≡ Err (EscapeHtmlError.TooLarge (record {})))
        ↔ (usize.MAX < length (plain html value.now)) }
{
    if is_clean(value) {
        return Ok(CowStr::Borrowed(value));
    }
    Ok(CowStr::Owned(escape_html_compact(alloc, value)?))
}

/// Appends the outputs of the texts to `dst`, each as [`escape_html`](escape_simd::html::escape_html) returns it, and
/// between each two of them the text `between` as it is. `between` may be markup, so do not take it from input that
/// you do not trust. No text becomes markup. The call stops at the first text that is refused.
///
/// For each text of `n` bytes it reserves `6 * n + 32` bytes if `dst` has less room, and room for `between`, from the
/// allocator of `dst`.
///
/// # Errors
///
/// A [`ListError`]: `written` texts were appended, and the next one was refused for `reason`. `dst` then has the
/// bytes that it had before, and these outputs with `between` between each two.
///
/// ```rust
/// escape_html_joined_into(&["a", "<"], "</li><li>", &mut page)?; // a</li><li>&lt;
/// ```
pub fn escape_html_joined_into<A: Allocator>(
    values: &[&str],
    between: &str,
    dst: &mut Vec<u8, A>,
) -> Result<(), ListError<EscapeHtmlError>>
    ensures exact { OnOk result (dst.new.items
        ≡ dst.old.items ++ join_by (λ v. plain html v.now) between.now values.now) }
    ensures harmless { OnOk result (All (λ v. IsHarmlessHtml (plain html v.now)) values.now) }
    ensures fits { OnOk result (All (λ v. bound html (length v.now) ≤ usize.MAX) values.now) }
    ensures stopped { IfErr result (λ stop. dst.new.items ≡ dst.old.items
        ++ join_by (λ v. plain html v.now) between.now (take stop.written values.now)) }
    ensures inside { IfErr result (λ stop. stop.written < length values.now) }
    ensures too_large { IfErr result (λ stop. IfSome (slice_get values.now stop.written) (λ v.
        (stop.reason ≡ EscapeHtmlError.TooLarge (record {}))
        ↔ (usize.MAX < bound html (length v.now)))) }
{
    match append_joined::<{ HTML_MODE }, _, A>(values, between, dst) {
        Ok(()) => Ok(()),
        Err(stop) => Err(ListError {
            written: stop.written,
            reason: EscapeHtmlError::from(stop.reason),
        }),
    }
}
