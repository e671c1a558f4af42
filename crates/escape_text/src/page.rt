//! Pages: markup, with texts and script values in it.
ghost use Rattle.std.specs.Prelude.{◌≡◌, ◌<◌, ◌↔◌, ◌++◌, IsUtf8, length, string_bytes, slice_get, OnOk, OnErr, IfOk, IfErr, IfSome};
ghost use Rattle.escape_text.specs.Page.{bytes_of_part, bound_of_part, page_of, template_of, tags_of};

use crate::list::{ListError, append_joined};
use crate::piece::Piece;
use escape_simd::Refusal;
use escape_simd::simd::{HTML_MODE, SCRIPT_MODE};
use std::alloc::Allocator;

/// A part of a page.
#[derive(Debug, Clone, Copy, PartialEq, Eq)]
pub enum Part<'a> {
    /// Markup, which stands on the page as it is. Do not take it from input that you do not trust.
    Markup(&'a str),
    /// A text, which is escaped as HTML. It can stand between tags, and in an attribute between quotation marks.
    Text(&'a str),
    /// A text, which becomes a JSON string literal with its quotation marks. It can stand in a script element.
    Script(&'a str),
}

impl<const MODE: u8> Piece<MODE> for Part<'_> {
    ghost bytes = { bytes_of_part };

    ghost size = { bound_of_part };

    fn fits(&self) -> bool {
        match self {
            Part::Markup(_) => true,
            Part::Text(text) => Piece::<{ HTML_MODE }>::fits(text),
            Part::Script(text) => Piece::<{ SCRIPT_MODE }>::fits(text),
        }
    }

    fn append_to<A: Allocator>(&self, dst: &mut Vec<u8, A>) -> Result<(), Refusal> {
        match self {
            Part::Markup(markup) => append_markup(markup, dst),
            Part::Text(text) => Piece::<{ HTML_MODE }>::append_to(text, dst),
            Part::Script(text) => Piece::<{ SCRIPT_MODE }>::append_to(text, dst),
        }
    }
}

/// Appends markup as it is.
fn append_markup<A: Allocator>(markup: &str, dst: &mut Vec<u8, A>) -> Result<(), Refusal>
    ensures exact { OnOk result (dst.new.items ≡ dst.old.items ++ markup.now) }
    ensures text { IsUtf8 markup.now }
    ensures unchanged { OnErr result (dst.new.items ≡ dst.old.items) }
    ensures memory { IfErr result (λ refusal. refusal ≡ Refusal.OutOfMemory) }
{
    dst.extend_from_slice(markup.as_bytes())?;
    Ok(())
}

/// Appends the parts to `dst`, one after another: markup as it is, each text as
/// [`escape_html`](escape_simd::html::escape_html) returns it, and each script value as
/// [`escape_script`](escape_simd::json::escape_script) does. The `<` and `>` that are appended are those of the markup,
/// in order, whatever the texts and script values are.
///
/// For each part it reserves its length, or `6 * n + 35` bytes for a text of `n` bytes, if `dst` has less room.
///
/// # Errors
///
/// A [`ListError`]: the part with the index `written` was refused for `reason`, which is
/// [`TooLarge`](Refusal::TooLarge) only if `6 * n + 35` (HTML: `6 * n + 32`) exceeds `usize::MAX`. `dst` keeps the bytes
/// that it had, and has no others.
///
/// ```rust
/// page_into(&[Part::Markup("<b>"), Part::Text("<")], &mut page)?; // <b>&lt;
/// ```
pub fn page_into<A: Allocator>(
    parts: &[Part<'_>],
    dst: &mut Vec<u8, A>,
) -> Result<(), ListError<Refusal>>
    ensures exact { OnOk result (dst.new.items ≡ dst.old.items ++ page_of parts.now) }
    ensures tags { OnOk result (tags_of dst.new.items
        ≡ tags_of (dst.old.items ++ template_of parts.now)) }
    ensures text { OnOk result (IsUtf8 (page_of parts.now)) }
    ensures unchanged { OnErr result (dst.new.items ≡ dst.old.items) }
    ensures inside { IfErr result (λ stop. stop.written < length parts.now) }
    ensures too_large { IfErr result (λ stop. IfSome (slice_get parts.now stop.written) (λ part.
        (stop.reason ≡ Refusal.TooLarge) ↔ (usize.MAX < bound_of_part part))) }
{
    let len = dst.len();
    // Each part has a mode of its own, so any number serves.
    let appended = append_joined::<{ HTML_MODE }, _, A>(parts, "", dst);
    if appended.is_err() {
        dst.truncate(len);
    }
    appended
}

/// Returns a page of the parts, as [`page_into`] appends it.
///
/// Memory and errors are as in [`page_into`].
///
/// ```rust
/// let text = page(rt.alloc(), &[Part::Markup("<b>"), Part::Text("&")])?; // <b>&amp;
/// ```
pub fn page<A: Allocator>(alloc: A, parts: &[Part<'_>]) -> Result<String<A>, ListError<Refusal>>
    ensures exact { IfOk result (λ page. string_bytes page ≡ page_of parts.now) }
    ensures tags { IfOk result (λ page. tags_of (string_bytes page) ≡ tags_of (template_of parts.now)) }
    ensures inside { IfErr result (λ stop. stop.written < length parts.now) }
    ensures too_large { IfErr result (λ stop. IfSome (slice_get parts.now stop.written) (λ part.
        (stop.reason ≡ Refusal.TooLarge) ↔ (usize.MAX < bound_of_part part))) }
{
    let mut bytes = Vec::new(alloc);
    page_into(parts, &mut bytes)?;
    // Markup and outputs are text.
    Ok(unsafe { String::from_utf8_unchecked(bytes) })
}
