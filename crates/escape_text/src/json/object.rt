//! JSON objects whose values are texts.
ghost use Rattle.std.specs.Prelude.{◌≡◌, ◌<◌, ◌≤◌, ◌++◌, codes, All, Any, Err, OnOk, OnErr};
ghost use Rattle.escape_lanes.specs.Mode.{json};
ghost use Rattle.escape_simd.specs.Modes.{mode_numbered};
ghost use Rattle.escape_text.specs.Record.{member_of, bound_of_member, object_of};

use crate::list::append_enclosed;
use crate::piece::Piece;
use escape_simd::Refusal;
use escape_simd::json::EscapeError;
use escape_simd::simd::JSON_MODE;
use std::alloc::Allocator;

impl<const MODE: u8> Piece<MODE> for (&str, &str) {
    ghost bytes = { member_of (mode_numbered MODE) };

    ghost size = { bound_of_member (mode_numbered MODE) };

    fn fits(&self) -> bool {
        Piece::<MODE>::fits(&self.0) && Piece::<MODE>::fits(&self.1)
    }

    fn append_to<A: Allocator>(&self, dst: &mut Vec<u8, A>) -> Result<(), Refusal> {
        Piece::<MODE>::append_to(&self.0, dst)?;
        dst.push(b':')?;
        Piece::<MODE>::append_to(&self.1, dst)?;
        Ok(())
    }
}

/// Appends a JSON object (RFC 8259, section 4) to `dst`: for each field its key, a colon and its value, both as
/// [`escape`](escape_simd::json::escape) returns them. Nothing is said of keys that are equal: readers differ there.
///
/// For each text of `n` bytes it reserves `6 * n + 35` bytes if `dst` has less room, and room for the braces, colons and
/// commas.
///
/// # Errors
///
/// The error for the first field that is refused, or `OutOfMemory` for a brace, a colon or a comma. It is `TooLarge` only
/// if `6 * n + 35` exceeds `usize::MAX` for a text. `dst` keeps the bytes that it had, and has no others.
///
/// ```rust
/// object_into(&[("name", "Ann"), ("note", "\n")], &mut line)?; // {"name":"Ann","note":"\n"}
/// ```
pub fn object_into<A: Allocator>(
    fields: &[(&str, &str)],
    dst: &mut Vec<u8, A>,
) -> Result<(), EscapeError>
    ensures exact { OnOk result (dst.new.items ≡ dst.old.items ++ object_of json fields.now) }
    ensures fits { OnOk result (All (λ field. bound_of_member json field ≤ usize.MAX) fields.now) }
    ensures unchanged { OnErr result (dst.new.items ≡ dst.old.items) }
    ensures too_large { result ≡ Err EscapeError.TooLarge
        → Any (λ field. usize.MAX < bound_of_member json field) fields.now }
{
    Ok(append_enclosed::<{ JSON_MODE }, _, A>("{", fields, "}", dst)?)
}

/// Appends a JSON object and a line feed. The object itself has none, so it is one line of JSON lines.
///
/// Memory and errors are as in [`object_into`].
///
/// ```rust
/// object_line_into(&[("message", "a\nb")], &mut line)?; // {"message":"a\nb"}⏎
/// ```
pub fn object_line_into<A: Allocator>(
    fields: &[(&str, &str)],
    dst: &mut Vec<u8, A>,
) -> Result<(), EscapeError>
    ensures exact { OnOk result (dst.new.items
        ≡ dst.old.items ++ (object_of json fields.now ++ codes "\n")) }
    ensures fits { OnOk result (All (λ field. bound_of_member json field ≤ usize.MAX) fields.now) }
    ensures unchanged { OnErr result (dst.new.items ≡ dst.old.items) }
    ensures too_large { result ≡ Err EscapeError.TooLarge
        → Any (λ field. usize.MAX < bound_of_member json field) fields.now }
{
    Ok(append_enclosed::<{ JSON_MODE }, _, A>("{", fields, "}\n", dst)?)
}
