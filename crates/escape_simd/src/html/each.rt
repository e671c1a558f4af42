//! Many texts, one after another.
ghost use Rattle.std.specs.Prelude.{◌≡◌, ◌<◌, ◌≤◌, ◌↔◌, ◌++◌, length, map, take, All, IfErr, OnOk, IfSome, slice_get};
ghost use Rattle.std.specs.List.{concat};
ghost use Rattle.escape_lanes.specs.Mode.{html};
ghost use Rattle.escape_simd.specs.Output.{plain, bound};

use crate::html::EscapeHtmlError;
use crate::output::append;
use crate::simd::HTML_MODE;
use std::alloc::Allocator;

/// Appends the outputs of the texts to `dst`, one after another, each as [`escape_html`](crate::html::escape_html)
/// returns it. The call stops at the first text that is refused.
///
/// For each text of `n` bytes it reserves `6 * n + 32` bytes if `dst` has less room, from the allocator of `dst`.
///
/// # Errors
///
/// `(k, error)`: the first `k` texts were appended, and text `k` (counted from 0) was refused for the reason `error`,
/// an [`EscapeHtmlError`]. `dst` then has the bytes that it had before, and the outputs of these `k` texts.
///
/// ```rust
/// escape_html_each(&["<", "", "a&"], &mut page)?; // &lt;a&amp;
/// ```
pub fn escape_html_each<A: Allocator>(
    values: &[&str],
    dst: &mut Vec<u8, A>,
) -> Result<(), (usize, EscapeHtmlError)>
    ensures exact { OnOk result (dst.new.items
        ≡ dst.old.items ++ plain html (concat (map (λ v. v.now) values.now))) }
    ensures fits { OnOk result (All (λ v. bound html (length v.now) ≤ usize.MAX) values.now) }
    ensures stopped { IfErr result (λ refusal. dst.new.items
        ≡ dst.old.items ++ plain html (concat (take refusal.0 (map (λ v. v.now) values.now)))) }
    ensures inside { IfErr result (λ refusal. refusal.0 < length values.now) }
    ensures too_large { IfErr result (λ refusal. IfSome (slice_get values.now refusal.0) (λ v.
        (refusal.1 ≡ EscapeHtmlError.TooLarge (record {}))
        ↔ (usize.MAX < bound html (length v.now)))) }
{
    for (count, value) in values.iter().enumerate() {
        if let Err(refusal) = append::<{ HTML_MODE }, A>(value, dst) {
            return Err((count, EscapeHtmlError::from(refusal)));
        }
    }
    Ok(())
}
