//! What many values append, with a text between each two.
ghost use Rattle.std.specs.Prelude.{◌≡◌, ◌<◌, ◌≤◌, ◌↔◌, ◌++◌, ◌==◌, [], IsUtf8, codes, length, take, All, Any, Err, OnOk, OnErr, IfErr, IfSome, slice_get, vec_len, if◌then◌else◌};
ghost use Rattle.std.specs.List.{join_by};

use crate::piece::Piece;
use escape_simd::output::Refusal;
use std::alloc::Allocator;
use std::fmt;

/// The error of the calls that append a list: which text or part was refused, and why.
///
/// The calls for joined texts keep the outputs before it and the separators between them.
/// [`page_into`](crate::page::page_into) keeps none.
#[derive(Debug, Clone, Copy, PartialEq, Eq)]
pub struct ListError<E> {
    /// The index of the text or part that was refused.
    pub written: usize,
    /// The reason for which it was refused.
    pub reason: E,
}

impl<E: fmt::Display> fmt::Display for ListError<E> {
    ghost use Rattle.std.specs.Prelude.{Some, codes};
    ghost use Rattle.std.specs.Fmt.{◌++?◌, decimal};

    ghost output = { λ e. E.output e.reason
        ++? Some (codes ", after ") ++? Some (decimal e.written) ++? Some (codes " texts") };

    /// Writes the reason and the number, as "out of memory, after 2 texts".
    fn fmt<W: fmt::Write>(&self, f: &mut fmt::Formatter<W>) -> fmt::Result {
        let reason = &self.reason;
        let written = self.written;
        write!(f, "{reason}, after {written} texts")
    }
}

impl<E: std::error::Error> std::error::Error for ListError<E> {}

impl<E: Into<Refusal>> From<ListError<E>> for Refusal {
    ghost from_gives = { λ stop refusal. E.converts stop.reason refusal };

    /// Returns the reason as a [`Refusal`], so that `?` also converts the errors of single texts.
    fn from(stop: ListError<E>) -> Refusal {
        stop.reason.into()
    }
}

/// Appends `between` and the piece. After an error `dst` is unchanged.
fn append_after<const MODE: u8, P: Piece<MODE>, A: Allocator>(
    between: &str,
    piece: &P,
    dst: &mut Vec<u8, A>,
) -> Result<(), Refusal>
    requires mode { MODE ≤ 2 }
    ensures exact { OnOk result (dst.new.items ≡ dst.old.items ++ (between.now ++ P.bytes piece.now)) }
    ensures text { OnOk result (IsUtf8 (P.bytes piece.now)) }
    ensures unchanged { OnErr result (dst.new.items ≡ dst.old.items) }
    ensures too_large { (result ≡ Err Refusal.TooLarge) ↔ (usize.MAX < P.size piece.now) }
    ensures fits { OnOk result (P.size piece.now ≤ usize.MAX) }
{
    if !piece.fits() {
        return Err(Refusal::TooLarge);
    }
    let len = dst.len();
    dst.extend_from_slice(between.as_bytes())?;
    let appended = piece.append_to(dst);
    if appended.is_err() {
        dst.truncate(len);
    }
    appended
}

/// Returns the text to append before piece `count`: none before the first, and `between` before each other one.
fn before(count: usize, between: &str) -> &str
    ensures { result.now ≡ (if count == 0 then [] else between.now) }
{
    if count == 0 { "" } else { between }
}

/// Appends the pieces, with `between` between each two, and stops at the first one that is refused.
pub(crate) fn append_joined<const MODE: u8, P: Piece<MODE>, A: Allocator>(
    pieces: &[P],
    between: &str,
    dst: &mut Vec<u8, A>,
) -> Result<(), ListError<Refusal>>
    requires mode { MODE ≤ 2 }
    ensures exact { OnOk result (dst.new.items
        ≡ dst.old.items ++ join_by P.bytes between.now pieces.now) }
    ensures texts { OnOk result (All (λ piece. IsUtf8 (P.bytes piece)) pieces.now) }
    ensures fits { OnOk result (All (λ piece. P.size piece ≤ usize.MAX) pieces.now) }
    ensures stopped { IfErr result (λ stop. dst.new.items
        ≡ dst.old.items ++ join_by P.bytes between.now (take stop.written pieces.now)) }
    ensures inside { IfErr result (λ stop. stop.written < length pieces.now) }
    ensures too_large { IfErr result (λ stop. IfSome (slice_get pieces.now stop.written) (λ piece.
        (stop.reason ≡ Refusal.TooLarge) ↔ (usize.MAX < P.size piece))) }
{
    'pieces: for (written, piece) in pieces.iter().enumerate() {
        if let Err(reason) = append_after::<MODE, P, A>(before(written, between), piece, dst) {
            return Err(ListError { written, reason });
        }
    }
    Ok(())
}

/// Appends `left`, the pieces with a comma between each two, and `right`. After an error `dst` is unchanged.
pub(crate) fn append_enclosed<const MODE: u8, P: Piece<MODE>, A: Allocator>(
    left: &str,
    pieces: &[P],
    right: &str,
    dst: &mut Vec<u8, A>,
) -> Result<(), Refusal>
    requires mode { MODE ≤ 2 }
    ensures exact { OnOk result (dst.new.items
        ≡ dst.old.items ++ (left.now ++ join_by P.bytes (codes ",") pieces.now ++ right.now)) }
    ensures fits { OnOk result (All (λ piece. P.size piece ≤ usize.MAX) pieces.now) }
    ensures unchanged { OnErr result (dst.new.items ≡ dst.old.items) }
    ensures too_large { result ≡ Err Refusal.TooLarge
        → Any (λ piece. usize.MAX < P.size piece) pieces.now }
{
    let len = dst.len();
    let appended = append_parts::<MODE, P, A>(left, pieces, right, dst);
    if appended.is_err() {
        dst.truncate(len);
    }
    appended
}

/// Appends what [`append_enclosed`] appends. After an error `dst` keeps what was appended before it.
fn append_parts<const MODE: u8, P: Piece<MODE>, A: Allocator>(
    left: &str,
    pieces: &[P],
    right: &str,
    dst: &mut Vec<u8, A>,
) -> Result<(), Refusal>
    requires mode { MODE ≤ 2 }
    ensures exact { OnOk result (dst.new.items
        ≡ dst.old.items ++ (left.now ++ join_by P.bytes (codes ",") pieces.now ++ right.now)) }
    ensures fits { OnOk result (All (λ piece. P.size piece ≤ usize.MAX) pieces.now) }
    ensures front { take (vec_len dst.old) dst.new.items ≡ dst.old.items }
    ensures too_large { result ≡ Err Refusal.TooLarge
        → Any (λ piece. usize.MAX < P.size piece) pieces.now }
{
    dst.extend_from_slice(left.as_bytes())?;
    if let Err(stop) = append_joined::<MODE, P, A>(pieces, ",", dst) {
        return Err(stop.reason);
    }
    dst.extend_from_slice(right.as_bytes())?;
    Ok(())
}
