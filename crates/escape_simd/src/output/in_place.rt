//! Escaping in place: the `Vec` is filled with zeros ahead of what is written.
ghost use Rattle.std.specs.Prelude.{◌≡◌, ◌+◌, ◌*◌, ◌≤◌, ◌++◌, length, vec_len, vec_capacity};
ghost use Rattle.escape_simd.specs.Modes.{mode_numbered};
ghost use Rattle.escape_simd.specs.Output.{inner, quote_of};
ghost use Rattle.escape_simd.specs.Stretch.{AreTailMasks};

use crate::output::push::{fill, push_all, push_quote};
use crate::output::{N, V};
use crate::simd::{escape_flagged, escape_to_slice};
use escape_lanes::simd::escape_mask::EscapeMask;
use escape_lanes::simd::lane_bits::count_flagged;
use std::alloc::Allocator;

/// The largest number of bytes of a text that are escaped at a time: so the zeros for them are still in the first
/// cache.
const PIECE: usize = 2048;

/// How many zeros are enough for most short texts: a text's own bytes, five more for each escape, and a vector.
const FEW_ZEROS: usize = 128;

/// Appends what stands for a text shorter than two vectors, by its masks, and the last quotation mark. Some byte is
/// flagged.
#[inline(never)]
pub(super) fn append_flagged<const MODE: u8, A: Allocator>(
    text: &[u8],
    first: EscapeMask<MODE>,
    last: EscapeMask<MODE>,
    dst: &mut Vec<u8, A>,
)
    requires masks { AreTailMasks N text.now first last }
    requires room { vec_len dst.old + 6 * length text.now + N ≤ vec_capacity dst.old }
    ensures { dst.new.items ≡ dst.old.items
        ++ (inner (mode_numbered MODE) text.now ++ quote_of (mode_numbered MODE)) }
{
    let old = dst.len();
    let most = text.len() + 5 * (count_flagged(first.bits()) + count_flagged(last.bits())) + N;
    if FEW_ZEROS < most || dst.capacity() - old < FEW_ZEROS {
        return append_over_bound::<MODE, A>(text, first, last, dst);
    }
    push_all(dst, &[0; FEW_ZEROS]);
    let end = escape_flagged::<V, MODE, false, N>(text, first, last, dst, old);
    dst.truncate(end);
    push_quote::<MODE, A>(dst);
}

/// As [`append_flagged`], over zeros for the bound. Apart, so that where fewer are enough no register is saved.
#[inline(never)]
fn append_over_bound<const MODE: u8, A: Allocator>(
    text: &[u8],
    first: EscapeMask<MODE>,
    last: EscapeMask<MODE>,
    dst: &mut Vec<u8, A>,
)
    requires masks { AreTailMasks N text.now first last }
    requires room { vec_len dst.old + 6 * length text.now + N ≤ vec_capacity dst.old }
    ensures { dst.new.items ≡ dst.old.items
        ++ (inner (mode_numbered MODE) text.now ++ quote_of (mode_numbered MODE)) }
{
    let old = dst.len();
    fill(dst, old + 6 * text.len() + N);
    let end = escape_flagged::<V, MODE, false, N>(text, first, last, dst, old);
    dst.truncate(end);
    push_quote::<MODE, A>(dst);
}

/// Appends what stands for the text, and the last quotation mark, piece by piece.
#[inline(never)]
pub(super) fn append_in_place<const MODE: u8, A: Allocator>(value: &str, dst: &mut Vec<u8, A>)
    requires { vec_len dst.old + 6 * length value.now + N ≤ vec_capacity dst.old }
    ensures { dst.new.items ≡ dst.old.items
        ++ (inner (mode_numbered MODE) value.now ++ quote_of (mode_numbered MODE)) }
{
    let mut rest = value;
    let mut end = dst.len();
    'pieces: while PIECE < rest.len() {
        let (piece, behind) = rest.split_at(rest.floor_char_boundary(PIECE));
        fill(dst, end + 6 * piece.len() + N);
        end = escape_to_slice::<V, MODE, false, N>(piece.as_bytes(), dst, end);
        rest = behind;
    }
    fill(dst, end + 6 * rest.len() + N);
    let close = escape_to_slice::<V, MODE, false, N>(rest.as_bytes(), dst, end);
    dst.truncate(close);
    push_quote::<MODE, A>(dst);
}
