//! Appending what stands for a text's bytes, and the last quotation mark, to a `Vec` that has room for them.
//!
//! Each form appends that quotation mark itself, so that it is its caller's tail call.
ghost use Rattle.std.specs.Prelude.{◌≡◌, ◌+◌, ◌*◌, ◌<◌, ◌≤◌, ◌++◌, length, vec_len, vec_capacity};
ghost use Rattle.escape_simd.specs.Modes.{mode_numbered};
ghost use Rattle.escape_simd.specs.Output.{inner, quote_of};

use crate::output::in_place::{append_flagged, append_in_place};
use crate::output::push::{lanes, lanes_at, push_all, push_quote};
use crate::output::{N, V};
use crate::simd::{classify_pair, classify_short};
use escape_lanes::simd::escape_mask::{classify, classify_four};
use escape_lanes::simd::target::Ticks;
use std::alloc::Allocator;

/// Appends what stands for a text shorter than two vectors, and the last quotation mark: from registers if no byte
/// is flagged.
#[inline(always)]
pub(super) fn append_last<const MODE: u8, A: Allocator>(text: &[u8], dst: &mut Vec<u8, A>)
    requires few { length text.now < 2 * N }
    requires room { vec_len dst.old + 6 * length text.now + N ≤ vec_capacity dst.old }
    ensures { dst.new.items ≡ dst.old.items
        ++ (inner (mode_numbered MODE) text.now ++ quote_of (mode_numbered MODE)) }
{
    let (count, len) = (text.len(), dst.len());
    let masks = if count < N {
        if count == 0 {
            return push_quote::<MODE, A>(dst);
        }
        let (v, masks) = classify_short::<V, MODE, N>(text, &mut Ticks::new());
        if masks.are_clear() {
            push_all(dst, &lanes(&v));
            dst.truncate(len + count);
            return push_quote::<MODE, A>(dst);
        }
        masks
    } else {
        let masks = classify_pair::<V, MODE, N>(text, &mut Ticks::new());
        if masks.are_clear() {
            let last = count - N;
            push_all(dst, &lanes_at(text, 0));
            // The last vector overlaps the first one.
            dst.truncate(len + last);
            push_all(dst, &lanes_at(text, last));
            return push_quote::<MODE, A>(dst);
        }
        masks
    };
    append_flagged::<MODE, A>(text, masks.first, masks.last, dst);
}

/// Appends what stands for a text of any length, and the last quotation mark: its clean front as it is, and then
/// the rest.
#[inline(never)]
pub(super) fn append_long<const MODE: u8, A: Allocator>(value: &str, dst: &mut Vec<u8, A>)
    requires { vec_len dst.old + 6 * length value.now + N ≤ vec_capacity dst.old }
    ensures { dst.new.items ≡ dst.old.items
        ++ (inner (mode_numbered MODE) value.now ++ quote_of (mode_numbered MODE)) }
{
    let text = value.as_bytes();
    let mut at = 0;
    'chunks: while 5 * N <= text.len() - at {
        let clear = classify_four::<V, MODE, N>(text, at, &mut Ticks::new()).4;
        if !clear {
            break;
        }
        let rows = [
            lanes_at(text, at),
            lanes_at(text, at + N),
            lanes_at(text, at + 2 * N),
            lanes_at(text, at + 3 * N),
        ];
        push_all(dst, rows.as_flattened());
        at += 4 * N;
    }
    'vectors: while 2 * N <= text.len() - at {
        if !classify::<V, MODE, N>(text, at, &mut Ticks::new()).is_clear() {
            // The rest begins with a whole character.
            let (front, rest) = value.split_at(value.floor_char_boundary(at));
            dst.truncate(dst.len() - (at - front.len()));
            return append_in_place::<MODE, A>(rest, dst);
        }
        push_all(dst, &lanes_at(text, at));
        at += N;
    }
    append_last::<MODE, A>(&text[at..], dst);
}
