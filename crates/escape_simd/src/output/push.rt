//! Bytes at the end of a `Vec` that has room for them.
ghost use Rattle.std.specs.Prelude.{◌≡◌, ◌+◌, ◌<◌, ◌≤◌, ◌++◌, length, take, drop, vec_len, vec_capacity};
ghost use Rattle.escape_simd.specs.Modes.{mode_numbered};
ghost use Rattle.escape_simd.specs.Output.{quote_of};

use crate::output::{N, V};
use crate::simd::{Simd, load_vector};
use escape_lanes::simd::mode::is_quoted;
use std::alloc::Allocator;

/// Appends the bytes to a `Vec` that has room for them.
///
/// It tests for room all the same, and returns if there is none: so the compiler removes the call that allocates,
/// and keeps the length in a register.
#[inline(always)]
pub(super) fn push_all<A: Allocator>(dst: &mut Vec<u8, A>, bytes: &[u8])
    requires { vec_len dst.old + length bytes.now ≤ vec_capacity dst.old }
    ensures items { dst.new.items ≡ dst.old.items ++ bytes.now }
    ensures capacity { vec_capacity dst.old ≤ vec_capacity dst.new }
{
    if dst.capacity() - dst.len() < bytes.len() {
        return;
    }
    let Ok(()) = dst.extend_from_slice(bytes) else {
        unreachable!()
    };
}

/// Returns a vector's lanes as an array, to be appended.
#[inline(always)]
pub(super) fn lanes(v: &V) -> [u8; N]
    ensures { result ≡ ⟦<V as Simd>⟧.lanes v.now }
{
    let mut lanes = [0u8; N];
    v.storeu(&mut lanes);
    lanes
}

/// Returns the text's vector at `at` as an array, to be appended. For a slice of the text, which might overlap the
/// target, the compiler would add a copy byte by byte.
#[inline(always)]
pub(super) fn lanes_at(text: &[u8], at: usize) -> [u8; N]
    requires { at + N ≤ length text.now }
    ensures { result ≡ take N (drop at text.now) }
{
    lanes(&load_vector(text, at))
}

/// Appends the quotation mark, if the mode has one.
#[inline(always)]
pub(super) fn push_quote<const MODE: u8, A: Allocator>(dst: &mut Vec<u8, A>)
    requires { vec_len dst.old < vec_capacity dst.old }
    ensures items { dst.new.items ≡ dst.old.items ++ quote_of (mode_numbered MODE) }
    ensures capacity { vec_capacity dst.old ≤ vec_capacity dst.new }
{
    if is_quoted::<MODE>() {
        dst.push_reserved(b'"');
    }
}

/// Appends zeros until the `Vec` has `len` bytes or more. It has room for `len`.
#[inline(always)]
pub(super) fn fill<A: Allocator>(dst: &mut Vec<u8, A>, len: usize)
    requires room { len ≤ vec_capacity dst.old }
    ensures front { take (vec_len dst.old) dst.new.items ≡ dst.old.items }
    ensures filled { (vec_len dst.old ≤ vec_len dst.new) × (len ≤ vec_len dst.new) }
    ensures capacity { vec_capacity dst.old ≤ vec_capacity dst.new }
{
    if dst.len() < len {
        let Ok(()) = dst.resize(len, 0) else {
            unreachable!()
        };
    }
}
