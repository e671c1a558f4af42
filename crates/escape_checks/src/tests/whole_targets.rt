//! The whole targets that the ways to a kernel leave.

use crate::routes::{Way, format, lanes};
use crate::tests::texts::all_are;
use crate::writers::UNTOUCHED;
use escape_simd::Kernel;
use escape_stream::Mode;
use std::process::Abort;

/// Asserts that one kernel writes what stands for the text, into a target of the bound and `more` bytes; that it writes
/// nothing from the bound on, nor from a vector past the last byte on; and that all ways to it leave the same whole
/// target.
pub fn assert_written_by(
    rt: &(impl Abort + AllocGlobal),
    kernel: Kernel,
    mode: Mode,
    text: &str,
    more: usize,
    wanted: &[u8],
) {
    let target = whole_target(rt, Way::Target, kernel, mode, text, more);
    let slice = whole_target(rt, Way::Slice, kernel, mode, text, more);
    let named = whole_target(rt, Way::Named, kernel, mode, text, more);
    let value = whole_target(rt, Way::Value, kernel, mode, text, more);
    let bound = target.1.len().saturating_sub(more);
    let end = bound.min(target.0.saturating_add(lanes(kernel)));
    let is_right = is_written(&target.1, target.0, end, wanted)
        && slice == target
        && named == target
        && value == target;
    assert!(rt; is_right, "{kernel:?} {mode:?} {text}");
}

/// How many bytes of a target this way to the kernel writes, and the whole target.
fn whole_target(
    rt: &(impl Abort + AllocGlobal),
    way: Way,
    kernel: Kernel,
    mode: Mode,
    text: &str,
    more: usize,
) -> (usize, Vec<u8>) {
    let room = mode.capacity(text.len()).expect(rt, "too large");
    let mut target = vec![in rt.alloc(); UNTOUCHED; room.saturating_add(more)].expect(
        rt,
        "no memory",
    );
    let count = format(way, kernel, mode, text, &mut target);
    (count, target)
}

/// Whether the first `count` bytes are the output, and none from `end` on was written.
pub fn is_written(target: &[u8], count: usize, end: usize, output: &[u8]) -> bool {
    match target.get(end..) {
        Some(rest) => target.get(..count) == Some(output) && all_are(rest, UNTOUCHED),
        None => false,
    }
}
