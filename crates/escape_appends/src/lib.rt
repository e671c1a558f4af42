//! The calls that C can't make, those that take memory, a writer or a reader, for `c/tests/appends.c`. It is for tests
//! alone.
#![tactic(auto)]

mod appends;

use appends::{KERNELS, MODES, differing_call, runs_write};
use std::alloc::Global;
use std::str;

/// Returns 0 if each call of the mode numbered writes `output` for the text, where vectors and strings have this spare
/// capacity, and a run by some kernel does. Else it returns 1 and the number of the first call that does not, 99 if the
/// run does not, and 100 if the text is not UTF-8.
#[unsafe(no_mangle)]
pub extern "C" fn first_wrong_append(
    alloc: Global,
    mode: u32,
    text: &[u8],
    output: &[u8],
    spare: usize,
) -> u32 {
    let mode = MODES[mode as usize % 3];
    let Ok(text) = str::from_utf8(text) else {
        return 100;
    };
    if let Some(call) = differing_call(alloc, mode, text, output, spare) {
        return 1 + call as u32;
    }
    if runs_write(alloc, KERNELS[spare % 5], mode, text, output) {
        0
    } else {
        99
    }
}
