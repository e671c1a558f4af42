//! What stands for a byte that needs an escape, and the run of escapes.
ghost use Rattle.std.specs.Prelude.{◌≡◌, ◌+◌, ◌-◌, ◌*◌, ◌<◌, ◌≤◌, ◌++◌, IsTrue, length, take, drop, slice_index, slice_range};
ghost use Rattle.escape_lanes.specs.Mode.{mode_of};
ghost use Rattle.escape_lanes.specs.Replacement.{needs_escape};
ghost use Rattle.escape_lanes.specs.Written.{bytes_of, stored_of, escaped_of, quotes_of, IsSameSlice};
ghost use Rattle.escape_simd.specs.Modes.{mode_numbered};
ghost use Rattle.escape_simd.specs.Output.{inner, source_len};
ghost use Rattle.escape_simd.specs.Stretch.{EscapedRun, HasRunRoom, IsFlaggedAt, Stretch, run_end, run_reach};

mod run;

use crate::simd::separator::{is_separator, separator_entry};
use crate::simd::{HTML_MODE, JSON_MODE};
use escape_lanes::simd::mode::entry;
use escape_lanes::simd::target::Target;
pub(crate) use run::{Entries, RunEnd};

/// Writes what stands for the byte at `at`, which needs an escape, or for the separator that begins
/// with it. Returns the place after it in the text, and the place after what was written.
#[inline]
pub(crate) fn escape<const MODE: u8, const N: usize>(
    src: &[u8],
    at: usize,
    target: &mut Target<'_, N>,
    to: usize,
) -> (usize, usize)
    requires flagged { IsFlaggedAt (mode_numbered MODE) src.now at }
    requires room { to + 8 ≤ length (bytes_of target.old) }
    ensures stretch { Stretch (mode_numbered MODE) (run_reach (mode_numbered MODE))
        src.now target.old target.new (at, to) result }
    ensures place { result.0 ≡ at + source_len (mode_numbered MODE) (drop at src.now) }
    ensures stored { stored_of target.new ≡ stored_of target.old }
{
    if is_separator::<MODE>(src, at) {
        target.escape(to, separator_entry(src[at + 2]));
        return (at + 3, to + 6);
    }
    let entry = entry::<MODE>(src[at]);
    // The length is read first: a load after the write would wait for it.
    let end = to + entry.0 as usize;
    target.escape(to, &entry.1);
    (at + 1, end)
}

/// Escapes the run that goes on at `at`, as far as `run` tells, which it does of the bytes before `stop`. Returns
/// the places after it.
#[inline(always)]
pub(crate) fn escape_run<F: RunEnd<MODE>, const MODE: u8, const N: usize>(
    src: &[u8],
    stop: usize,
    at: usize,
    run: &mut F,
    target: &mut Target<'_, N>,
    to: usize,
) -> (usize, usize)
    requires { F.goes run.old src.now stop at
        × HasRunRoom (mode_numbered MODE) src.now at stop to (length (bytes_of target.old)) }
    ensures escaped { EscapedRun (mode_numbered MODE) src.now target.old target.new at result.0 to result.1 }
    ensures some { at < result.0 }
    ensures ended { F.ends run.new src.now stop result.0 }
{
    let mut next = at;
    let mut end = to;
    'run: loop {
        let (after, after_end) = escape::<MODE, N>(src, next, target, end);
        if !run.goes_on(src, stop, after) {
            return (after, after_end);
        }
        next = after;
        end = after_end;
    }
}

/// Writes the replacements of the bytes of `src` that need an escape from `at` on, up to the first
/// byte that needs none or the end, to `target` from `to` on. Returns that place of `src`, and the
/// place in the target after the last replacement.
///
/// The byte at `at` must need an escape, and the target must hold, from `to` on, six bytes for each
/// byte of `src` from `at` on, and two more. No byte before `to` changes, and none that is six or
/// more past the last replacement.
#[inline(always)]
pub fn escape_unchecked<const HTML: bool, const N: usize>(
    src: &[u8],
    at: usize,
    target: &mut Target<'_, N>,
    to: usize,
) -> (usize, usize)
    requires inside { at < length src.now }
    requires needed { IsTrue (needs_escape (mode_of HTML) (slice_index src.now at)) }
    requires room { to + 6 * (length src.now - at) + 2 ≤ length (bytes_of target.old) }
    ensures same_slice { IsSameSlice target.old target.new }
    ensures place { result.0 ≡ run_end (mode_of HTML) src.now at }
    ensures end { result.1 ≡ to + length (inner (mode_of HTML) (slice_range src.now at result.0)) }
    ensures written { take result.1 (bytes_of target.new)
        ≡ take to (bytes_of target.old) ++ inner (mode_of HTML)
        (slice_range src.now at result.0) }
    ensures kept { drop (result.1 + 6) (bytes_of target.new)
        ≡ drop (result.1 + 6) (bytes_of target.old) }
    ensures escaped { escaped_of target.new ≡ escaped_of target.old + (result.0 - at) }
    ensures stored { stored_of target.new ≡ stored_of target.old }
    ensures quotes { quotes_of target.new ≡ quotes_of target.old }
{
    let stop = src.len();
    if HTML {
        return escape_run::<Entries, { HTML_MODE }, N>(src, stop, at, &mut Entries, target, to);
    }
    escape_run::<Entries, { JSON_MODE }, N>(src, stop, at, &mut Entries, target, to)
}
