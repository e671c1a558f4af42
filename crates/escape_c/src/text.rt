//! The calls that escape a text into a buffer which has the bound.
ghost use Rattle.std.specs.Prelude.{◌≡◌, ◌≢◌, ◌≤◌, ◌<◌, ◌↔◌, ◌^◌, length, IsUtf8, true, false, Err, IfOk, OnErr, IsOk};
ghost use Rattle.escape_simd.specs.Modes.{escaping, mode_numbered};
ghost use Rattle.escape_simd.specs.Output.{bound};
ghost use Rattle.escape_c.specs.declared.call.Refusal.{Refusal};
ghost use Rattle.escape_c.specs.Call.{kernel_numbered, Answers, Escapes, EscapesInner, NamesKernel, NamesMode, RefusesCall};

use crate::call::{Refusal, as_text, mode_of_number, status};
use escape_simd::{Kernel, Mode, format_inner, format_text};
use std::str;

/// Returns the kernel that the number names: 0 names the default one.
fn kernel_of_number(kernel: u32) -> Result<Kernel, Refusal>
    ensures kernel { IfOk result (λ k. k ≡ kernel_numbered kernel) }
    ensures ok { IsOk result ↔ NamesKernel kernel }
    ensures err { OnErr result (result ≡ Err Refusal.NoKernel) }
{
    match kernel {
        0 | 4 => Ok(Kernel::Avx2),
        1 => Ok(Kernel::V128),
        2 => Ok(Kernel::Sse2),
        3 => Ok(Kernel::Neon),
        5 => Ok(Kernel::Avx512),
        _ => Err(Refusal::NoKernel),
    }
}

/// Returns the mode and the kernel, if their numbers, the size and the buffer allow the call.
fn chosen(mode: u32, kernel: u32, len: usize, room: usize) -> Result<(Mode, Kernel), Refusal>
    ensures mode { IfOk result (λ chosen. escaping chosen.0 ≡ mode_numbered mode) }
    ensures kernel { IfOk result (λ chosen. chosen.1 ≡ kernel_numbered kernel) }
    ensures ok { IsOk result
        ↔ (NamesMode mode × (NamesKernel kernel × (bound (mode_numbered mode) len ≤ room))) }
    ensures no_mode { (result ≡ Err Refusal.NoMode) ↔ RefusesCall mode kernel len room Refusal.NoMode }
    ensures no_kernel { (result ≡ Err Refusal.NoKernel) ↔ RefusesCall mode kernel len room Refusal.NoKernel }
    ensures too_large { (result ≡ Err Refusal.TooLarge) ↔ RefusesCall mode kernel len room Refusal.TooLarge }
    ensures too_short { (result ≡ Err Refusal.TooShort) ↔ RefusesCall mode kernel len room Refusal.TooShort }
    ensures not_utf8 { result ≢ Err Refusal.NotUtf8 }
{
    let mode = mode_of_number(mode)?;
    let kernel = kernel_of_number(kernel)?;
    let bound = mode.capacity(len).ok().ok_or(Refusal::TooLarge)?;
    if room < bound {
        return Err(Refusal::TooShort);
    }
    Ok((mode, kernel))
}

/// The largest text, in bytes, of which [`is_usual`] asks whether it is ASCII, so that [`escape`] need not.
const SHORT: usize = 64;

/// Returns whether the call is usual: by the default kernel, of a known text or a short ASCII one, and not refused.
#[inline(always)]
fn is_usual(mode: u32, kernel: u32, text: &[u8], is_known: bool, room: usize) -> bool
    requires { is_known ≡ true → IsUtf8 text.now }
    ensures { result ≡ true → (NamesMode mode × ((kernel ≡ 0)
        × (IsUtf8 text.now × (bound (mode_numbered mode) (length text.now) ≤ room)))) }
{
    // Of less than 2^60 bytes no bound overflows, which the compiler sees.
    kernel == 0
        && text.len() < 1 << 60
        && (is_known || text.len() <= SHORT && text.is_ascii())
        && chosen(mode, kernel, text.len(), room).is_ok()
}

/// Escapes the text to the front of `buffer`, with quotation marks or, if `is_inner`, without. The text is checked
/// unless `is_known` says that it is one. The exports do the usual calls themselves: they need no frame then.
#[tactic(auto, using(crate::proofs::PieceLemmas::bound_least, crate::proofs::PieceLemmas::joins_pieces))]
#[inline(never)]
fn escape(
    mode: u32,
    kernel: u32,
    text: &[u8],
    is_known: bool,
    is_inner: bool,
    buffer: &mut [u8],
    count: &mut usize,
) -> u32
    requires { is_known ≡ true → IsUtf8 text.now }
    ensures answers { Answers mode kernel text.now buffer.old buffer.new count.new result }
    ensures escapes { result ≡ 0 → is_inner ≡ false
        → Escapes mode kernel text.now buffer.old buffer.new count.new }
    ensures inner { result ≡ 0 → is_inner ≡ true
        → EscapesInner mode kernel text.now buffer.old buffer.new count.new }
{
    let is_ascii_asked = kernel == 0 && text.len() <= SHORT;
    let written = match chosen(mode, kernel, text.len(), buffer.len()) {
        Ok((mode, kernel)) => match as_text(text, is_known, is_ascii_asked) {
            Ok(text) if is_inner => Ok(format_inner(kernel, mode, text, buffer)),
            Ok(text) => Ok(format_text(kernel, mode, text, buffer)),
            Err(why) => Err(why),
        },
        Err(why) => Err(why),
    };
    status(written, count)
}

/// Returns the bound, how many bytes a buffer must have for a text of `length` bytes: `6 * length + 35`, in HTML
/// `6 * length + 32`. Returns 0 where that exceeds `SIZE_MAX`, and if no mode has the number `mode`.
#[unsafe(no_mangle)]
pub extern "C" fn escape_bound(mode: u32, length: usize) -> usize
    ensures exact { NamesMode mode → bound (mode_numbered mode) length < 2 ^ 64
        → result ≡ bound (mode_numbered mode) length }
    ensures too_large { 2 ^ 64 ≤ bound (mode_numbered mode) length → result ≡ 0 }
    ensures no_mode { ¬ (NamesMode mode) → result ≡ 0 }
{
    match mode_of_number(mode) {
        Ok(mode) => mode.capacity(length).unwrap_or(0),
        Err(_) => 0,
    }
}

/// Writes the output of the text in the mode numbered `mode` to the front of `buffer`, by the kernel numbered
/// `kernel`, and its length to `count`. Returns the status.
///
/// # Errors
///
/// The status is that of the first: 5, there is no such mode; 4, no such kernel; 3, the bound exceeds `SIZE_MAX`;
/// 2, `buffer` is shorter than the bound; 1, the text is not UTF-8. `buffer` is then unchanged, and `count` is 0.
#[unsafe(no_mangle)]
pub extern "C" fn escape_text(
    mode: u32,
    kernel: u32,
    text: &[u8],
    buffer: &mut [u8],
    count: &mut usize,
) -> u32
    ensures answers { Answers mode kernel text.now buffer.old buffer.new count.new result }
    ensures escapes { result ≡ 0 → Escapes mode kernel text.now buffer.old buffer.new count.new }
{
    if is_usual(mode, kernel, text, false, buffer.len()) {
        return status(Ok(escape_write(mode, text, buffer)), count);
    }
    escape(mode, kernel, text, false, false, buffer, count)
}

/// Does what [`escape_text`] does, for a text that the caller knows to be UTF-8. It returns no 1.
#[unsafe(no_mangle)]
pub extern "C" fn escape_text_unchecked(
    mode: u32,
    kernel: u32,
    text: &[u8],
    buffer: &mut [u8],
    count: &mut usize,
) -> u32
    requires { IsUtf8 text.now }
    ensures answers { Answers mode kernel text.now buffer.old buffer.new count.new result }
    ensures escapes { result ≡ 0 → Escapes mode kernel text.now buffer.old buffer.new count.new }
{
    if is_usual(mode, kernel, text, true, buffer.len()) {
        return status(Ok(escape_write(mode, text, buffer)), count);
    }
    escape(mode, kernel, text, true, false, buffer, count)
}

/// Does what [`escape_text`] does, without the quotation marks, for a piece of a longer text that is cut between two
/// characters: a quotation mark, the outputs of the pieces and a quotation mark are the output of the whole.
#[unsafe(no_mangle)]
pub extern "C" fn escape_inner(
    mode: u32,
    kernel: u32,
    text: &[u8],
    buffer: &mut [u8],
    count: &mut usize,
) -> u32
    ensures answers { Answers mode kernel text.now buffer.old buffer.new count.new result }
    ensures escapes { result ≡ 0 → EscapesInner mode kernel text.now buffer.old buffer.new count.new }
{
    if is_usual(mode, kernel, text, false, buffer.len()) {
        return status(Ok(write_inner(mode, text, buffer)), count);
    }
    escape(mode, kernel, text, false, true, buffer, count)
}

/// Does what [`escape_inner`] does, for a piece that the caller knows to be UTF-8. It returns no 1.
#[unsafe(no_mangle)]
pub extern "C" fn escape_inner_unchecked(
    mode: u32,
    kernel: u32,
    text: &[u8],
    buffer: &mut [u8],
    count: &mut usize,
) -> u32
    requires { IsUtf8 text.now }
    ensures answers { Answers mode kernel text.now buffer.old buffer.new count.new result }
    ensures escapes { result ≡ 0 → EscapesInner mode kernel text.now buffer.old buffer.new count.new }
{
    if is_usual(mode, kernel, text, true, buffer.len()) {
        return status(Ok(write_inner(mode, text, buffer)), count);
    }
    escape(mode, kernel, text, true, true, buffer, count)
}

/// Writes the output of the text in the mode numbered `mode` to the front of `buffer`, by the default kernel. Returns
/// its length. The text must be UTF-8, a mode must have the number, and `buffer` must have the bound.
#[inline(always)]
#[unsafe(no_mangle)]
pub extern "C" fn escape_write(mode: u32, text: &[u8], buffer: &mut [u8]) -> usize
    requires mode { NamesMode mode }
    requires is_text { IsUtf8 text.now }
    requires has_room { bound (mode_numbered mode) (length text.now) ≤ length buffer.old }
    ensures { Escapes mode 0 text.now buffer.old buffer.new result }
{
    let text = unsafe { str::from_utf8_unchecked(text) };
    match mode {
        2 => format_text(Kernel::default(), Mode::Script, text, buffer), // So the compiler tests for 0 first.
        0 => format_text(Kernel::default(), Mode::Json, text, buffer),
        _ => format_text(Kernel::default(), Mode::Html, text, buffer),
    }
}

/// Does what [`escape_write`] does, without the quotation marks.
#[tactic(auto, using(crate::proofs::PieceLemmas::bound_least, crate::proofs::PieceLemmas::joins_pieces))]
#[inline(always)]
fn write_inner(mode: u32, text: &[u8], buffer: &mut [u8]) -> usize
    requires { NamesMode mode × (IsUtf8 text.now
        × (bound (mode_numbered mode) (length text.now) ≤ length buffer.old)) }
    ensures { EscapesInner mode 0 text.now buffer.old buffer.new result }
{
    let text = unsafe { str::from_utf8_unchecked(text) };
    let mode = mode_of_number(mode).unwrap_or(Mode::Script);
    format_inner(Kernel::default(), mode, text, buffer)
}
