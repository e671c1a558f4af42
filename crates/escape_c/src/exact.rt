//! The calls by the output's own length: that length, and the output in a buffer which has it.
ghost use Rattle.std.specs.Prelude.{◌≡◌, ◌≢◌, ◌<◌, ◌≤◌, ◌↔◌, ◌^◌, length, take, drop, Err, IfOk, IsOk, OnErr};
ghost use Rattle.escape_simd.specs.Escaping.{IsEscaping};
ghost use Rattle.escape_simd.specs.Modes.{mode_numbered};
ghost use Rattle.escape_simd.specs.Output.{plain};
ghost use Rattle.escape_c.specs.declared.call.Refusal.{Refusal};
ghost use Rattle.escape_c.specs.Call.{status_of, AcceptsExact, HasLength, RefusesExact, RefusesLength};

use crate::call::{Refusal, as_text, status};
use escape_simd::output::escaped_len;
use escape_simd::simd::{HTML_MODE, JSON_MODE, SCRIPT_MODE};
use escape_text::write_exact;

/// Refuses a length that exceeds `isize::MAX`. No slice has one, but C can pass one.
fn check_len(len: usize) -> Result<(), Refusal>
    ensures ok { IsOk result ↔ (len < 2 ^ 63) }
    ensures err { OnErr result (result ≡ Err Refusal.TooLarge) }
{
    if len > isize::MAX as usize {
        return Err(Refusal::TooLarge);
    }
    Ok(())
}

/// Returns the bytes as a text, if they are one, and the length of its output. It checks the slice's length before it
/// reads a byte. By the slice's type the check always passes, so no clause here states its refusal.
fn measured<const MODE: u8>(bytes: &[u8]) -> Result<(&str, usize), Refusal>
    requires mode { MODE ≤ 2 }
    ensures text { IfOk result (λ measured. measured.0.now ≡ bytes.now) }
    ensures exact { IfOk result (λ measured. measured.1 ≡ length (plain (mode_numbered MODE) bytes.now)) }
    ensures ok { IsOk result ↔ HasLength MODE bytes.now }
    ensures err { (why : Refusal) → (result ≡ Err why) ↔ RefusesLength MODE bytes.now why }
{
    check_len(bytes.len())?;
    let text = as_text(bytes, false, false)?;
    let len = escaped_len::<MODE>(text).ok_or(Refusal::TooLarge)?;
    Ok((text, len))
}

/// As [`measured`], in the mode numbered `mode`.
#[inline(always)]
fn measured_in(mode: u32, bytes: &[u8]) -> Result<(&str, usize), Refusal>
    ensures text { IfOk result (λ measured. measured.0.now ≡ bytes.now) }
    ensures exact { IfOk result (λ measured. measured.1 ≡ length (plain (mode_numbered mode) bytes.now)) }
    ensures ok { IsOk result ↔ HasLength mode bytes.now }
    ensures err { (why : Refusal) → (result ≡ Err why) ↔ RefusesLength mode bytes.now why }
{
    match mode {
        0 => measured::<{ JSON_MODE }>(bytes),
        1 => measured::<{ HTML_MODE }>(bytes),
        2 => measured::<{ SCRIPT_MODE }>(bytes),
        _ => Err(Refusal::NoMode),
    }
}

/// Writes the output of the text in the mode numbered `mode` to `dst`, which has its length.
fn write(mode: u32, text: &str, dst: &mut [u8])
    requires { length dst.old ≡ length (plain (mode_numbered mode) text.now) }
    ensures { dst.new ≡ plain (mode_numbered mode) text.now }
{
    match mode {
        0 => write_exact::<{ JSON_MODE }>(text, dst),
        1 => write_exact::<{ HTML_MODE }>(text, dst),
        _ => write_exact::<{ SCRIPT_MODE }>(text, dst),
    }
}

/// Writes to `count` how many bytes the output of the text has in the mode numbered `mode`. Returns the status.
///
/// # Errors
///
/// The status is that of the first: 5, there is no such mode; 3, the text exceeds `PTRDIFF_MAX` bytes; 1, it is not
/// UTF-8; 3, the output exceeds `SIZE_MAX` bytes. `count` is then 0.
#[unsafe(no_mangle)]
pub extern "C" fn escape_length(mode: u32, text: &[u8], count: &mut usize) -> u32
    ensures refused { (why : Refusal) → (result ≡ status_of why) ↔ RefusesLength mode text.now why }
    ensures ok { (result ≡ 0) ↔ HasLength mode text.now }
    ensures exact { result ≡ 0 → count.new ≡ length (plain (mode_numbered mode) text.now) }
    ensures none { result ≢ 0 → count.new ≡ 0 }
{
    match measured_in(mode, text) {
        Ok((_, len)) => status(Ok(len), count),
        Err(why) => status(Err(why), count),
    }
}

/// Writes the output of the text in the mode numbered `mode` to the front of `buffer`, if that has at least the
/// output's length, and this length to `count`. Returns the status. The bytes after the output are unchanged.
///
/// # Errors
///
/// Those of [`escape_length`], and last 2: `buffer` is shorter than the output, whose length is then in `count`.
/// `buffer` is unchanged after each.
#[unsafe(no_mangle)]
pub extern "C" fn escape_exact(mode: u32, text: &[u8], buffer: &mut [u8], count: &mut usize) -> u32
    ensures refused { (why : Refusal) → (result ≡ status_of why)
        ↔ RefusesExact mode text.now (length buffer.old) why }
    ensures ok { (result ≡ 0) ↔ AcceptsExact mode text.now (length buffer.old) }
    ensures len { result ≡ 0 → count.new ≡ length (plain (mode_numbered mode) text.now) }
    ensures output { result ≡ 0
        → IsEscaping (mode_numbered mode) text.now (take count.new buffer.new) }
    ensures kept { result ≡ 0 → drop count.new buffer.new ≡ drop count.new buffer.old }
    ensures unchanged { result ≢ 0 → buffer.new ≡ buffer.old }
    ensures needed { result ≡ status_of Refusal.TooShort
        → count.new ≡ length (plain (mode_numbered mode) text.now) }
    ensures none { result ≢ 0 → result ≢ status_of Refusal.TooShort → count.new ≡ 0 }
{
    match measured_in(mode, text) {
        Ok((text, len)) if len <= buffer.len() => {
            write(mode, text, &mut buffer[..len]);
            status(Ok(len), count)
        }
        Ok((_, len)) => {
            *count = len;
            Refusal::TooShort as u32
        }
        Err(why) => status(Err(why), count),
    }
}
