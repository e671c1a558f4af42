//! The version, and what the calls share: modes by their numbers, what is refused, and statuses.
ghost use Rattle.std.specs.Prelude.{◌≡◌, ◌≢◌, ◌↔◌, true, IsUtf8, Err, IfOk, OnErr, IsOk};
ghost use Rattle.escape_simd.specs.Modes.{escaping, mode_numbered};
ghost use Rattle.escape_c.specs.declared.call.Refusal.{Refusal};
ghost use Rattle.escape_c.specs.Call.{NamesMode, status_of};

use escape_simd::Mode;
use std::str;

/// Why nothing is written. Its number is the status, which is 0 where all is.
#[derive(Clone, Copy)]
pub(crate) enum Refusal {
    NotUtf8 = 1,
    TooShort = 2,
    TooLarge = 3,
    NoKernel = 4,
    NoMode = 5,
}

/// Returns the mode that the number names.
pub(crate) fn mode_of_number(mode: u32) -> Result<Mode, Refusal>
    ensures mode { IfOk result (λ m. escaping m ≡ mode_numbered mode) }
    ensures ok { IsOk result ↔ NamesMode mode }
    ensures err { OnErr result (result ≡ Err Refusal.NoMode) }
{
    match mode {
        0 => Ok(Mode::Json),
        1 => Ok(Mode::Html),
        2 => Ok(Mode::Script),
        _ => Err(Refusal::NoMode),
    }
}

/// Returns the bytes as a text, if they are UTF-8. `is_known` skips the check, `is_ascii_asked` the first test.
#[inline(always)]
pub(crate) fn as_text(bytes: &[u8], is_known: bool, is_ascii_asked: bool) -> Result<&str, Refusal>
    requires { is_known ≡ true → IsUtf8 bytes.now }
    ensures text { IfOk result (λ text. text.now ≡ bytes.now) }
    ensures ok { IsOk result ↔ IsUtf8 bytes.now }
    ensures err { OnErr result (result ≡ Err Refusal.NotUtf8) }
{
    // Most texts are ASCII: this is asked by words, with no call.
    if is_known || !is_ascii_asked && bytes.is_ascii() {
        return Ok(unsafe { str::from_utf8_unchecked(bytes) });
    }
    str::from_utf8(bytes).ok().ok_or(Refusal::NotUtf8)
}

/// Writes the count to `count`, or 0 after a refusal. Returns the status.
pub(crate) fn status(written: Result<usize, Refusal>, count: &mut usize) -> u32
    ensures refused { (why : Refusal) → (result ≡ status_of why) ↔ (written ≡ Err why) }
    ensures ok { (result ≡ 0) ↔ IsOk written }
    ensures count { IfOk written (λ bytes. count.new ≡ bytes) }
    ensures none { result ≢ 0 → count.new ≡ 0 }
{
    *count = written.unwrap_or(0);
    match written {
        Ok(_) => 0,
        Err(why) => why as u32,
    }
}

/// Returns the version: 10000 times the major number, 100 times the minor one and the patch, added.
#[unsafe(no_mangle)]
pub extern "C" fn escape_version() -> u32
    ensures { result ≡ 100 }
{
    100
}
