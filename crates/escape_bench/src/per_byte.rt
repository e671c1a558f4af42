//! The loop that the kernels are compared with: a look-up, a copy of eight bytes and a step for each
//! byte, with no branch on the byte.
ghost use Rattle.std.specs.Prelude.{◌≤◌, ◌+◌, ◌*◌, length};

use crate::modes::entry_of;
use escape_simd::Mode;

/// What is written for a byte, and how many of these bytes count.
#[derive(Clone, Copy)]
struct Entry {
    count: u8,
    bytes: [u8; 8],
    ghost small: { count ≤ 6 },
}

/// The entries of all bytes. A byte that stands for itself has one too.
#[derive(Drop)]
pub struct Table {
    entries: [Entry; 256],
    is_quoted: bool,
}

fn full_entry(mode: Mode, byte: u8) -> Entry {
    let (count, bytes) = entry_of(mode, byte);
    if count == 0 {
        return Entry {
            count: 1,
            bytes: [byte, 0, 0, 0, 0, 0, 0, 0],
        };
    }
    Entry {
        count: count.min(6),
        bytes,
    }
}

pub fn table_of(mode: Mode) -> Table {
    let mut entries = [full_entry(mode, 0); 256];
    for byte in 0..=255u8 {
        entries[byte as usize] = full_entry(mode, byte);
    }
    Table {
        entries,
        is_quoted: !mode.quote().is_empty(),
    }
}

/// Escapes the text byte by byte.
#[inline(never)]
pub fn per_byte(table: &Table, text: &[u8], dst: &mut [u8]) -> usize
    requires { 6 * length text.now + 35 ≤ length dst.old }
{
    let mut to = 0;
    if table.is_quoted {
        dst[0] = b'"';
        to = 1;
    }
    for byte in text {
        let entry = &table.entries[*byte as usize];
        put(dst, to, entry.bytes);
        to += entry.count as usize;
    }
    if table.is_quoted {
        dst[to] = b'"';
        to += 1;
    }
    to
}

/// Writes the bytes. They come by value: a copy out of the table would first ask whether the two
/// overlap.
#[inline(always)]
fn put(dst: &mut [u8], to: usize, bytes: [u8; 8])
    requires { to + 8 ≤ length dst.old }
{
    dst[to..to + 8].copy_from_slice(&bytes);
}
