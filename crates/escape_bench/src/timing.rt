//! The best of many rounds, with the ways in turn in each round.
ghost use Rattle.std.specs.Prelude.{◌≤◌, ◌+◌, ◌*◌, length};

use crate::modes::{answer, append};
use crate::per_byte::{Table, per_byte, table_of};
use escape_simd::{Kernel, Mode, format_text};
use std::alloc::Global;
use std::test::Fail;
use std::time::{Clock, Instant};

#[derive(Clone, Copy)]
enum Way {
    Loop,
    Copy,
    Of(Kernel),
    /// The call that appends, to a vector that is emptied before.
    Appending,
    /// The call that returns a `String`.
    Answering,
}

const WAYS: [Way; 9] = [
    Way::Loop,
    Way::Copy,
    Way::Of(Kernel::V128),
    Way::Of(Kernel::Sse2),
    Way::Of(Kernel::Neon),
    Way::Of(Kernel::Avx2),
    Way::Of(Kernel::Avx512),
    Way::Appending,
    Way::Answering,
];

/// The names of the ways, in their order.
pub const COLUMNS: &str = "loop    copy    v128    sse2    neon    avx2  avx512    into  string";

/// The bytes of the longest line that is measured.
pub const LONGEST: usize = 1 << 16;

/// What the longest text becomes at most, and what a kernel needs past it.
pub const ROOM: usize = 6 * LONGEST + 35;

const ROUNDS: usize = 50;

/// How many bytes each way escapes in a round, at least.
pub const ROUND: u32 = 1 << 20;

/// A mode, with the table of the loop and what the calls need.
#[derive(Drop)]
pub struct Escaping {
    pub mode: Mode,
    pub table: Table,
    /// What the appending call appends to.
    pub appended: Vec<u8>,
    /// Where the answering call takes its memory.
    pub alloc: Global,
}

impl Escaping {
    pub fn new(alloc: Global, mode: Mode) -> Escaping {
        Escaping {
            mode,
            table: table_of(mode),
            appended: Vec::new(alloc),
            alloc,
        }
    }
}

/// Whether the kernels and the calls write the same bytes as the loop for each text.
pub fn agree(escaping: &mut Escaping, texts: &[&str], wanted: &mut [u8], dst: &mut [u8]) -> bool
    requires wanted_room { ROOM ≤ length wanted.old }
    requires room { ROOM ≤ length dst.old }
{
    for text in texts {
        let count = once(Way::Loop, escaping, text, wanted);
        let Some(wanted) = wanted.get(..count) else {
            return false;
        };
        for way in &WAYS[2..7] {
            let written = once(*way, escaping, text, dst);
            if dst.get(..written) != Some(wanted) {
                return false;
            }
        }
        once(Way::Appending, escaping, text, dst);
        if escaping.appended.as_slice() != wanted {
            return false;
        }
        match answer(escaping.alloc, escaping.mode, text) {
            Some(answered) if answered.as_bytes() == wanted => {}
            _ => return false,
        }
    }
    true
}

/// The nanoseconds that so many passes over the texts take in the best round, for each way.
pub fn best_of_rounds(
    rt: &impl Clock,
    passes: u32,
    escaping: &mut Escaping,
    texts: &[&str],
    dst: &mut [u8],
) -> Result<[u32; 9], Fail>
    requires { ROOM ≤ length dst.old }
{
    let mut best = [u32::MAX; 9];
    for _ in 0..ROUNDS {
        for (place, way) in WAYS.iter().enumerate() {
            let start = Instant::now(rt)?;
            for _ in 0..passes {
                pass(*way, escaping, texts, dst);
            }
            let nanos = u32::try_from(start.elapsed(rt)?.as_nanos())?;
            best[place] = best[place].min(nanos.max(1));
        }
    }
    Ok(best)
}

#[inline(never)]
fn pass(way: Way, escaping: &mut Escaping, texts: &[&str], dst: &mut [u8])
    requires { ROOM ≤ length dst.old }
{
    for text in texts {
        std::hint::black_box(once(way, escaping, text, dst));
    }
}

/// Writes what the text becomes. A text above the longest becomes nothing.
#[inline(always)]
fn once(way: Way, escaping: &mut Escaping, text: &str, dst: &mut [u8]) -> usize
    requires { ROOM ≤ length dst.old }
{
    if LONGEST < text.len() {
        return 0;
    }
    match way {
        Way::Loop => per_byte(&escaping.table, text.as_bytes(), dst),
        Way::Copy => copy(text.as_bytes(), dst),
        Way::Of(kernel) => format_text(kernel, escaping.mode, text, dst),
        Way::Appending => {
            escaping.appended.clear();
            if append(escaping.mode, text, &mut escaping.appended) {
                escaping.appended.len()
            } else {
                0
            }
        }
        Way::Answering => match answer(escaping.alloc, escaping.mode, text) {
            Some(answered) => answered.len(),
            None => 0,
        },
    }
}

#[inline(never)]
fn copy(text: &[u8], dst: &mut [u8]) -> usize
    requires { length text.now ≤ length dst.old }
{
    dst[..text.len()].copy_from_slice(text);
    text.len()
}
