//! How fast the kernels and the calls are on the lines of standard input, beside the best simple loop over bytes.
#![tactic(auto)]

ghost use Rattle.std.specs.Prelude.{◌≤◌, length};

mod lines;
mod modes;
mod per_byte;
mod records;
mod timing;

use lines::lines;
use modes::MODES;
use records::measure_records;
use std::env;
use std::io::read_to_string;
use std::test::Fail;
use std::time::Clock;
use timing::{COLUMNS, Escaping, ROOM, ROUND, agree, best_of_rounds};

fn main(rt: HostRuntime) -> Result<(), Fail> {
    let mut words = env::args(&rt)?;
    let _program = words.next();
    let word = words.next();
    let input = read_to_string(rt.alloc(), rt.reader())?;
    let texts = lines(rt.alloc(), &input)?;
    if is_word(&word, "lines") {
        return measure_lines(&rt, &texts);
    }
    if is_word(&word, "records") {
        return measure_records(&rt, &texts);
    }
    compare_lines(&rt, &texts)
}

fn is_word(word: &Option<String>, name: &str) -> bool {
    matches!(word, Some(word) if word.as_str() == name)
}

/// Compares what the kernels and the calls write for the lines, which have no separator, with what the loop writes.
fn compare_lines(rt: &(impl Print + AllocGlobal), texts: &[&str]) -> Result<(), Fail> {
    let mut wanted = vec![in rt.alloc(); 0u8; ROOM]?;
    let mut memory = vec![in rt.alloc(); 0u8; ROOM]?;
    let (wanted, dst) = (wanted.as_mut_slice(), memory.as_mut_slice());
    for mode in MODES {
        let mut escaping = Escaping::new(rt.alloc(), mode);
        if !agree(&mut escaping, texts, wanted, dst) {
            return Err(Fail::new("a kernel or a call writes other bytes than the loop"));
        }
    }
    println!(rt; "every kernel and call writes what the loop writes")?;
    println!(rt; "usage: escape_bench lines|records")?;
    Ok(())
}

/// Measures all modes on the lines, and prints the speed of each way in gigabytes of text a second.
fn measure_lines(rt: &(impl Clock + Print + AllocGlobal), texts: &[&str]) -> Result<(), Fail> {
    let mut memory = vec![in rt.alloc(); 0u8; ROOM]?;
    let dst = memory.as_mut_slice();
    println!(rt; "GB/s\t    {COLUMNS}")?;
    for mode in MODES {
        print!(rt; "{mode:?}\t")?;
        let mut escaping = Escaping::new(rt.alloc(), mode);
        report(rt, &mut escaping, texts, dst)?;
    }
    Ok(())
}

/// Measures the ways, and prints their speeds.
fn report(
    rt: &(impl Clock + Print),
    escaping: &mut Escaping,
    texts: &[&str],
    dst: &mut [u8],
) -> Result<(), Fail>
    requires { ROOM ≤ length dst.old }
{
    let bytes = u32::try_from(bytes_of(texts))?;
    let passes = 1 + ROUND / bytes.max(1);
    for nanos in best_of_rounds(rt, passes, escaping, texts, dst)? {
        let speed = bytes as f64 * passes as f64 / nanos as f64;
        print!(rt; " {speed:>7.2}")?;
    }
    println!(rt)?;
    Ok(())
}

/// How many bytes the texts have together.
fn bytes_of(texts: &[&str]) -> usize {
    let mut bytes = 0usize;
    for text in texts {
        bytes = bytes.saturating_add(text.len());
    }
    bytes
}
