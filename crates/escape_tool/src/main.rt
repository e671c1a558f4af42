//! Escapes standard input to standard output, as a JSON string literal, as HTML or as a literal that
//! is safe inside a script element.
//!
//! `escape_tool json|html|script [v128|sse2|neon|avx2|avx512]`: the status is 0 where the whole output was
//! written, 1 after a fault of the run, and 2 where the words aren't such words or there is no memory for
//! them. Standard error says which fault it was, or how the program is called.
#![tactic(auto)]

use escape_simd::Kernel;
use escape_stream::{Mode, ToolFault, USAGE, choose, run};
use std::env;
use std::process::ExitCode;
use std::rt::Env;

const USAGE_STATUS: u8 = 2;

fn main(rt: HostRuntime) -> ExitCode {
    let Some((mode, kernel)) = chosen(&rt) else {
        let _ = rt.eprintln(USAGE);
        return ExitCode::from(USAGE_STATUS);
    };
    match run(rt.alloc(), mode, kernel, &mut rt.stdin(), &mut rt.stdout()) {
        Ok(()) => ExitCode::SUCCESS,
        Err(fault) => failed(&rt, fault),
    }
}

/// Returns the words after the program's name, where they can be taken.
fn words<R: Env + AllocGlobal>(rt: &R) -> Option<Vec<String>> {
    let mut words = Vec::new(rt.alloc());
    for word in env::args(rt).ok()?.skip(1) {
        words.push(word).ok()?;
    }
    Some(words)
}

/// Returns what the one or two words choose.
fn chosen<R: Env + AllocGlobal>(rt: &R) -> Option<(Mode, Kernel)> {
    let words = words(rt)?;
    match words.as_slice() {
        [mode] => choose(mode.as_str(), None),
        [mode, kernel] => choose(mode.as_str(), Some(kernel.as_str())),
        _ => None,
    }
}

/// Says the fault on standard error. A failed write there has no one to be told to.
fn failed(rt: &impl Eprint, fault: ToolFault) -> ExitCode {
    let _ = rt.eprintln(fault);
    ExitCode::FAILURE
}
