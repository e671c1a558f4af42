//! The lines that are measured.

use crate::timing::LONGEST;
use std::alloc::Global;
use std::test::Fail;

/// The bytes of lines that are measured, at most.
const MOST: usize = 4_000_000;

/// The lines of the text, in their order.
pub fn lines<'a>(alloc: Global, text: &'a str) -> Result<Vec<&'a str>, Fail> {
    let mut lines = Vec::new(alloc);
    let mut bytes = 0usize;
    for line in text.lines() {
        if LONGEST < line.len() {
            return Err(Fail::new("a line has more than 65536 bytes"));
        }
        bytes = bytes.saturating_add(line.len());
        if MOST < bytes {
            break;
        }
        lines.push(line)?;
    }
    Ok(lines)
}
