//! Texts of many equal parts.

use std::alloc::{AllocError, Global};
use std::process::Abort;

/// The lengths at the borders of the vectors and the chunks, and less by one: a part adds a byte or more.
pub const LENGTHS: [usize; 22] = [
    0, 1, 14, 15, 16, 17, 30, 31, 32, 33, 62, 63, 64, 65, 126, 127, 128, 129, 254, 255, 256, 257,
];

/// The widths that a border lies at: of a vector, and of a chunk.
pub const WIDTHS: [usize; 4] = [16, 32, 64, 128];

/// The parts one after another, each as often as its number says.
pub fn repeated(rt: &(impl Abort + AllocGlobal), parts: &[(usize, &str)]) -> String {
    joined(rt.alloc(), parts).expect(rt, "no memory")
}

fn joined(alloc: Global, parts: &[(usize, &str)]) -> Result<String, AllocError> {
    let mut text = String::new(alloc);
    for (count, part) in parts {
        push_often(&mut text, *count, part)?;
    }
    Ok(text)
}

fn push_often(text: &mut String, count: usize, part: &str) -> Result<(), AllocError> {
    for _ in 0..count {
        text.push_str(part)?;
    }
    Ok(())
}

/// Whether each of these bytes is this one.
pub fn all_are(bytes: &[u8], byte: u8) -> bool {
    for it in bytes {
        if *it != byte {
            return false;
        }
    }
    true
}
