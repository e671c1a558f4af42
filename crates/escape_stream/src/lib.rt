//! Escapes the bytes of a reader as a JSON string literal, as HTML or as a literal that is safe inside a script
//! element, and writes the output to a writer.
//!
//! [`run`] reads its input to the end, escapes it with the kernel that the caller names, and writes the output.
//! [`choose`] returns the mode and the kernel that a program's arguments name. From memory to memory:
//!
//! ```rust
//! let mut input = b"<a".as_slice();
//! let mut out = Vec::new(rt.alloc());
//! run(rt.alloc(), Mode::Html, Kernel::Avx2, &mut input, &mut out)?; // &lt;a
//! ```
#![tactic(auto)]

mod escaped;
mod fault;
mod input;
mod stream;
mod words;
mod write;

pub use escape_simd::Mode;
pub use escaped::PIECE;
pub use fault::ToolFault;
pub use stream::{run, run_in};
pub use words::{USAGE, choose};
