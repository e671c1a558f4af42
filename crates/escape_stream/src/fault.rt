//! The error of a run.
ghost use Rattle.std.specs.Prelude.{Some};
ghost use Rattle.escape_stream.specs.Fault.{fault_text};

use std::error::Error;
use std::fmt;

/// The error of [`run`](crate::run): why the whole output was not written.
#[derive(Clone, Copy, Debug, PartialEq, Eq)]
pub enum ToolFault {
    /// A read returned an error, of any kind. The output is unchanged.
    ReadFailed,
    /// The whole input is not UTF-8. The output is unchanged.
    NotUtf8,
    /// The bound for the input exceeds `usize::MAX`. The output is unchanged.
    TooLarge,
    /// The allocator refused memory for the input or for a piece of the output. The output is unchanged.
    OutOfMemory,
    /// A write took no bytes, or a write or the flush returned an error. The output has taken a prefix of the escaped
    /// bytes, or all of them.
    WriteFailed,
}

impl fmt::Display for ToolFault {
    ghost output = { λ fault. Some (fault_text fault) };

    fn fmt<W: fmt::Write>(&self, f: &mut fmt::Formatter<W>) -> fmt::Result {
        let text = match self {
            ToolFault::ReadFailed => "reading failed",
            ToolFault::NotUtf8 => "input is not UTF-8",
            ToolFault::TooLarge => "input is too large",
            ToolFault::OutOfMemory => "out of memory",
            ToolFault::WriteFailed => "writing failed",
        };
        f.write_str(text)
    }
}

impl Error for ToolFault {}
