//! A literal in an array of the caller's own, with no memory asked for.
ghost use Rattle.std.specs.Prelude.{◌≤◌, length, OnOk};
ghost use Rattle.std.specs.Io.KnownBytes.{Appends};
ghost use Rattle.escape_lanes.specs.Mode.{json};
ghost use Rattle.escape_simd.specs.Output.{plain};

use escape_simd::json::{CAPACITY_FACTOR, CAPACITY_SLACK};
use escape_simd::{Kernel, format_json_str};
use std::io::{Result, Write};

/// The longest label, in bytes.
pub const LONGEST: usize = 80;

const ROOM: usize = CAPACITY_FACTOR * LONGEST + CAPACITY_SLACK;

/// Writes the label as a literal, by one write where the writer takes it whole.
pub fn write_label<W: Write>(label: &str, writer: &mut W) -> Result<()>
    requires { length label.now ≤ LONGEST }
    ensures { OnOk result (Appends (W.contents writer.old) (W.contents writer.new)
        (plain json label.now)) }
{
    let mut room = [0; ROOM];
    let literal = format_json_str(Kernel::default(), label, &mut room);
    writer.write_all(literal.as_bytes())
}
