//! The output of a text, to a formatter.
ghost use Rattle.std.specs.Prelude.{◌≤◌, IsTrue};
ghost use Rattle.std.specs.Fmt.{WritesOnOk, IsPlainFormatter, HasWritten};
ghost use Rattle.escape_simd.specs.Modes.{mode_numbered};
ghost use Rattle.escape_simd.specs.Output.{plain};
ghost use Rattle.escape_text.specs.InTurn.{formatter-in_turn};

use crate::piecewise::send;
use crate::sink::Sink;
use std::fmt;

struct ToFormatter;

impl<W: fmt::Write> Sink<fmt::Formatter<W>> for ToFormatter {
    type Error = fmt::Error;

    ghost sends = { λ f ok bytes g. IsPlainFormatter f → IsTrue ok → HasWritten W.write_str_gives f bytes g };

    ghost in_turn = { formatter-in_turn W.write_str_gives };

    fn put(text: &str, f: &mut fmt::Formatter<W>) -> fmt::Result {
        f.write_str(text)
    }
}

/// Writes the output of a text in the mode `MODE` to the formatter.
pub(crate) fn display<const MODE: u8, W: fmt::Write>(
    value: &str,
    f: &mut fmt::Formatter<W>,
) -> fmt::Result
    requires mode { MODE ≤ 2 }
    ensures { WritesOnOk W.write_str_gives f.old result
        (plain (mode_numbered MODE) value.now) f.new }
{
    send::<MODE, fmt::Formatter<W>, ToFormatter>(value, f)
}
