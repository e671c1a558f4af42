//! A filter from lines of text to lines of JSON.
ghost use Rattle.std.specs.Prelude.{IfSome, OnOk, OnErr, flat_map};
ghost use Rattle.std.specs.Io.KnownBytes.{Appends};
ghost use Rattle.std.specs.Str.Lines.{lines};
ghost use Rattle.escape_text.specs.Writers.{AppendsBeginning};
ghost use Rattle.escape_callers.specs.Written.{record_of};

use escape_text::json::escape_to_writer;
use escape_text::write_whole;
use std::alloc::Global;
use std::io::{BufRead, Result, Write};

/// Writes each line that the reader has left as a JSON string on a line of its own, and flushes.
///
/// An error ends it: that of a read, of a line that isn't UTF-8, of memory for a line, or of a write. The
/// writer has then taken a beginning of the output.
pub fn filter<R: BufRead, W: Write>(alloc: Global, reader: &mut R, writer: &mut W) -> Result<()>
    ensures exact { OnOk result (IfSome (R.remaining reader.old) (λ bytes.
        Appends (W.contents writer.old) (W.contents writer.new) (flat_map record_of (lines bytes)))) }
    ensures beginning { OnErr result (IfSome (R.remaining reader.old) (λ bytes.
        AppendsBeginning (W.contents writer.old) (W.contents writer.new)
        (flat_map record_of (lines bytes)))) }
{
    for line in reader.lines(alloc) {
        write_record(line?.as_str(), writer)?;
    }
    writer.flush()
}

fn write_record<W: Write>(line: &str, writer: &mut W) -> Result<()>
    ensures exact { OnOk result (Appends (W.contents writer.old) (W.contents writer.new)
        (record_of line.now)) }
    ensures beginning { OnErr result (AppendsBeginning (W.contents writer.old)
        (W.contents writer.new) (record_of line.now)) }
{
    escape_to_writer(line, writer)?;
    write_whole(b"\n", writer)
}
