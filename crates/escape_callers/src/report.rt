//! A report that is streamed to a writer, row by row, and takes no memory.
ghost use Rattle.std.specs.Prelude.{OnOk, flat_map};
ghost use Rattle.std.specs.Io.KnownBytes.{Appends};
ghost use Rattle.escape_callers.specs.Written.{line_of};

use crate::entries::Entry;
use escape_text::json::escape_to_writer;
use std::io::{Result, Write};

/// Writes each entry on a line of JSON of its own, and flushes.
pub fn write_report<W: Write>(entries: &[Entry<'_>], writer: &mut W) -> Result<()>
    ensures { OnOk result (Appends (W.contents writer.old) (W.contents writer.new)
        (flat_map line_of entries.now)) }
{
    for entry in entries {
        write_line(entry, writer)?;
    }
    writer.flush()
}

fn write_line<W: Write>(entry: &Entry<'_>, writer: &mut W) -> Result<()>
    ensures { OnOk result (Appends (W.contents writer.old) (W.contents writer.new)
        (line_of entry.now)) }
{
    writer.write_all(b"{\"level\":")?;
    escape_to_writer(entry.level, writer)?;
    writer.write_all(b",\"message\":")?;
    escape_to_writer(entry.message, writer)?;
    writer.write_all(b"}\n")
}
