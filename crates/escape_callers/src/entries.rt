//! A log of one JSON object a line.
ghost use Rattle.std.specs.Prelude.{◌≡◌, ◌++◌, flat_map, OnOk, OnErr};
ghost use Rattle.escape_callers.specs.Written.{line_of};

use escape_simd::json::EscapeError;
use escape_text::json::object_line_into;
use std::alloc::Allocator;

/// What a line of the log says.
#[derive(Clone, Copy)]
pub struct Entry<'a> {
    pub level: &'a str,
    pub message: &'a str,
}

/// Appends the entry on a line of its own. After an error the log holds its old bytes.
#[tactic(auto, unfolding(escape_lanes::specs::Replacement::replacement))]
pub fn append_entry<A: Allocator>(
    entry: &Entry<'_>,
    log: &mut Vec<u8, A>,
) -> Result<(), EscapeError>
    ensures exact { OnOk result (log.new.items ≡ log.old.items ++ line_of entry.now) }
    ensures unchanged { OnErr result (log.new.items ≡ log.old.items) }
{
    object_line_into(&[("level", entry.level), ("message", entry.message)], log)
}

/// Appends each entry on a line of its own. After an error the log has the lines before it too.
#[tactic(auto, using(escape_text::proofs::Many::many))]
pub fn append_entries<A: Allocator>(
    entries: &[Entry<'_>],
    log: &mut Vec<u8, A>,
) -> Result<(), EscapeError>
    ensures { OnOk result (log.new.items ≡ log.old.items ++ flat_map line_of entries.now) }
{
    for entry in entries {
        append_entry(entry, log)?;
    }
    Ok(())
}
