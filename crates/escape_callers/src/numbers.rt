//! A record with a number, by the toolchain's `json`.
ghost use Rattle.std.specs.Prelude.{◌≡◌, OnErr};

use json::Writer;
use std::alloc::{AllocError, Allocator};

/// Returns the log with `{"name":..,"count":..}` appended, or as it was after an error.
pub fn append_count<A: Allocator>(
    log: Vec<u8, A>,
    name: &str,
    count: u64,
) -> (Vec<u8, A>, Result<(), AllocError>)
    ensures { OnErr result.1 (result.0.items ≡ log.items) }
{
    let len = log.len();
    let mut writer = Writer::new(log);
    let written = write_count(&mut writer, name, count);
    let mut log = writer.into_inner();
    if written.is_err() {
        log.truncate(len);
    }
    (log, written)
}

fn write_count<A: Allocator>(
    writer: &mut Writer<A>,
    name: &str,
    count: u64,
) -> Result<(), AllocError>
    ensures { writer.new.before ≡ writer.old.before }
{
    writer.begin_object()?;
    writer.key("name")?;
    writer.string(name)?;
    writer.key("count")?;
    writer.u64(count)?;
    writer.end_object()
}
