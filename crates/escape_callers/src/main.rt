//! Callers of `escape_simd` and `escape_text`, one for each kind of user, and a program over them.
#![tactic(auto)]

mod document;
mod entries;
mod filter;
mod greeting;
mod numbers;
mod page;
mod report;
mod stack;

use document::append_document;
use entries::{Entry, append_entries};
use escape_simd::Refusal;
use filter::filter;
use greeting::greet;
use numbers::append_count;
use page::append_page;
use report::write_report;
use stack::write_label;
use std::alloc::Global;
use std::io::{self, BufReader, BufWriter, Write};

const NAME: &str = "Ann \"</script><b>\" O'Hara";

const ENTRIES: [Entry; 1] = [Entry {
    level: "info",
    message: NAME,
}];

const DOCUMENT: &str = r#"{"name":"</script>","note":"a\nb"}"#;

fn main(rt: HostRuntime) -> io::Result<()> {
    greet(&rt, NAME)?;
    let mut output = BufWriter::new(rt.alloc(), io::writer(&rt))?;
    write_each(rt.alloc(), &mut output)?;
    let mut input = BufReader::new(rt.alloc(), rt.reader())?;
    filter(rt.alloc(), &mut input, &mut output)
}

/// Writes what each caller but the filter makes.
fn write_each<W: Write>(alloc: Global, output: &mut W) -> io::Result<()> {
    output.write_all(log_and_pages(alloc)?.as_slice())?;
    write_report(&ENTRIES, output)?;
    write_label("tab\there", output)?;
    output.write_all(b"\n")
}

/// A record with a number, a log, a page and a script element, each on a line of its own.
fn log_and_pages(alloc: Global) -> Result<Vec<u8>, Refusal> {
    let (mut bytes, counted) = append_count(Vec::new(alloc), NAME, 3);
    counted?;
    bytes.push(b'\n')?;
    append_entries(&ENTRIES, &mut bytes)?;
    append_page("Guests", &[NAME, "Bo"], NAME, &mut bytes)?;
    bytes.push(b'\n')?;
    append_document(DOCUMENT, &mut bytes)?;
    bytes.push(b'\n')?;
    Ok(bytes)
}
