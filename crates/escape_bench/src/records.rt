//! How long records and pages of lines take, by a call and by hand.

use escape_simd::Refusal;
use escape_simd::html::escape_html_into;
use escape_simd::json::{escape_into, escape_script_into};
use escape_text::json::object_into;
use escape_text::page::{Part, page_into};
use json::Writer;
use std::alloc::{AllocError, Global};
use std::test::Fail;
use std::time::{Clock, Instant};

/// What is appended for each line, and how.
#[derive(Debug, Clone, Copy)]
enum Way {
    /// A row of two cells, the line before and the line: all rows by one call of `page_into`.
    Page,
    /// The same list of parts, by a loop that matches each part.
    PartsByHand,
    /// A row by one call of `page_into`.
    Row,
    /// A row whose markup is constant.
    RowByHand,
    /// An object of a constant and the line, by `object_into`.
    Object,
    /// The keys are escaped, as in `object_into`.
    ObjectByCalls,
    /// The keys are constant.
    ObjectByHand,
    /// By the toolchain's `json::Writer`.
    ObjectByWriter,
    /// The line as a literal.
    Literal,
    LiteralByWriter,
}

const WAYS: [Way; 10] = [
    Way::Page,
    Way::PartsByHand,
    Way::Row,
    Way::RowByHand,
    Way::Object,
    Way::ObjectByCalls,
    Way::ObjectByHand,
    Way::ObjectByWriter,
    Way::Literal,
    Way::LiteralByWriter,
];

const ROUNDS: usize = 1000;

/// Prints the microseconds that the lines take by each way, in the best round.
pub fn measure_records(
    rt: &(impl Clock + Print + AllocGlobal),
    lines: &[&str],
) -> Result<(), Fail> {
    let parts = parts_of(rt.alloc(), lines)?;
    let mut best = [u32::MAX; 10];
    let mut memory = Vec::new(rt.alloc());
    for _ in 0..ROUNDS {
        for (place, way) in WAYS.iter().enumerate() {
            let (nanos, appended) = timed(rt, *way, lines, &parts, memory)?;
            best[place] = best[place].min(nanos);
            memory = appended;
        }
    }
    report(rt, &best)
}

/// Returns the nanoseconds that the lines take by the way, and the vector that they are in, in place of what it had.
fn timed(
    rt: &impl Clock,
    way: Way,
    lines: &[&str],
    parts: &[Part<'_>],
    mut memory: Vec<u8>,
) -> Result<(u32, Vec<u8>), Fail> {
    memory.clear();
    let start = Instant::now(rt)?;
    let appended = append_lines(way, lines, parts, memory)?;
    let nanos = u32::try_from(start.elapsed(rt)?.as_nanos())?;
    Ok((nanos, appended))
}

/// Prints the microseconds of each way.
fn report(rt: &impl Print, nanos: &[u32; 10]) -> Result<(), Fail> {
    for (place, way) in WAYS.iter().enumerate() {
        let micros = nanos[place] as f64 / 1000.0;
        println!(rt; "{micros:>8.1} {way:?}")?;
    }
    Ok(())
}

/// The parts of a page with a row for each line.
fn parts_of<'a>(alloc: Global, lines: &[&'a str]) -> Result<Vec<Part<'a>>, AllocError> {
    let mut parts = Vec::new(alloc);
    let mut last = "";
    for line in lines {
        parts.extend_from_slice(&row(last, line))?;
        last = line;
    }
    Ok(parts)
}

#[inline(always)]
fn row<'a>(last: &'a str, line: &'a str) -> [Part<'a>; 5] {
    [
        Part::Markup("<tr><td>"),
        Part::Text(last),
        Part::Markup("</td><td>"),
        Part::Text(line),
        Part::Markup("</td></tr>\n"),
    ]
}

/// Appends what the way makes of the lines.
#[inline(never)]
fn append_lines(
    way: Way,
    lines: &[&str],
    parts: &[Part<'_>],
    mut out: Vec<u8>,
) -> Result<Vec<u8>, Refusal> {
    match way {
        Way::Page => match page_into(parts, &mut out) {
            Ok(()) => {}
            Err(stop) => return Err(stop.reason),
        },
        Way::PartsByHand => append_parts(parts, &mut out)?,
        Way::ObjectByWriter | Way::LiteralByWriter => return write_lines(way, lines, out),
        _ => {
            let mut last = "";
            for line in lines {
                append_line(way, last, line, &mut out)?;
                last = line;
            }
        }
    }
    Ok(out)
}

fn append_parts(parts: &[Part<'_>], out: &mut Vec<u8>) -> Result<(), Refusal> {
    for part in parts {
        match part {
            Part::Markup(markup) => out.extend_from_slice(markup.as_bytes())?,
            Part::Text(text) => escape_html_into(text, out)?,
            Part::Script(text) => escape_script_into(text, out)?,
        }
    }
    Ok(())
}

#[inline(always)]
fn append_line(way: Way, last: &str, line: &str, out: &mut Vec<u8>) -> Result<(), Refusal> {
    match way {
        Way::Row => page_into(&row(last, line), out)?,
        Way::RowByHand => {
            out.extend_from_slice(b"<tr><td>")?;
            escape_html_into(last, out)?;
            out.extend_from_slice(b"</td><td>")?;
            escape_html_into(line, out)?;
            out.extend_from_slice(b"</td></tr>\n")?;
        }
        Way::Object => object_into(&[("level", "info"), ("message", line)], out)?,
        Way::ObjectByCalls => {
            out.extend_from_slice(b"{")?;
            escape_into("level", out)?;
            out.extend_from_slice(b":")?;
            escape_into("info", out)?;
            out.extend_from_slice(b",")?;
            escape_into("message", out)?;
            out.extend_from_slice(b":")?;
            escape_into(line, out)?;
            out.extend_from_slice(b"}")?;
        }
        Way::ObjectByHand => {
            out.extend_from_slice(b"{\"level\":")?;
            escape_into("info", out)?;
            out.extend_from_slice(b",\"message\":")?;
            escape_into(line, out)?;
            out.extend_from_slice(b"}")?;
        }
        _ => escape_into(line, out)?,
    }
    Ok(())
}

/// The same by the toolchain's writer.
fn write_lines(way: Way, lines: &[&str], out: Vec<u8>) -> Result<Vec<u8>, Refusal> {
    let mut writer = Writer::new(out);
    for line in lines {
        if matches!(way, Way::ObjectByWriter) {
            writer.begin_object()?;
            writer.key("level")?;
            writer.string("info")?;
            writer.key("message")?;
            writer.string(line)?;
            writer.end_object()?;
        } else {
            writer.string(line)?;
        }
    }
    Ok(writer.into_inner())
}
