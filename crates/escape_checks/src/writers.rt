//! What writes the output of a text: the kernels in each way, the runs, and the calls that return a `String`.
use crate::routes::{KERNELS, WAYS, Way, format};
use escape_simd::html::{EscapeHtmlError, escape_html};
use escape_simd::json::{escape, escape_script};
use escape_simd::{Kernel, Mode, format_inner};
use escape_stream::run;
use std::alloc::Global;

/// What a target holds before.
pub const UNTOUCHED: u8 = 0xee;

/// What failed, or wrote something else than it was to write.
#[derive(Debug, Clone, Copy)]
pub enum Writer {
    /// A kernel, in this way.
    Kernel(Kernel, Way),
    /// A kernel, with no quotation marks.
    Inner(Kernel),
    /// A run, with this kernel.
    Run(Kernel),
    /// The call that returns a string.
    Call,
}

/// The first writer in this mode that writes something else than `output` for the text, if there is one.
pub fn differing(
    alloc: Global,
    mode: Mode,
    text: &str,
    output: &[u8],
) -> Result<Option<Writer>, EscapeHtmlError> {
    for kernel in KERNELS {
        if let Some(writer) = differing_kernel(alloc, kernel, mode, text, output)? {
            return Ok(Some(writer));
        }
    }
    Ok(if is_returned(alloc, mode, text, output) {
        None
    } else {
        Some(Writer::Call)
    })
}

/// Whether the call returns the output.
fn is_returned(alloc: Global, mode: Mode, text: &str, output: &[u8]) -> bool {
    let returned = match mode {
        Mode::Json => escape(alloc, text).ok(),
        Mode::Html => escape_html(alloc, text).ok(),
        Mode::Script => escape_script(alloc, text).ok(),
    };
    match returned {
        Some(string) => string.as_bytes() == output,
        None => false,
    }
}

/// The first way to a kernel that writes something else.
fn differing_kernel(
    alloc: Global,
    kernel: Kernel,
    mode: Mode,
    text: &str,
    output: &[u8],
) -> Result<Option<Writer>, EscapeHtmlError> {
    let mut target = vec![in alloc; UNTOUCHED; mode.capacity(text.len())?]?;
    for way in WAYS {
        target.fill(UNTOUCHED);
        let count = format(way, kernel, mode, text, &mut target);
        if target.get(..count) != Some(output) {
            return Ok(Some(Writer::Kernel(kernel, way)));
        }
    }
    target.fill(UNTOUCHED);
    let count = format_inner(kernel, mode, text, &mut target);
    if target.get(..count) != between_quotes(mode, output) {
        return Ok(Some(Writer::Inner(kernel)));
    }
    Ok(if is_run(alloc, kernel, mode, text, output) {
        None
    } else {
        Some(Writer::Run(kernel))
    })
}

/// Whether a run with the kernel writes the output.
fn is_run(alloc: Global, kernel: Kernel, mode: Mode, text: &str, output: &[u8]) -> bool {
    let mut input = text.as_bytes();
    let mut written = Vec::new(alloc);
    run(alloc, mode, kernel, &mut input, &mut written).is_ok() && written.as_slice() == output
}

/// A literal's bytes between its quotation marks, and all of HTML.
pub(crate) fn between_quotes(mode: Mode, output: &[u8]) -> Option<&[u8]> {
    let quote = mode.quote().len();
    output.get(quote..output.len().saturating_sub(quote))
}
