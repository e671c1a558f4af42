//! Every border: of a vector, a chunk, the rest and the target.

use crate::plain::plain;
use crate::routes::{KERNELS, MODES, WAYS, Way, format, lanes};
use crate::tests::texts::{LENGTHS, WIDTHS, repeated};
use crate::tests::whole_targets::assert_written_by;
use crate::writers::UNTOUCHED;
use escape_simd::{
    Kernel, format_html_string, format_inner, format_json_inner, format_script_inner,
};
use escape_stream::Mode;
use std::process::Abort;

/// Asserts that each kernel writes what stands for a text of these parts character by character, in each mode.
fn assert_written(rt: &(impl Abort + AllocGlobal), parts: &[(usize, &str)]) {
    for mode in MODES {
        assert_written_in(rt, mode, parts);
    }
}

/// Asserts that each kernel writes it in one mode, into a target of exactly the bound and into a longer one.
fn assert_written_in(rt: &(impl Abort + AllocGlobal), mode: Mode, parts: &[(usize, &str)]) {
    let text = repeated(rt, parts);
    let wanted = plain(rt, mode, &text);
    for kernel in KERNELS {
        assert_written_by(rt, kernel, mode, &text, 0, wanted.as_bytes());
        assert_written_by(rt, kernel, mode, &text, 100, wanted.as_bytes());
    }
}

#[test]
fn letters_or_quotes_of_each_length(rt: HostRuntime) {
    for len in 0..=257 {
        assert_written(&rt, &[(len, "a")]);
        assert_written(&rt, &[(len, "\"")]);
    }
}

/// Asserts that each kernel writes letters with the part at each place, in one mode. What begins with e2 is told from
/// other characters by its two other bytes, which may lie in the next vector, chunk or rest.
fn assert_part_written(rt: &(impl Abort + AllocGlobal), mode: Mode, part: &str) {
    for len in LENGTHS {
        for place in 0..=len {
            assert_written_in(rt, mode, &[(place, "a"), (1, part), (len - place, "a")]);
        }
    }
}

#[test]
fn a_part_at_each_place(rt: HostRuntime) {
    assert_part_written(&rt, Mode::Json, "\"");
    assert_part_written(&rt, Mode::Html, "\"");
    assert_part_written(&rt, Mode::Script, "&");
    assert_part_written(&rt, Mode::Script, "\u{2026}");
    assert_part_written(&rt, Mode::Script, "\u{2028}");
}

/// Asserts that each kernel writes so many quotes that begin near the end of the width, in letters of three widths.
fn assert_run_written(rt: &(impl Abort + AllocGlobal), width: usize, count: usize) {
    for place in width.saturating_sub(1)..width.saturating_add(2) {
        let letters = width.saturating_mul(3).saturating_sub(place);
        let after = letters.saturating_sub(count);
        assert_written(rt, &[(place, "a"), (count, "\""), (after, "a")]);
    }
}

#[test]
fn runs_across_each_width(rt: HostRuntime) {
    for width in WIDTHS {
        assert_run_written(&rt, width, 1);
        assert_run_written(&rt, width, 2);
        assert_run_written(&rt, width, 3);
        assert_run_written(&rt, width, width);
    }
}

// The last vector of so short a rest begins before it: a quote that an earlier run wrote is not written
// again.
#[test]
fn a_quote_before_the_rest(rt: HostRuntime) {
    for kernel in KERNELS {
        assert_written(&rt, &[(lanes(kernel), "a"), (1, "\"a\"b")]);
    }
}

/// What a text of one letter leaves in a target, with quotation marks or without. Four kernels store a whole vector for
/// it, with zeros, and the widest just the letter.
fn one_letter(kernel: Kernel, is_quoted: bool) -> [u8; 100] {
    let stored = match kernel {
        Kernel::Avx512 => 1,
        _ => lanes(kernel),
    };
    let mut target = [UNTOUCHED; 100];
    if is_quoted {
        target[1..stored.min(99) + 1].fill(0);
        target[..3].copy_from_slice(b"\"a\"");
    } else {
        target[..stored.min(100)].fill(0);
        target[0] = b'a';
    }
    target
}

/// Whether this way to the kernel leaves that.
fn is_stored(way: Way, kernel: Kernel, mode: Mode) -> bool {
    let is_quoted = mode != Mode::Html;
    let mut target = [UNTOUCHED; 100];
    let count = format(way, kernel, mode, "a", &mut target);
    count == (if is_quoted { 3 } else { 1 }) && target == one_letter(kernel, is_quoted)
}

// So a loop over bytes shows, and so does a kernel of another width.
#[test]
fn byte_loop_behind_kernel(rt: HostRuntime) {
    for kernel in KERNELS {
        for way in WAYS {
            for mode in MODES {
                assert!(rt; is_stored(way, kernel, mode), "{way:?} {kernel:?} {mode:?}");
            }
        }
    }
}

/// Whether a call by the kernel without quotation marks leaves that, and so does the one that names the mode.
fn is_inner_stored(kernel: Kernel, mode: Mode) -> bool {
    let mut target = [UNTOUCHED; 100];
    let mut named = [UNTOUCHED; 100];
    let count = format_inner(kernel, mode, "a", &mut target);
    let named_count = match mode {
        Mode::Json => format_json_inner(kernel, "a", &mut named),
        Mode::Html => format_html_string(kernel, "a", &mut named),
        Mode::Script => format_script_inner(kernel, "a", &mut named),
    };
    let wanted = one_letter(kernel, false);
    count == 1 && target == wanted && named_count == 1 && named == wanted
}

#[test]
fn inner_by_another_kernel(rt: HostRuntime) {
    for kernel in KERNELS {
        for mode in MODES {
            assert!(rt; is_inner_stored(kernel, mode), "{kernel:?} {mode:?}");
        }
    }
}
