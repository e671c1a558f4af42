//! The program's arguments.

use escape_simd::Kernel;
use escape_stream::{Mode, USAGE, choose};

/// The program's words, and what they choose.
static CHOICES: [(&str, Option<&str>, Option<(Mode, Kernel)>); 14] = [
    ("html", None, Some((Mode::Html, Kernel::Avx2))),
    ("json", None, Some((Mode::Json, Kernel::Avx2))),
    ("script", None, Some((Mode::Script, Kernel::Avx2))),
    ("json", Some("v128"), Some((Mode::Json, Kernel::V128))),
    ("script", Some("sse2"), Some((Mode::Script, Kernel::Sse2))),
    ("html", Some("neon"), Some((Mode::Html, Kernel::Neon))),
    ("html", Some("avx2"), Some((Mode::Html, Kernel::Avx2))),
    ("json", Some("avx512"), Some((Mode::Json, Kernel::Avx512))),
    ("html", Some("AVX2"), None),
    ("json", Some("avx"), None),
    ("json", Some(""), None),
    ("neon", Some("html"), None),
    ("xml", None, None),
    ("", None, None),
];

#[test]
fn chooses_by_the_words(rt: HostRuntime) {
    for (mode, kernel, choice) in &CHOICES {
        assert!(rt; choose(mode, *kernel) == *choice, "{mode} {kernel:?}");
    }
}

#[test]
fn the_usage_names_each_mode_and_kernel(rt: HostRuntime) {
    let usage = "usage: escape_tool json|html|script [v128|sse2|neon|avx2|avx512]";
    assert!(rt; USAGE == usage);
}
