//! The arguments of the program: the mode, and the kernel.
ghost use Rattle.std.specs.Prelude.{◌≡◌, ◌↔◌, Some};
ghost use Rattle.escape_simd.specs.declared.Kernel.{Kernel};
ghost use Rattle.escape_simd.specs.declared.Mode.{Mode};
ghost use Rattle.escape_stream.specs.Words.{NamesKernel, mode_word, kernel_word};

use escape_simd::{Kernel, Mode};

/// The usage message of the program, for a caller to print if [`choose`] returns `None`.
pub const USAGE: &str = "usage: escape_tool json|html|script [v128|sse2|neon|avx2|avx512]";

/// Returns the mode and the kernel that two arguments name. The modes are `json`, `html` and `script`, the kernels
/// `v128`, `sse2`, `neon`, `avx2` and `avx512`, in lower case and without blanks. If `kernel` is `None`, the kernel
/// is `Avx2`. Returns `None` if an argument is no such name.
///
/// `choose("html", Some("neon"))` is `Some((Mode::Html, Kernel::Neon))`.
pub fn choose(mode: &str, kernel: Option<&str>) -> Option<(Mode, Kernel)>
    ensures { (m : Mode) (k : Kernel) → (result ≡ Some (m, k))
        ↔ ((mode.now ≡ mode_word m) × NamesKernel kernel.entry k) }
{
    let mode = mode_of_word(mode)?;
    let kernel = match kernel {
        Some(word) => kernel_of_word(word)?,
        None => Kernel::default(),
    };
    Some((mode, kernel))
}

fn mode_of_word(word: &str) -> Option<Mode>
    ensures { (m : Mode) → (result ≡ Some m) ↔ (word.now ≡ mode_word m) }
{
    match word {
        "json" => Some(Mode::Json),
        "html" => Some(Mode::Html),
        "script" => Some(Mode::Script),
        _ => None,
    }
}

fn kernel_of_word(word: &str) -> Option<Kernel>
    ensures { (k : Kernel) → (result ≡ Some k) ↔ (word.now ≡ kernel_word k) }
{
    match word {
        "v128" => Some(Kernel::V128),
        "sse2" => Some(Kernel::Sse2),
        "neon" => Some(Kernel::Neon),
        "avx2" => Some(Kernel::Avx2),
        "avx512" => Some(Kernel::Avx512),
        _ => None,
    }
}
