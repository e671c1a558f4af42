//! The ways to a kernel: over a target, over a slice, and by the kernel's value.
ghost use Rattle.std.specs.Prelude.{◌≡◌, ◌≤◌, length};
ghost use Rattle.escape_lanes.specs.Mode.{mode_of, script};
ghost use Rattle.escape_simd.specs.Kernels.{lanes_of};
ghost use Rattle.escape_simd.specs.Output.{bound};
ghost use Rattle.escape_simd.specs.Modes.{escaping};

use escape_simd::simd::target::{Target, Ticks};
use escape_simd::simd::{avx2, avx512, neon, sse2, v128};
use escape_simd::{
    Kernel, Mode, format_html_string, format_json_string, format_script_string, format_text,
};

/// Each mode.
pub const MODES: [Mode; 3] = [Mode::Json, Mode::Html, Mode::Script];

/// Each kernel.
pub const KERNELS: [Kernel; 5] = [
    Kernel::V128,
    Kernel::Sse2,
    Kernel::Neon,
    Kernel::Avx2,
    Kernel::Avx512,
];

/// A way to a kernel.
#[derive(Debug, Clone, Copy)]
pub enum Way {
    /// `format_target` of the kernel's module.
    Target,
    /// `format_string` of the kernel's module.
    Slice,
    /// The call that is named after the mode, with the kernel's value.
    Named,
    /// `format_text`, with the values of the kernel and the mode.
    Value,
}

pub const WAYS: [Way; 4] = [Way::Target, Way::Slice, Way::Named, Way::Value];

/// How many bytes a vector of the kernel has.
pub fn lanes(kernel: Kernel) -> usize
    ensures { result ≡ lanes_of kernel }
{
    match kernel {
        Kernel::V128 => 16,
        Kernel::Sse2 => 16,
        Kernel::Neon => 16,
        Kernel::Avx2 => 32,
        Kernel::Avx512 => 64,
    }
}

/// Escapes the text to the front of `dst` in this way, and returns how many bytes it became.
pub fn format(way: Way, kernel: Kernel, mode: Mode, text: &str, dst: &mut [u8]) -> usize
    requires { bound (escaping mode) (length text.now) ≤ length dst.old }
{
    match way {
        Way::Target => match mode {
            Mode::Json => by_target::<false>(kernel, text, dst),
            Mode::Html => by_target::<true>(kernel, text, dst),
            Mode::Script => script_by_target(kernel, text, dst),
        },
        Way::Slice => match mode {
            Mode::Json => by_slice::<false>(kernel, text, dst),
            Mode::Html => by_slice::<true>(kernel, text, dst),
            Mode::Script => script_by_slice(kernel, text, dst),
        },
        Way::Named => match mode {
            Mode::Json => format_json_string(kernel, text, dst),
            Mode::Html => format_html_string(kernel, text, dst),
            Mode::Script => format_script_string(kernel, text, dst),
        },
        Way::Value => format_text(kernel, mode, text, dst),
    }
}

fn by_target<const HTML: bool>(kernel: Kernel, text: &str, dst: &mut [u8]) -> usize
    requires { bound (mode_of HTML) (length text.now) ≤ length dst.old }
{
    let mut ticks = Ticks::new();
    match kernel {
        Kernel::V128 => v128::format_target::<HTML>(text, &mut Target::new(dst), &mut ticks),
        Kernel::Sse2 => sse2::format_target::<HTML>(text, &mut Target::new(dst), &mut ticks),
        Kernel::Neon => neon::format_target::<HTML>(text, &mut Target::new(dst), &mut ticks),
        Kernel::Avx2 => avx2::format_target::<HTML>(text, &mut Target::new(dst), &mut ticks),
        Kernel::Avx512 => avx512::format_target::<HTML>(text, &mut Target::new(dst), &mut ticks),
    }
}

fn by_slice<const HTML: bool>(kernel: Kernel, text: &str, dst: &mut [u8]) -> usize
    requires { bound (mode_of HTML) (length text.now) ≤ length dst.old }
{
    match kernel {
        Kernel::V128 => v128::format_string::<HTML>(text, dst),
        Kernel::Sse2 => sse2::format_string::<HTML>(text, dst),
        Kernel::Neon => neon::format_string::<HTML>(text, dst),
        Kernel::Avx2 => avx2::format_string::<HTML>(text, dst),
        Kernel::Avx512 => avx512::format_string::<HTML>(text, dst),
    }
}

fn script_by_target(kernel: Kernel, text: &str, dst: &mut [u8]) -> usize
    requires { bound script (length text.now) ≤ length dst.old }
{
    let mut ticks = Ticks::new();
    match kernel {
        Kernel::V128 => v128::format_script_target(text, &mut Target::new(dst), &mut ticks),
        Kernel::Sse2 => sse2::format_script_target(text, &mut Target::new(dst), &mut ticks),
        Kernel::Neon => neon::format_script_target(text, &mut Target::new(dst), &mut ticks),
        Kernel::Avx2 => avx2::format_script_target(text, &mut Target::new(dst), &mut ticks),
        Kernel::Avx512 => avx512::format_script_target(text, &mut Target::new(dst), &mut ticks),
    }
}

fn script_by_slice(kernel: Kernel, text: &str, dst: &mut [u8]) -> usize
    requires { bound script (length text.now) ≤ length dst.old }
{
    match kernel {
        Kernel::V128 => v128::format_script_string(text, dst),
        Kernel::Sse2 => sse2::format_script_string(text, dst),
        Kernel::Neon => neon::format_script_string(text, dst),
        Kernel::Avx2 => avx2::format_script_string(text, dst),
        Kernel::Avx512 => avx512::format_script_string(text, dst),
    }
}
