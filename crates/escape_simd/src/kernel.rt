//! The kernels, which escape a text in vectors of different sizes.

/// A kernel: the code that escapes a text in vectors of one size. All kernels write the same bytes.
///
/// Use `Kernel::default()` if you have no reason for another. The name tells the size of a vector and how its bytes
/// are classified. It does not tell which instructions run: each kernel is built for every target, and the build's
/// `--cpu` decides. So each kernel runs wherever the build runs.
///
/// ```rust
/// let len = format_json_string(Kernel::default(), "x", &mut dst); // 3
/// ```
#[derive(Debug, Clone, Copy, PartialEq, Eq)]
pub enum Kernel {
    /// Vectors of 16 bytes, held as two `u64`.
    V128,
    /// Vectors of 16 bytes.
    Sse2,
    /// Vectors of 16 bytes. HTML is classified by two tables of nibbles.
    Neon,
    /// Vectors of 32 bytes. The default.
    Avx2,
    /// Vectors of 64 bytes.
    Avx512,
}

impl Default for Kernel {
    ghost use Rattle.escape_simd.specs.declared.kernel.Kernel.TheVariants.{Avx2};
    ghost use Rattle.std.specs.Prelude.{◌≡◌};

    ghost is_default = { λ kernel. kernel ≡ Avx2 };

    /// Returns [`Kernel::Avx2`]. The calls that allocate use this kernel, and the program does if none is named.
    fn default() -> Kernel {
        Kernel::Avx2
    }
}
