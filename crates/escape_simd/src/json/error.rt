//! Why a text was not written as a JSON string literal.
use crate::output::Refusal;
use std::alloc::{AllocError, AllocFailed};
use std::fmt;

/// The error of the calls for JSON and script literals.
#[derive(Debug, Clone, Copy, PartialEq, Eq)]
pub enum EscapeError {
    /// The size that is needed exceeds `usize::MAX`. The size is `6 * n + 35` for a text of `n` bytes, and in the
    /// compact calls of `escape_text` the length of the literal.
    TooLarge,
    /// The allocator refused the memory, or the size exceeds `isize::MAX`.
    OutOfMemory,
}

impl From<Refusal> for EscapeError {
    ghost use Rattle.escape_simd.specs.declared.output.error.Refusal.TheVariants.{TooLarge as too_large};
    ghost use Rattle.escape_simd.specs.declared.json.error.EscapeError.TheVariants.{TooLarge};
    ghost use Rattle.std.specs.Prelude.{◌≡◌, ◌↔◌};

    ghost from_gives = { λ refusal error. (error ≡ TooLarge) ↔ (refusal ≡ too_large) };

    /// Returns the variant of the same name.
    fn from(refusal: Refusal) -> EscapeError {
        match refusal {
            Refusal::TooLarge => EscapeError::TooLarge,
            Refusal::OutOfMemory => EscapeError::OutOfMemory,
        }
    }
}

impl From<AllocError> for EscapeError {
    ghost use Rattle.escape_simd.specs.declared.json.error.EscapeError.TheVariants.{OutOfMemory};
    ghost use Rattle.std.specs.Prelude.{◌≡◌};

    ghost from_gives = { λ _ error. error ≡ OutOfMemory };

    /// Returns [`EscapeError::OutOfMemory`], so that `?` also converts the errors of the caller's own reservations.
    fn from(_refused: AllocError) -> EscapeError {
        EscapeError::OutOfMemory
    }
}

impl<T: Drop> From<AllocFailed<T>> for EscapeError {
    ghost use Rattle.escape_simd.specs.declared.json.error.EscapeError.TheVariants.{OutOfMemory};
    ghost use Rattle.std.specs.Prelude.{◌≡◌};

    ghost from_gives = { λ _ error. error ≡ OutOfMemory };

    /// Returns [`EscapeError::OutOfMemory`], so that `?` also converts the error of the caller's own `push`. The
    /// value that was not pushed is dropped.
    fn from(_refused: AllocFailed<T>) -> EscapeError {
        EscapeError::OutOfMemory
    }
}

impl fmt::Display for EscapeError {
    ghost use Rattle.std.specs.Prelude.{Some};
    ghost use Rattle.escape_simd.specs.Messages.{escape_error_text};

    ghost output = { λ error. Some (escape_error_text error) };

    /// Writes the reason, as "out of memory".
    fn fmt<W: fmt::Write>(&self, f: &mut fmt::Formatter<W>) -> fmt::Result {
        f.write_str(match self {
            EscapeError::TooLarge => "input is too large to JSON-escape",
            EscapeError::OutOfMemory => "out of memory",
        })
    }
}

impl std::error::Error for EscapeError {}
