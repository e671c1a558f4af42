//! Why a text was not written as HTML.
use crate::output::Refusal;
use std::alloc::{AllocError, AllocFailed};
use std::fmt;

/// The error that a size exceeds `usize::MAX`: `6 * n + 32` for a text of `n` bytes, or in the compact calls of
/// `escape_text` the length of the output.
#[derive(Debug, Clone, Copy, PartialEq, Eq)]
pub struct InputTooLarge;

impl fmt::Display for InputTooLarge {
    ghost use Rattle.std.specs.Prelude.{Some};
    ghost use Rattle.escape_simd.specs.Messages.{input_too_large_text};

    ghost output = { λ _. Some input_too_large_text };

    /// Writes the reason: the input is too large.
    fn fmt<W: fmt::Write>(&self, f: &mut fmt::Formatter<W>) -> fmt::Result {
        f.write_str("input is too large to HTML-escape")
    }
}

impl std::error::Error for InputTooLarge {}

/// The error of the HTML calls.
#[derive(Debug, Clone, Copy, PartialEq, Eq)]
pub enum EscapeHtmlError {
    /// The size that is needed exceeds `usize::MAX`: see [`InputTooLarge`].
    TooLarge(InputTooLarge),
    /// The allocator refused the memory, or the size exceeds `isize::MAX`.
    OutOfMemory,
}

impl From<InputTooLarge> for EscapeHtmlError {
    ghost use Rattle.escape_simd.specs.declared.html.error.EscapeHtmlError.TheVariants.{TooLarge};
    ghost use Rattle.std.specs.Prelude.{◌≡◌};

    ghost from_gives = { λ too_large error. error ≡ TooLarge too_large };

    /// Returns [`EscapeHtmlError::TooLarge`].
    fn from(too_large: InputTooLarge) -> EscapeHtmlError {
        EscapeHtmlError::TooLarge(too_large)
    }
}

impl From<Refusal> for EscapeHtmlError {
    ghost use Rattle.escape_simd.specs.declared.output.error.Refusal.TheVariants.{TooLarge as too_large};
    ghost use Rattle.escape_simd.specs.declared.html.error.EscapeHtmlError.TheVariants.{TooLarge};
    ghost use Rattle.std.specs.Prelude.{◌≡◌, ◌↔◌};

    ghost from_gives = { λ refusal error. (error ≡ TooLarge (record {})) ↔ (refusal ≡ too_large) };

    /// Returns the variant of the same name.
    fn from(refusal: Refusal) -> EscapeHtmlError {
        match refusal {
            Refusal::TooLarge => EscapeHtmlError::TooLarge(InputTooLarge),
            Refusal::OutOfMemory => EscapeHtmlError::OutOfMemory,
        }
    }
}

impl From<AllocError> for EscapeHtmlError {
    ghost use Rattle.escape_simd.specs.declared.html.error.EscapeHtmlError.TheVariants.{OutOfMemory};
    ghost use Rattle.std.specs.Prelude.{◌≡◌};

    ghost from_gives = { λ _ error. error ≡ OutOfMemory };

    /// Returns [`EscapeHtmlError::OutOfMemory`], so that `?` also converts the errors of the caller's own
    /// reservations.
    fn from(_refused: AllocError) -> EscapeHtmlError {
        EscapeHtmlError::OutOfMemory
    }
}

impl<T: Drop> From<AllocFailed<T>> for EscapeHtmlError {
    ghost use Rattle.escape_simd.specs.declared.html.error.EscapeHtmlError.TheVariants.{OutOfMemory};
    ghost use Rattle.std.specs.Prelude.{◌≡◌};

    ghost from_gives = { λ _ error. error ≡ OutOfMemory };

    /// Returns [`EscapeHtmlError::OutOfMemory`], so that `?` also converts the error of the caller's own `push`. The
    /// value that was not pushed is dropped.
    fn from(_refused: AllocFailed<T>) -> EscapeHtmlError {
        EscapeHtmlError::OutOfMemory
    }
}

impl fmt::Display for EscapeHtmlError {
    ghost use Rattle.std.specs.Prelude.{Some};
    ghost use Rattle.escape_simd.specs.Messages.{escape_html_error_text};

    ghost output = { λ error. Some (escape_html_error_text error) };

    /// Writes the reason, as "out of memory".
    fn fmt<W: fmt::Write>(&self, f: &mut fmt::Formatter<W>) -> fmt::Result {
        match self {
            EscapeHtmlError::TooLarge(reason) => reason.fmt(f),
            EscapeHtmlError::OutOfMemory => f.write_str("out of memory"),
        }
    }
}

impl std::error::Error for EscapeHtmlError {}
