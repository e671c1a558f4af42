//! Why a text was not escaped, whatever the mode.
use crate::html::EscapeHtmlError;
use crate::json::EscapeError;
use std::alloc::{AllocError, AllocFailed};
use std::fmt;

/// The error of the calls that serve every mode.
///
/// [`EscapeError`] and [`EscapeHtmlError`] convert to it, so that `?` serves a function that writes both JSON and HTML:
///
/// ```rust
/// escape_html_into(text, row)?;
/// row.push(b'\n')?;
/// escape_into(text, row)?;
/// ```
#[derive(Debug, Clone, Copy, PartialEq, Eq)]
pub enum Refusal {
    /// The size that is needed exceeds `usize::MAX`.
    TooLarge,
    /// The allocator refused the memory, or the size exceeds `isize::MAX`.
    OutOfMemory,
}

impl From<EscapeError> for Refusal {
    ghost use Rattle.std.specs.Prelude.{◌≡◌};
    ghost use Rattle.escape_simd.specs.Refusals.{refusal_of};

    ghost from_gives = { λ error refusal. refusal ≡ refusal_of error };

    /// Returns the variant of the same name.
    fn from(error: EscapeError) -> Refusal {
        match error {
            EscapeError::TooLarge => Refusal::TooLarge,
            EscapeError::OutOfMemory => Refusal::OutOfMemory,
        }
    }
}

impl From<EscapeHtmlError> for Refusal {
    ghost use Rattle.std.specs.Prelude.{◌≡◌};
    ghost use Rattle.escape_simd.specs.Refusals.{html_refusal_of};

    ghost from_gives = { λ error refusal. refusal ≡ html_refusal_of error };

    /// Returns the variant of the same name.
    fn from(error: EscapeHtmlError) -> Refusal {
        match error {
            EscapeHtmlError::TooLarge(_) => Refusal::TooLarge,
            EscapeHtmlError::OutOfMemory => Refusal::OutOfMemory,
        }
    }
}

impl From<AllocError> for Refusal {
    ghost use Rattle.escape_simd.specs.declared.output.error.Refusal.TheVariants.{OutOfMemory};
    ghost use Rattle.std.specs.Prelude.{◌≡◌};

    ghost from_gives = { λ _ refusal. refusal ≡ OutOfMemory };

    /// Returns [`Refusal::OutOfMemory`], so that `?` also converts the errors of the caller's own reservations.
    fn from(_refused: AllocError) -> Refusal {
        Refusal::OutOfMemory
    }
}

impl<T: Drop> From<AllocFailed<T>> for Refusal {
    ghost use Rattle.escape_simd.specs.declared.output.error.Refusal.TheVariants.{OutOfMemory};
    ghost use Rattle.std.specs.Prelude.{◌≡◌};

    ghost from_gives = { λ _ refusal. refusal ≡ OutOfMemory };

    /// Returns [`Refusal::OutOfMemory`], so that `?` also converts the error of the caller's own `push`. The value that
    /// was not pushed is dropped.
    fn from(_refused: AllocFailed<T>) -> Refusal {
        Refusal::from(AllocError)
    }
}

impl fmt::Display for Refusal {
    ghost use Rattle.std.specs.Prelude.{Some};
    ghost use Rattle.escape_simd.specs.Messages.{refusal_text};

    ghost output = { λ refusal. Some (refusal_text refusal) };

    /// Writes the reason, as "out of memory".
    fn fmt<W: fmt::Write>(&self, f: &mut fmt::Formatter<W>) -> fmt::Result {
        f.write_str(match self {
            Refusal::TooLarge => "input is too large to escape",
            Refusal::OutOfMemory => "out of memory",
        })
    }
}

impl std::error::Error for Refusal {}
