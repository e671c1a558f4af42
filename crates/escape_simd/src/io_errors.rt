//! The errors as an `io::Error`, so that `?` also serves a function that writes.
use crate::html::EscapeHtmlError;
use crate::json::EscapeError;
use crate::output::Refusal;
use std::io::{self, ErrorKind};

impl From<Refusal> for io::Error {
    ghost use Rattle.std.specs.Prelude.{◌≡◌};
    ghost use Rattle.std.specs.IoError.{error_kind};
    ghost use Rattle.escape_simd.specs.IoKinds.{io_kind};

    ghost from_gives = { λ refusal error. error_kind error ≡ io_kind refusal };

    /// Returns an error of the kind `InvalidInput` if the text is too large, else of the kind `OutOfMemory`.
    fn from(refusal: Refusal) -> io::Error {
        match refusal {
            Refusal::TooLarge => io::Error::new(
                ErrorKind::InvalidInput,
                "input is too large to escape",
            ),
            Refusal::OutOfMemory => ErrorKind::OutOfMemory.into(),
        }
    }
}

impl From<EscapeError> for io::Error {
    ghost use Rattle.std.specs.Prelude.{◌≡◌};
    ghost use Rattle.std.specs.IoError.{error_kind};
    ghost use Rattle.escape_simd.specs.IoKinds.{io_kind};
    ghost use Rattle.escape_simd.specs.Refusals.{refusal_of};

    ghost from_gives = { λ refused error. error_kind error ≡ io_kind (refusal_of refused) };

    /// Returns the error that the [`Refusal`] of the same name converts to.
    fn from(refused: EscapeError) -> io::Error {
        Refusal::from(refused).into()
    }
}

impl From<EscapeHtmlError> for io::Error {
    ghost use Rattle.std.specs.Prelude.{◌≡◌};
    ghost use Rattle.std.specs.IoError.{error_kind};
    ghost use Rattle.escape_simd.specs.IoKinds.{io_kind};
    ghost use Rattle.escape_simd.specs.Refusals.{html_refusal_of};

    ghost from_gives = { λ refused error. error_kind error ≡ io_kind (html_refusal_of refused) };

    /// Returns the error that the [`Refusal`] of the same name converts to.
    fn from(refused: EscapeHtmlError) -> io::Error {
        Refusal::from(refused).into()
    }
}
