//! What a call that takes a list appends for each of its values.
ghost use Rattle.std.specs.Prelude.{◌≡◌, ◌≤◌, ◌↔◌, ◌++◌, ℕ, List, IsTrue, IsUtf8, length, take, vec_len, OnOk, IfErr};
ghost use Rattle.escape_simd.specs.Modes.{mode_numbered};
ghost use Rattle.escape_simd.specs.Output.{plain, bound};

use escape_simd::output::{Refusal, append_reserved, scratch_bound};
use std::alloc::Allocator;

/// A value of a list, whose texts are written in the mode `MODE`.
pub(crate) trait Piece<const MODE: u8> {
    // What is appended for it.
    ghost bytes: { Self → List ℕ };

    // The largest bound of its texts.
    ghost size: { Self → ℕ };

    /// Returns whether no text of it is too large.
    fn fits(&self) -> bool
        requires mode { MODE ≤ 2 }
        ensures { IsTrue result ↔ (size self.now ≤ usize.MAX) };

    /// Appends what is to be appended. After an error `dst` keeps what it had, and perhaps a part of that.
    fn append_to<A: Allocator>(&self, dst: &mut Vec<u8, A>) -> Result<(), Refusal>
        requires mode { MODE ≤ 2 }
        requires fits { size self.now ≤ usize.MAX }
        ensures exact { OnOk result (dst.new.items ≡ dst.old.items ++ bytes self.now) }
        ensures text { OnOk result (IsUtf8 (bytes self.now)) }
        ensures front { take (vec_len dst.old) dst.new.items ≡ dst.old.items }
        ensures memory { IfErr result (λ refusal. refusal ≡ Refusal.OutOfMemory) };
}

impl<const MODE: u8> Piece<MODE> for &str {
    ghost bytes = { λ text. plain (mode_numbered MODE) text.now };

    ghost size = { λ text. bound (mode_numbered MODE) (length text.now) };

    fn fits(&self) -> bool {
        scratch_bound::<MODE>(self.len()).is_some()
    }

    fn append_to<A: Allocator>(&self, dst: &mut Vec<u8, A>) -> Result<(), Refusal> {
        let Some(scratch) = scratch_bound::<MODE>(self.len()) else {
            unreachable!()
        };
        // As `output::append`, which would be a further call for each piece.
        dst.reserve(scratch)?;
        append_reserved::<MODE, A>(self, dst);
        Ok(())
    }
}
