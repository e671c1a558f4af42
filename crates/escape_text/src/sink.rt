//! The target of an output: a formatter or a writer.
ghost use Rattle.std.specs.Prelude.{ℕ, Bool, List, is_ok};
ghost use Rattle.escape_text.specs.Sinks.{AreInTurn};

/// A way to write a text to a `D`.
pub(crate) trait Sink<D> {
    /// The error of a write.
    type Error;

    /// The target before a write, whether the write succeeded, the bytes, and the target after it.
    ghost sends: { D → Bool → List ℕ → D → Type 0 };

    /// Writes the text to `dst`.
    fn put(text: &str, dst: &mut D) -> Result<(), Self::Error>
        ensures { sends dst.old (is_ok result) text.now dst.new };

    ghost in_turn: { AreInTurn sends };
}
