//! Where a text is put.
ghost use Rattle.std.specs.Prelude.{ℕ, List};
ghost use Rattle.std.specs.Fmt.{decimal};
ghost use Rattle.line_text.specs.Putting.{ArePuts};

/// Where a text is put, piece by piece: `TextLength` counts its bytes, and a `Pen` writes them to a sink `T`.
pub trait TextOut<T> {
    /// That putting a text leads from one state, of this and of `T`, to another.
    ghost Puts: { (Self × T) → List ℕ → (Self × T) → Type 0 };

    ghost lawful: { ArePuts Puts };

    /// Puts a text after what was put before.
    fn put(&mut self, to: &mut T, text: &[u8])
        ensures { Puts (self.old, to.old) text.now (self.new, to.new) };

    /// Puts a number in decimal digits.
    fn put_decimal(&mut self, to: &mut T, number: u64)
        ensures { Puts (self.old, to.old) (decimal number) (self.new, to.new) };
}
