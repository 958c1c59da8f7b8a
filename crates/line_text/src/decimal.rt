//! Numbers in decimal digits.
ghost use Rattle.std.specs.Prelude.{◌≡◌, ℕ, List, length};
ghost use Rattle.std.specs.Fmt.{decimal, signed_decimal};
ghost use Rattle.line_text.specs.Signs.{signed};

/// A number that is written in decimal digits.
pub trait Decimal: Copy {
    ghost text: { Self → List ℕ };

    /// Whether the number is below 0, and its distance from 0.
    fn sign_and_digits(self) -> (bool, u64)
        ensures { text self ≡ signed result.0 result.1 };
}

impl Decimal for u32 {
    ghost text = { decimal };

    #[inline(always)]
    fn sign_and_digits(self) -> (bool, u64) {
        (false, self as u64)
    }
}

impl Decimal for u64 {
    ghost text = { decimal };

    #[inline(always)]
    fn sign_and_digits(self) -> (bool, u64) {
        (false, self)
    }
}

impl Decimal for usize {
    ghost text = { decimal };

    #[inline(always)]
    fn sign_and_digits(self) -> (bool, u64) {
        (false, self as u64)
    }
}

impl Decimal for i64 {
    ghost text = { signed_decimal };

    #[inline(always)]
    fn sign_and_digits(self) -> (bool, u64) {
        if self < 0 {
            (true, self.unsigned_abs())
        } else {
            (false, self.unsigned_abs())
        }
    }
}

/// How many digits a number has.
#[inline(always)]
pub(crate) fn digits_of(number: u64) -> u32
    ensures { result ≡ length (decimal number) }
{
    match number.checked_ilog10() {
        None => 1,
        Some(power) => power + 1,
    }
}
