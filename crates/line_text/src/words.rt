//! Indentation and numbers.
ghost use Rattle.std.specs.Prelude.{◌≤◌, ◌++◌, codes, map};
ghost use Rattle.std.specs.List.{flat_map, join_by, repeat};
ghost use Rattle.shown.specs.Quoted.{bracketed};
ghost use Rattle.line_text.specs.Signs.{sign};

use crate::{Decimal, TextOut};

const SPACES: &[u8] = b"            ";

/// Puts two spaces for each level, of which there are at most six.
#[inline(always)]
pub fn put_indent<T, O: TextOut<T>>(out: &mut O, to: &mut T, level: u32)
    requires { level ≤ 6 }
    ensures { O.Puts (out.old, to.old) (repeat level (codes "  ")) (out.new, to.new) }
{
    out.put(to, &SPACES[..2 * level as usize]);
}

/// Puts a number in decimal digits, behind a `-` if it is below 0.
#[inline(always)]
pub fn put_number<N: Decimal, T, O: TextOut<T>>(out: &mut O, to: &mut T, number: &N)
    ensures { O.Puts (out.old, to.old) (N.text number.now) (out.new, to.new) }
{
    let (is_negative, digits) = number.sign_and_digits();
    put_sign(out, to, is_negative);
    out.put_decimal(to, digits);
}

// Puts the sign of a number.
#[inline(always)]
fn put_sign<T, O: TextOut<T>>(out: &mut O, to: &mut T, is_negative: bool)
    ensures { O.Puts (out.old, to.old) (sign is_negative) (out.new, to.new) }
{
    if is_negative {
        out.put(to, b"-");
    }
}

/// Puts numbers in brackets, with a space between them.
pub fn put_numbers<N: Decimal, T, O: TextOut<T>>(out: &mut O, to: &mut T, numbers: &[N])
    ensures { O.Puts (out.old, to.old) (bracketed (map N.text numbers.now)) (out.new, to.new) }
{
    out.put(to, b"[");
    put_between_spaces(out, to, numbers);
    out.put(to, b"]");
}

// Puts numbers, with a space between them.
fn put_between_spaces<N: Decimal, T, O: TextOut<T>>(out: &mut O, to: &mut T, numbers: &[N])
    ensures { O.Puts (out.old, to.old) (join_by N.text (codes " ") numbers.now) (out.new, to.new) }
{
    if let [first, rest @ ..] = numbers {
        put_number(out, to, first);
        put_more_numbers(out, to, rest);
    }
}

// Puts numbers, each behind a space.
fn put_more_numbers<N: Decimal, T, O: TextOut<T>>(out: &mut O, to: &mut T, numbers: &[N])
    ensures { O.Puts (out.old, to.old) (flat_map (λ n. codes " " ++ N.text n) numbers.now) (out.new, to.new) }
{
    for number in numbers {
        out.put(to, b" ");
        put_number(out, to, number);
    }
}
