//! Texts in quotes, and bytes in hexadecimal.
ghost use Rattle.std.specs.Prelude.{◌≡◌, [], ◌∷◌, false};
ghost use Rattle.std.specs.List.{flat_map};
ghost use Rattle.shown.specs.Quoted.{hex_digits, hex_text, escaped, quoted};

use crate::TextOut;
use pb_wire::{BytesRef, TextRef};

// Puts bytes as `0x` and their digits.
pub(crate) fn put_hex<T, O: TextOut<T>>(out: &mut O, to: &mut T, bytes: &[u8])
    ensures { O.Puts (out.old, to.old) (hex_text bytes.now) (out.new, to.new) }
{
    out.put(to, b"0x");
    put_digits(out, to, bytes);
}

/// Puts borrowed bytes as `0x` and their digits.
#[inline]
pub fn put_bytes<T, O: TextOut<T>>(out: &mut O, to: &mut T, bytes: &BytesRef<'_>)
    ensures { O.Puts (out.old, to.old) (hex_text bytes.now) (out.new, to.new) }
{
    put_hex(out, to, bytes.as_slice());
}

// Puts two digits for each byte.
fn put_digits<T, O: TextOut<T>>(out: &mut O, to: &mut T, bytes: &[u8])
    ensures { O.Puts (out.old, to.old) (flat_map hex_digits bytes.now) (out.new, to.new) }
{
    for byte in bytes {
        put_byte(out, to, *byte);
    }
}

// Puts the two digits of a byte.
#[inline(always)]
fn put_byte<T, O: TextOut<T>>(out: &mut O, to: &mut T, byte: u8)
    ensures { O.Puts (out.old, to.old) (hex_digits byte) (out.new, to.new) }
{
    let mut digits = [0; 2];
    match hex::encode_to_slice([byte], &mut digits) {
        Ok(()) => out.put(to, &digits),
        Err(_) => (),
    }
}

/// Puts a borrowed text in quotes.
#[inline]
pub fn put_text<T, O: TextOut<T>>(out: &mut O, to: &mut T, text: &TextRef<'_>)
    ensures { O.Puts (out.old, to.old) (quoted text.now) (out.new, to.new) }
{
    put_quoted(out, to, text.as_bytes());
}

// Puts a text in quotes.
fn put_quoted<T, O: TextOut<T>>(out: &mut O, to: &mut T, text: &[u8])
    ensures { O.Puts (out.old, to.old) (quoted text.now) (out.new, to.new) }
{
    out.put(to, b"\"");
    put_escaped(out, to, text);
    out.put(to, b"\"");
}

// Puts the bytes that stand between quotes. Those that stand for themselves are put in runs.
fn put_escaped<T, O: TextOut<T>>(out: &mut O, to: &mut T, text: &[u8])
    ensures { O.Puts (out.old, to.old) (flat_map escaped text.now) (out.new, to.new) }
{
    let mut run = 0;
    for place in 0..text.len() {
        let byte = text[place];
        if !is_escaped(byte) {
            continue;
        }
        out.put(to, &text[run..place]);
        put_escape(out, to, byte);
        run = place + 1;
    }
    out.put(to, &text[run..]);
}

// Whether the byte may not stand for itself between quotes.
#[inline(always)]
fn is_escaped(byte: u8) -> bool
    ensures { result ≡ false → escaped byte ≡ byte ∷ [] }
{
    byte == b'\\' || byte == b'"' || byte < 32 || byte == 127
}

// Puts a byte as it stands between quotes.
fn put_escape<T, O: TextOut<T>>(out: &mut O, to: &mut T, byte: u8)
    ensures { O.Puts (out.old, to.old) (escaped byte) (out.new, to.new) }
{
    if byte == b'\\' || byte == b'"' {
        out.put(to, &[b'\\', byte]);
    } else if byte < 32 || byte == 127 {
        out.put(to, b"\\x");
        put_byte(out, to, byte);
    } else {
        out.put(to, &[byte]);
    }
}
