//! Bytes that are put in front of a place, and moved.
ghost use Rattle.std.specs.Prelude.{◌≡◌, ◌+◌, ◌<◌, ◌≤◌, length, take, drop};
ghost use Rattle.schema.specs.Texts.{varint};
ghost use Rattle.part_text.specs.Writes.{IsPutBefore};

use pb_wire::varint_len;

/// Puts a text in front of a place, and says where it begins.
pub(crate) fn put_text(bytes: &mut [u8], end: usize, text: &[u8]) -> usize
    requires room { length text.now ≤ end }
    requires within { end ≤ length bytes.old }
    ensures { IsPutBefore bytes.old bytes.new text.now result end }
{
    let start = end - text.len();
    bytes[start..end].copy_from_slice(text);
    start
}

// Puts the shortest varint at a place.
fn put_varint_at(bytes: &mut [u8], at: usize, value: u64)
    requires { at + length (varint value) ≤ length bytes.old }
    ensures { IsPutBefore bytes.old bytes.new (varint value) at (at + length (varint value)) }
{
    let mut place = at;
    let mut rest = value;
    while rest >= 128 {
        bytes[place] = (rest % 128 + 128) as u8;
        place += 1;
        rest /= 128;
    }
    bytes[place] = rest as u8;
}

/// Puts the shortest varint in front of a place, and says where it begins.
pub(crate) fn put_varint(bytes: &mut [u8], end: usize, value: u64) -> usize
    requires room { length (varint value) ≤ end }
    requires within { end ≤ length bytes.old }
    ensures { IsPutBefore bytes.old bytes.new (varint value) result end }
{
    let start = end - varint_len(value);
    put_varint_at(bytes, start, value);
    start
}

// Puts a copy of so many bytes at another place, by way of a block that is no shorter.
fn move_block(bytes: &mut [u8], from: usize, to: usize, len: usize, block: &mut [u8])
    requires from { from + len ≤ length bytes.old }
    requires to { to + len ≤ length bytes.old }
    requires block { len ≤ length block.old }
    ensures put { IsPutBefore bytes.old bytes.new (take len (drop from bytes.old)) to (to + len) }
    ensures block { length block.new ≡ length block.old }
{
    let held = &mut block[..len];
    held.copy_from_slice(&bytes[from..from + len]);
    bytes[to..to + len].copy_from_slice(held);
}

/// Moves so many bytes up in front of a place, the last ones first, and says where they begin. The two places may overlap.
pub(crate) fn move_up(
    bytes: &mut [u8],
    from: usize,
    len: usize,
    end: usize,
    block: &mut [u8],
) -> usize
    requires order { from + len ≤ end }
    requires within { end ≤ length bytes.old }
    requires block { 0 < length block.old }
    ensures put { IsPutBefore bytes.old bytes.new (take len (drop from bytes.old)) result end }
    ensures block { length block.new ≡ length block.old }
{
    let start = end - len;
    let mut left = len;
    while left > 0 {
        let count = block.len().min(left);
        left -= count;
        move_block(bytes, from + left, start + left, count, block);
    }
    start
}
