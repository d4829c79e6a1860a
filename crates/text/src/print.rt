// What is written to a buffer, behind what stands there: an `ArrayVec`, or a lent slice from a place on (room.rt). What has no room is left out, so nothing can fail.
ghost use Rattle.std.specs.Prelude.{◌≡◌, [], ◌∷◌, map, replicate};
ghost use Rattle.wording.specs.Print.{decimal_of, right, left, spaced, bit_character};
ghost use Rattle.text.specs.Room.{Put};

use crate::room::{Change, Room};
use itoa::Buffer;

#[inline]
pub fn put<B: Room>(out: &mut B, text: &[u8])
    ensures { Put (B.buffer out.old) (B.buffer out.new) text.now }
{
    out.put(text);
}

#[inline]
pub fn put_byte<B: Room>(out: &mut B, byte: u8)
    ensures { Put (B.buffer out.old) (B.buffer out.new) (byte ∷ []) }
{
    out.put_byte(byte);
}

pub fn put_spaces<B: Room>(out: &mut B, count: usize)
    ensures { Put (B.buffer out.old) (B.buffer out.new) (replicate count 32) }
{
    for _ in 0..out.left().min(count) {
        put_byte(out, b' ');
    }
}

// A number in decimal.
pub fn put_number<B: Room>(out: &mut B, n: u64)
    ensures { Put (B.buffer out.old) (B.buffer out.new) (decimal_of n) }
{
    put(out, Buffer::new().format(n).as_bytes());
}

// A number with spaces before it, up to `width` characters.
pub fn put_right<B: Room>(out: &mut B, n: u64, width: usize)
    ensures { Put (B.buffer out.old) (B.buffer out.new) (right width (decimal_of n)) }
{
    let mut buffer = Buffer::new();
    let text = buffer.format(n).as_bytes();
    put_spaces(out, width.saturating_sub(text.len()));
    put(out, text);
}

// A number with spaces after it, up to `width` characters.
pub fn put_left<B: Room>(out: &mut B, n: u64, width: usize)
    ensures { Put (B.buffer out.old) (B.buffer out.new) (left width (decimal_of n)) }
{
    let mut buffer = Buffer::new();
    let text = buffer.format(n).as_bytes();
    put(out, text);
    put_spaces(out, width.saturating_sub(text.len()));
}

// Numbers with a space before each.
pub fn put_numbers<B: Room>(out: &mut B, list: &[u32])
    ensures { Put (B.buffer out.old) (B.buffer out.new) (spaced list.now) }
{
    for &n in list {
        put_byte(out, b' ');
        put_number(out, u64::from(n));
    }
}

// Bits as characters.
struct BitCharacter;

impl Change for BitCharacter {
    ghost changed = { bit_character };

    fn change(bit: u8) -> u8 {
        if bit == 0 { b'0' } else { b'1' }
    }
}

// Bits, a character for each.
pub fn put_bits<B: Room>(out: &mut B, bits: &[u8])
    ensures { Put (B.buffer out.old) (B.buffer out.new) (map bit_character bits.now) }
{
    out.put_each::<BitCharacter>(bits);
}
