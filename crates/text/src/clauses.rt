// What each function of print.rt and `figures`, `list` promise, said of a lent slice and a place in it, and of an `ArrayVec`; tests.rt has the same of `put` and
// `put_numbers`, and runs them.
ghost use Rattle.std.specs.Prelude.{◌≡◌, [], ◌∷◌, map, take, replicate};
ghost use Rattle.wording.specs.Words.{words_of};
ghost use Rattle.wording.specs.Numbers.{figure, list_filled};
ghost use Rattle.wording.specs.Print.{decimal_of, right, left, spaced, bit_character, written, Appended};

use crate::numbers::{figures, list};
use crate::print::{
    put, put_bits, put_byte, put_left, put_number, put_numbers, put_right, put_spaces,
};
use crate::room::Lent;
use arrayvec::ArrayVec;
use wording::Reason;

fn put_spaces_at(out: &mut [u8], at: usize, count: usize) -> usize
    ensures { Appended out.old at out.new result (replicate count 32) }
{
    let mut lent = Lent { slice: out, at };
    put_spaces(&mut lent, count);
    lent.end()
}

fn put_number_at(out: &mut [u8], at: usize, n: u64) -> usize
    ensures { Appended out.old at out.new result (decimal_of n) }
{
    let mut lent = Lent { slice: out, at };
    put_number(&mut lent, n);
    lent.end()
}

fn put_right_at(out: &mut [u8], at: usize, n: u64, width: usize) -> usize
    ensures { Appended out.old at out.new result (right width (decimal_of n)) }
{
    let mut lent = Lent { slice: out, at };
    put_right(&mut lent, n, width);
    lent.end()
}

fn put_left_at(out: &mut [u8], at: usize, n: u64, width: usize) -> usize
    ensures { Appended out.old at out.new result (left width (decimal_of n)) }
{
    let mut lent = Lent { slice: out, at };
    put_left(&mut lent, n, width);
    lent.end()
}

fn put_bits_at(out: &mut [u8], at: usize, bits: &[u8]) -> usize
    ensures { Appended out.old at out.new result (map bit_character bits.now) }
{
    let mut lent = Lent { slice: out, at };
    put_bits(&mut lent, bits);
    lent.end()
}

fn put_to<const N: usize>(out: &mut ArrayVec<u8, N>, text: &[u8])
    ensures { out.new.items ≡ written N out.old.items (text.now) }
{
    put(out, text);
}

fn put_byte_to<const N: usize>(out: &mut ArrayVec<u8, N>, byte: u8)
    ensures { out.new.items ≡ written N out.old.items (byte ∷ []) }
{
    put_byte(out, byte);
}

fn put_numbers_to<const N: usize>(out: &mut ArrayVec<u8, N>, list: &[u32])
    ensures { out.new.items ≡ written N out.old.items (spaced list.now) }
{
    put_numbers(out, list);
}

fn put_spaces_to<const N: usize>(out: &mut ArrayVec<u8, N>, count: usize)
    ensures { out.new.items ≡ written N out.old.items (replicate count 32) }
{
    put_spaces(out, count);
}

fn put_number_to<const N: usize>(out: &mut ArrayVec<u8, N>, n: u64)
    ensures { out.new.items ≡ written N out.old.items (decimal_of n) }
{
    put_number(out, n);
}

fn put_right_to<const N: usize>(out: &mut ArrayVec<u8, N>, n: u64, width: usize)
    ensures { out.new.items ≡ written N out.old.items (right width (decimal_of n)) }
{
    put_right(out, n, width);
}

fn put_left_to<const N: usize>(out: &mut ArrayVec<u8, N>, n: u64, width: usize)
    ensures { out.new.items ≡ written N out.old.items (left width (decimal_of n)) }
{
    put_left(out, n, width);
}

fn put_bits_to<const N: usize>(out: &mut ArrayVec<u8, N>, bits: &[u8])
    ensures { out.new.items ≡ written N out.old.items (map bit_character bits.now) }
{
    put_bits(out, bits);
}

fn figures_to<const N: usize>(word: &[u8]) -> ArrayVec<u8, N>
    ensures { result.items ≡ take N (map figure word.now) }
{
    let mut digits = ArrayVec::new();
    figures(word, &mut digits);
    digits
}

fn list_to<const N: usize>(line: &[u8], out: &mut ArrayVec<u16, N>) -> Result<(), Reason>
    ensures { (result, out.new.items) ≡ list_filled N (words_of line.now) }
{
    list(line, out)
}
