// The numbers in a line, and why a line has none where they are wanted.
ghost use Rattle.std.specs.Prelude.{◌≡◌, map, take};
ghost use Rattle.wording.specs.Words.{words_of};
ghost use Rattle.wording.specs.Numbers.{is_number, value_from, within, number_of, answer_by, numbers_in, only_of, list_filled, parameter, figure};
ghost use Rattle.text.specs.Room.{Kept};

use crate::entries::Entries;
use crate::room::{Change, Room};
use crate::wanted::Wanted;
use crate::words::next_word;
use wording::Reason;

// One digit or more, and nothing else.
fn is_number(word: &[u8]) -> bool
    ensures { result ≡ is_number word.now }
{
    !word.is_empty() && word.iter().all(|c| c.is_ascii_digit())
}

// The value of the characters as digits, first digit highest. By hand, since `str::parse` takes a leading + as well, and has one error where two
// reasons are told.
fn value(word: &[u8]) -> Result<u64, Reason>
    ensures { result ≡ within (value_from 0 word.now) }
{
    let mut n: u64 = 0;
    for &c in word {
        let digit = u64::from(c.saturating_sub(b'0'));
        let tens = n.checked_mul(10).ok_or(Reason::NumberTooLarge)?;
        n = tens.checked_add(digit).ok_or(Reason::NumberTooLarge)?;
    }
    Ok(n)
}

// The number that a word is.
pub fn number(word: &[u8]) -> Result<u64, Reason>
    ensures { result ≡ number_of word.now }
{
    if !is_number(word) {
        return Err(Reason::NotANumber);
    }
    value(word)
}

// The numbers that the next words are, as many as are wanted, and what follows these words.
pub fn numbers<W: Wanted>(line: &[u8], wanted: W) -> Result<(W::Values, &[u8]), Reason>
    ensures { answer_by (λ found. (W.told found.0, found.1.now)) result ≡ numbers_in (W.count wanted) line.now }
{
    let mut values = wanted.zeros();
    let mut rest = line;
    for i in 0..wanted.count() {
        let (word, after) = next_word(rest).ok_or(Reason::TooFewWords)?;
        W::put(&mut values, i, number(word)?);
        rest = after;
    }
    Ok((values, rest))
}

// The numbers that the next words are, as many as are wanted, and no further word.
pub fn only<W: Wanted>(line: &[u8], wanted: W) -> Result<W::Values, Reason>
    ensures { answer_by W.told result ≡ only_of (W.count wanted) (words_of line.now) }
{
    let (values, rest) = numbers(line, wanted)?;
    if next_word(rest).is_some() {
        return Err(Reason::TooManyWords);
    }
    Ok(values)
}

// A number as 32 bits hold it: a larger one as the largest.
pub fn narrow(n: u64) -> u32
    ensures { result ≡ parameter n }
{
    u32::try_from(n).unwrap_or(u32::MAX)
}

// The numbers that all the words are, each as 16 bits hold it, in place of what the list had. On an error it has those of the words before the one at fault.
pub fn list<E: Entries>(line: &[u8], out: &mut E) -> Result<(), Reason>
    ensures { ((result, (E.buffer out.new).items) ≡ list_filled (E.buffer out.old).room (words_of line.now)) × Kept (E.buffer out.old) (E.buffer out.new) }
{
    out.clear();
    let mut rest = line;
    while let Some((word, after)) = next_word(rest) {
        if out.is_full() {
            return Err(Reason::TooManyWords);
        }
        out.push(u16::try_from(number(word)?).unwrap_or(u16::MAX));
        rest = after;
    }
    Ok(())
}

// What a character of an IMSI or of bits goes in as: what is no digit as 255, which the calls refuse.
struct Figure;

impl Change for Figure {
    ghost changed = { figure };

    fn change(c: u8) -> u8 {
        if c.is_ascii_digit() { c - b'0' } else { 255 }
    }
}

// The characters of a word as numbers, as many as there is room for, in place of what stood there.
pub fn figures<B: Room>(word: &[u8], digits: &mut B)
    ensures { ((B.buffer digits.new).items ≡ take (B.buffer digits.old).room (map figure word.now)) × Kept (B.buffer digits.old) (B.buffer digits.new) }
{
    digits.clear();
    digits.put_each::<Figure>(word);
}
