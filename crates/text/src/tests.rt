// `numbers` and `only` at a count that is a constant and at one that is known only at run time; and what stands in a lent slice after a text, a list or
// figures were put there from a place on, whatever the place.
ghost use Rattle.std.specs.Prelude.{◌≡◌, min, length, map, take};
ghost use Rattle.wording.specs.Words.{words_of};
ghost use Rattle.wording.specs.Numbers.{answer_by, numbers_in, only_of, figure, list_filled};
ghost use Rattle.wording.specs.Print.{spaced, Appended};

use crate::numbers::{figures, list, numbers, only};
use crate::print::{put, put_bits, put_left, put_number, put_numbers, put_right, put_spaces};
use crate::room::Lent;
use crate::wanted::Exactly;
use arrayvec::ArrayVec;
use wording::Reason;

// What is promised of a count that is a constant, said of the array itself.
fn exactly<const N: usize>(line: &[u8]) -> Result<[u64; N], Reason>
    ensures { result ≡ only_of N (words_of line.now) }
{
    only(line, Exactly::<N>)
}

fn first<const N: usize>(line: &[u8]) -> Result<([u64; N], &[u8]), Reason>
    ensures { answer_by (λ found. (found.0, found.1.now)) result ≡ numbers_in N line.now }
{
    numbers(line, Exactly::<N>)
}

// What is promised of a count that is known only at run time, said of the list's items.
fn counted(line: &[u8], count: usize) -> Result<ArrayVec<u64, 7>, Reason>
    ensures { answer_by (λ values. values.items) result ≡ only_of (min count 7) (words_of line.now) }
{
    only(line, count)
}

fn first_counted(line: &[u8], count: usize) -> Result<(ArrayVec<u64, 7>, &[u8]), Reason>
    ensures { answer_by (λ found. (found.0.items, found.1.now)) result ≡ numbers_in (min count 7) line.now }
{
    numbers(line, count)
}

fn gives(found: Result<ArrayVec<u64, 7>, Reason>, expected: &[u64]) -> bool {
    found.is_ok_and(|values| values.as_slice() == expected)
}

fn gives_before(
    found: Result<(ArrayVec<u64, 7>, &[u8]), Reason>,
    expected: &[u64],
    follows: &[u8],
) -> bool {
    found.is_ok_and(|(values, rest)| values.as_slice() == expected && rest == follows)
}

#[test]
fn constant(rt: HostRuntime) {
    assert!(rt;
        first(b" 1 2 3 rest").is_ok_and(|(values, rest)| values == [1, 2]
            && rest == b" 3 rest".as_slice())
    );
    assert!(rt; exactly(b" 1 2 3") == Ok([1, 2, 3]));
    assert!(rt; exactly::<2>(b" 1 2 3") == Err(Reason::TooManyWords));
    assert!(rt; exactly::<4>(b" 1 2 3") == Err(Reason::TooFewWords));
}

#[test]
fn known_at_run_time(rt: HostRuntime) {
    assert!(rt; gives_before(first_counted(b" 1 2 3 rest", 2), &[1, 2], b" 3 rest"));
    assert!(rt; first_counted(b" 1 2 3 rest", 9).is_err_and(|reason| reason == Reason::NotANumber));
    assert!(rt; gives(counted(b" 1 2 3", 3), &[1, 2, 3]));
    assert!(rt; counted(b" 1 2 3", 2).is_err_and(|reason| reason == Reason::TooManyWords));
    assert!(rt; counted(b" 1 2 3", 9).is_err_and(|reason| reason == Reason::TooFewWords));
}

// A count above seven is taken for seven.
#[test]
fn at_most_seven(rt: HostRuntime) {
    assert!(rt;
        gives_before(
            first_counted(b"1 2 3 4 5 6 7 8 9", 9),
            &[1, 2, 3, 4, 5, 6, 7],
            b" 8 9"
        )
    );
    assert!(rt; gives(counted(b"1 2 3 4 5 6 7", 9), &[1, 2, 3, 4, 5, 6, 7]));
    assert!(rt; counted(b"1 2 3 4 5 6 7 8", 9).is_err_and(|reason| reason == Reason::TooManyWords));
}

fn put_at(out: &mut [u8], at: usize, text: &[u8]) -> usize
    ensures { Appended out.old at out.new result text.now }
{
    let mut lent = Lent { slice: out, at };
    put(&mut lent, text);
    lent.end()
}

fn put_numbers_at(out: &mut [u8], at: usize, list: &[u32]) -> usize
    ensures { Appended out.old at out.new result (spaced list.now) }
{
    let mut lent = Lent { slice: out, at };
    put_numbers(&mut lent, list);
    lent.end()
}

fn figures_of(word: &[u8], out: &mut [u8]) -> usize
    ensures { (length out.new ≡ length out.old) × (result ≡ min (length word.now) (length out.old)) × (take result out.new ≡ take result (map figure word.now)) }
{
    let mut lent = Lent { slice: out, at: 0 };
    figures(word, &mut lent);
    lent.end()
}

// The list, or why there is none; and where it ends, on an error too.
fn list_of(line: &[u8], out: &mut [u16]) -> (Result<(), Reason>, usize)
    ensures { (length out.new ≡ length out.old) × ((result.0, take result.1 out.new) ≡ list_filled (length out.old) (words_of line.now)) }
{
    let mut lent = Lent { slice: out, at: 0 };
    let listed = list(line, &mut lent);
    (listed, lent.end())
}

#[test]
fn texts(rt: HostRuntime) {
    let mut out = [b'.'; 32];
    let mut lent = Lent {
        slice: &mut out,
        at: 2,
    };
    put(&mut lent, b"ok");
    put_numbers(&mut lent, &[20, 4]);
    put_spaces(&mut lent, 2);
    put_number(&mut lent, 7);
    put_right(&mut lent, 8, 3);
    put_left(&mut lent, 9, 3);
    put_bits(&mut lent, &[0, 1, 2]);
    assert_eq!(rt; lent.end(), 21);
    assert_eq!(rt;
        out.as_slice(),
        b"..ok 20 4  7  89  011...........".as_slice()
    );
}

#[test]
fn places(rt: HostRuntime) {
    let mut out = [b'.'; 4];
    assert_eq!(rt; put_at(&mut out, 2, b"open"), 4);
    assert_eq!(rt; out.as_slice(), b"..op".as_slice());
    assert_eq!(rt; put_at(&mut out, 4, b"open"), 4);
    assert_eq!(rt; put_at(&mut out, usize::MAX, b"open"), 4);
    assert_eq!(rt; put_numbers_at(&mut out, 9, &[]), 4);
    assert_eq!(rt; out.as_slice(), b"..op".as_slice());
}

#[test]
fn lists(rt: HostRuntime) {
    let mut out = [9; 3];
    assert!(rt; list_of(b" 1 70000", &mut out) == (Ok(()), 2));
    assert_eq!(rt; out.as_slice(), [1, 65535, 9].as_slice());
    assert!(rt; list_of(b"1 2 3 4", &mut out) == (Err(Reason::TooManyWords), 3));
    assert!(rt; list_of(b"5 x", &mut out) == (Err(Reason::NotANumber), 1));
    let mut digits = [0; 3];
    assert_eq!(rt; figures_of(b"1a", &mut digits), 2);
    assert_eq!(rt; figures_of(b"90123", &mut digits), 3);
    assert_eq!(rt; digits.as_slice(), [9, 0, 1].as_slice());
}
