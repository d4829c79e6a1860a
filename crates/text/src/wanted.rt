// How many numbers are wanted of a line, and what they are put in: a count that is a constant, or one that is known only at run time.
ghost use Rattle.std.specs.Prelude.{ℕ, List, ◌≡◌, min, replicate, slice_set};

use arrayvec::ArrayVec;

// How many numbers are wanted.
pub trait Wanted: Copy {
    // What the numbers are put in.
    type Values: Drop;

    ghost count: { Self → ℕ };

    // The numbers in it, in order.
    ghost told: { Self.Values → List ℕ };

    fn count(self) -> usize
        ensures { result ≡ count self };

    // Zeros, as many as are wanted.
    fn zeros(self) -> Self::Values
        ensures { told result ≡ replicate (count self) 0 };

    // The number at i is n from now on, where there is one.
    fn put(values: &mut Self::Values, i: usize, n: u64)
        ensures { told values.new ≡ slice_set (told values.old) i n };
}

// N of them, in an array.
#[derive(Clone, Copy)]
pub struct Exactly<const N: usize>;

impl<const N: usize> Wanted for Exactly<N> {
    type Values = [u64; N];

    ghost count = { λ it. N };

    ghost told = { λ values. values };

    #[inline]
    fn count(self) -> usize {
        N
    }

    #[inline]
    fn zeros(self) -> [u64; N] {
        [0; N]
    }

    #[inline]
    fn put(values: &mut [u64; N], i: usize, n: u64) {
        put_at(values, i, n);
    }
}

// So many of them, at most seven: a larger count is taken for seven.
impl Wanted for usize {
    type Values = ArrayVec<u64, 7>;

    ghost count = { λ it. min it 7 };

    ghost told = { λ values. values.items };

    #[inline]
    fn count(self) -> usize {
        self.min(7)
    }

    #[inline]
    fn zeros(self) -> ArrayVec<u64, 7> {
        let mut values = ArrayVec::from([0; 7]);
        values.truncate(self.count());
        values
    }

    #[inline]
    fn put(values: &mut ArrayVec<u64, 7>, i: usize, n: u64) {
        put_at(values.as_mut_slice(), i, n);
    }
}

#[inline]
fn put_at(values: &mut [u64], i: usize, n: u64)
    ensures { values.new ≡ slice_set values.old i n }
{
    if i < values.len() {
        values[i] = n;
    }
}
