// The hopping sequence: MAI from N, HSN, MAIO and the frame.
ghost use Rattle.std.specs.Prelude.{◌≡◌, ◌<◌, ◌≤◌, ◌+◌, ◌%◌, ◌^◌, get_or};
ghost use Rattle.answers.specs.Ranges.{hyperframe};
ghost use Rattle.hops.specs.Hopping.{rntable, nbin, M, S, mai_of};
ghost use Rattle.clock.specs.Clock.{parts_of};

use clock::Frame;

const RNTABLE: [u8; 114] = [
    48, 98, 63, 1, 36, 95, 78, 102, 94, 73, 0, 64, 25, 81, 76, 59, 124, 23, 104, 100, 101, 47, 118,
    85, 18, 56, 96, 86, 54, 2, 80, 34, 127, 13, 6, 89, 57, 103, 12, 74, 55, 111, 75, 38, 109, 71,
    112, 29, 11, 88, 87, 19, 3, 68, 110, 26, 33, 31, 8, 45, 82, 58, 40, 107, 32, 5, 106, 92, 62,
    67, 77, 108, 122, 37, 60, 66, 121, 42, 51, 126, 117, 114, 4, 90, 43, 52, 53, 113, 120, 72, 16,
    49, 7, 79, 119, 61, 22, 84, 9, 97, 91, 15, 21, 24, 46, 39, 93, 105, 65, 70, 125, 99, 17, 123,
];

// An entry of RNTABLE.
#[tactic(auto, unfolding(hops::specs::Hopping::rntable))]
fn table_entry(index: u32) -> u8
    requires { index < 114 }
    ensures { result ≡ get_or rntable index 0 }
{
    RNTABLE[index as usize]
}

// M, which is at most 152.
#[tactic(auto, using(hops::proofs::Mai::index_lt, crate::proofs::Computed::entry_le))]
fn m(hsn: u32, frame: Frame) -> u8
    requires { (hsn < 64) × (frame.t2 ≤ 25) × (frame.t3 ≤ 50) }
    ensures { result ≡ M hsn frame }
{
    let index = (hsn ^ (frame.t1 % 64)) + frame.t3;
    frame.t2 as u8 + table_entry(index)
}

// x mod 2^NBIN: the lowest NBIN bits of x. N has 8 less NBIN leading zeros.
#[tactic(auto, using(crate::proofs::Computed::leading_lt, crate::proofs::Computed::masked))]
fn reduced(x: u8, n: u8) -> u8
    requires { (0 < n) × (n ≤ 64) }
    ensures { result ≡ x % 2 ^ nbin n }
{
    x & (u8::MAX >> n.leading_zeros())
}

// x mod n, for x below twice n: a subtraction at most.
fn wrapped(x: u8, n: u8) -> u8
    requires { x < n + n }
    ensures { result ≡ x % n }
{
    if x < n { x } else { x - n }
}

// S of a frame. M' and T', and their sum, which is at most 177, are bytes too, and nothing is cut off. Both cases of S are computed: which it
// is hangs on the frame, and cannot be foreseen.
#[tactic(auto, using(crate::proofs::Computed::reduced_lt, crate::proofs::Computed::twice_once, crate::proofs::Computed::s_below, crate::proofs::Computed::s_above))]
fn s(n: u8, hsn: u32, frame: Frame) -> u8
    requires { (0 < n) × (n ≤ 64) × (hsn < 64) × (frame.t2 ≤ 25) × (frame.t3 ≤ 50) }
    ensures { result ≡ S n hsn frame }
{
    let m_reduced: u8 = reduced(m(hsn, frame), n);
    let t_reduced: u8 = reduced(frame.t3 as u8, n);
    let sum: u8 = m_reduced + t_reduced;
    let other = wrapped(wrapped(sum, 2 * n), n);
    if m_reduced < n { m_reduced } else { other }
}

// MAI of frame FN, whose counters are `frame`.
#[tactic(auto, using(hops::proofs::Mai::s_lt, hops::proofs::Mai::mai_cyclic, hops::proofs::Mai::mai_random))]
pub(crate) fn mai(n: u32, hsn: u32, maio: u32, number: u32, frame: Frame) -> u32
    requires { (n ≤ 64) × (hsn < 64) × (maio < n) × (number < hyperframe) × (frame ≡ parts_of number) }
    ensures { result ≡ mai_of n hsn maio number }
{
    if hsn == 0 {
        return (number + maio) % n;
    }
    let n_byte = n as u8;
    u32::from(wrapped(s(n_byte, hsn, frame) + maio as u8, n_byte))
}
