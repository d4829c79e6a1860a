// The bits of a mobile allocation's mask.
#![tactic(auto)]

ghost use Rattle.std.specs.Prelude.{◌≡◌};
ghost use Rattle.hops.specs.Masks.{contains, one_at_or_above, share_one};

// The mask has a one at the CA position.
#[tactic(auto, using(hops::proofs::Bits::bit_past))]
pub fn contains(mask: u64, position: u32) -> bool
    ensures { result ≡ contains mask position }
{
    position < 64 && (mask >> position) % 2 == 1
}

// The masks share a one.
#[tactic(auto, using(hops::proofs::Bits::share_and))]
pub fn overlap(a: u64, b: u64) -> bool
    ensures { result ≡ share_one a b }
{
    (a & b) != 0
}

// The mask has a one at or above a cell allocation's length.
#[tactic(auto, using(hops::proofs::Bits::above_shift, hops::proofs::Bits::above_none))]
pub fn one_at_or_above(mask: u64, length: u32) -> bool
    ensures { result ≡ one_at_or_above mask length }
{
    length < 64 && (mask >> length) != 0
}
