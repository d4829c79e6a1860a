// The one of a mask that has a given number of ones below it, found by counts of the ones below a position.
#![tactic(auto)]

ghost use Rattle.std.specs.Prelude.{◌≡◌, ◌<◌};
ghost use Rattle.hops.specs.Masks.{ones_below};
ghost use Rattle.select.specs.Helpers.{select_of};

// How many of the mask's ones stand below bit p. The shift keeps only these; an AND with p ones would take the machine a step more.
#[tactic(auto, using(hops::proofs::Bits::ones_shifted_up))]
fn ones_below(mask: u64, p: u32) -> u32
    requires { (0 < p) × (p < 64) }
    ensures { result ≡ ones_below mask p }
{
    (mask << (64 - p)).count_ones()
}

// The mask's one that has mai ones below it, 63 if there is none, which whoever hops has ruled out: an Option would be unwrapped there, and be no plainer.
// It is one of the highest `rest` bits; the lower half of those left drops out if at most mai ones stand below the middle. A loop, since a fold over a
// closure would be compiled with branches, and `rest` in place of the lowest bit left, since that is what the mask is shifted by.
#[tactic(auto, using(crate::proofs::Halving::two_halves, crate::proofs::Halving::one_half, crate::proofs::Halving::whole, crate::proofs::Halving::to_upper, crate::proofs::Halving::to_lower, crate::proofs::Halving::found))]
pub fn position_at(mask: u64, mai: u32) -> u32
    ensures { result ≡ select_of mask mai }
{
    let mut rest = 64;
    for half in [32, 16, 8, 4, 2, 1] {
        if ones_below(mask, 64 - (rest - half)) <= mai {
            rest -= half;
        }
    }
    64 - rest
}
