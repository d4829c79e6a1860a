// The check of a cell allocation, and its entries.
#![tactic(auto)]

ghost use Rattle.std.specs.Prelude.{◌≡◌, not, ◌&&◌, get_or};
ghost use Rattle.hops.specs.Allocation.{is_allocation, lists};

const LAST_ARFCN: u16 = 1023;

// The list is 1 to 64 ARFCNs above 0, strictly ascending. The first of an ascending list is the smallest, the last the largest.
#[tactic(auto, using(crate::proofs::Ascending::empty, crate::proofs::Ascending::too_long, crate::proofs::Ascending::zero_first, crate::proofs::Ascending::too_large, crate::proofs::Ascending::judged))]
fn ascends(ca: &[u16]) -> bool
    ensures { result ≡ (is_allocation ca.now && not (lists ca.now 0)) }
{
    let (Some(&first), Some(&last)) = (ca.first(), ca.last()) else {
        return false;
    };
    ca.len() <= 64 && 0 < first && last <= LAST_ARFCN && ca.is_sorted_by(|a, b| a < b)
}

// The list is 1 to 64 ARFCNs in ascending order, but ARFCN 0, if it is one of them, comes last.
#[tactic(auto, using(crate::proofs::LastZero::empty, crate::proofs::LastZero::other_last, crate::proofs::LastZero::zero_alone, crate::proofs::LastZero::zero_last, crate::proofs::LastZero::too_long))]
pub fn is_allocation(ca: &[u16]) -> bool
    ensures { result ≡ is_allocation ca.now }
{
    let Some((&last, others)) = ca.split_last() else {
        return false;
    };
    if last != 0 {
        return ascends(ca);
    }
    others.is_empty() || (others.len() < 64 && ascends(others))
}

// The entry at a position, 0 past the end, as the definition has it: who asks has ruled that out, and an `Option` would be unwrapped at once.
pub fn entry(ca: &[u16], position: u32) -> u32
    ensures { result ≡ get_or ca.now position 0 }
{
    ca.get(position as usize)
        .map_or(0, |&arfcn| u32::from(arfcn))
}
