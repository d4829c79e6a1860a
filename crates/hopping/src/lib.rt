// Frequency hopping: document 01, "Hopping (6.2)"; document 02, No. 2. sequence.rt has the hopping sequence.
#![tactic(auto)]

mod sequence;

ghost use Rattle.std.specs.Prelude.{◌≡◌};
ghost use Rattle.answers.specs.Outcome.{decide};
ghost use Rattle.answers.specs.Refusals.{outcome_of};
ghost use Rattle.hops.specs.Masks.{ones};
ghost use Rattle.hops.specs.Hopping.{mai_of, line_selection, tuned, hopping_causes, position_of, hop_of};

use answers::Refusal;
use cell_allocation::{entry, is_allocation};
use clock::Frame;
use hops::{Selection, Tuning};
use masks::one_at_or_above;
use select::position_at;

// MAI of a line with this mask, HSN and MAIO in frame FN, in a cell allocation whose length is known to be right.
#[tactic(auto, using(hops::proofs::Bits::count_ones), unfolding(answers::specs::Outcome::decide, answers::specs::Outcome::any_of))]
fn index(length: u32, mask: u64, hsn: u32, maio: u32, number: u32) -> Result<u32, Refusal>
    ensures { outcome_of result ≡ decide (hopping_causes length mask hsn maio number) (mai_of (ones mask) hsn maio number) }
{
    if hsn > 63 {
        return Err(Refusal::OutOfRange);
    }
    let frame = Frame::new(number)?;
    if mask == 0 || one_at_or_above(mask, length) {
        return Err(Refusal::MobileAllocation);
    }
    let n = mask.count_ones();
    if maio >= n {
        return Err(Refusal::Maio);
    }
    Ok(sequence::mai(n, hsn, maio, number, frame))
}

// The same, with the position that MAI selects. Compiled into its callers: handed back as a value, the two numbers would go through memory.
#[inline(always)]
#[tactic(auto, using(crate::proofs::Chosen::refused_alike, crate::proofs::Chosen::selected))]
fn hopped(length: u32, mask: u64, hsn: u32, maio: u32, number: u32) -> Result<Selection, Refusal>
    ensures { outcome_of result ≡ decide (hopping_causes length mask hsn maio number) (line_selection mask hsn maio number) }
{
    let mai = index(length, mask, hsn, maio, number)?;
    let position = position_at(mask, mai);
    Ok(Selection { mai, position })
}

// The same in a cell allocation of any length. The numbers come one by one: a struct of them would be taken apart at once, and
// nobody keeps one. Compiled into its callers, as `hopped` is.
#[inline(always)]
#[tactic(auto, unfolding(hops::specs::Hopping::position_of, answers::specs::Outcome::decide, answers::specs::Outcome::any_of))]
pub fn position(
    length: u32,
    mask: u64,
    hsn: u32,
    maio: u32,
    number: u32,
) -> Result<Selection, Refusal>
    ensures { outcome_of result ≡ position_of length mask hsn maio number }
{
    match length {
        1..=64 => hopped(length, mask, hsn, maio, number),
        _ => Err(Refusal::CellAllocation),
    }
}

// What is tuned to by this selection: the ARFCN is the entry at the position.
fn tuned(ca: &[u16], selection: Selection) -> Tuning
    ensures { result ≡ tuned ca.now selection }
{
    let Selection { mai, position } = selection;
    Tuning {
        arfcn: entry(ca, position),
        mai,
        position,
    }
}

// The ARFCN that a line with this mask, HSN and MAIO uses in frame FN of a cell with this allocation, with MAI and the position.
#[tactic(auto, using(hops::proofs::Apart::at_most_64), unfolding(hops::specs::Hopping::hop_of, answers::specs::Outcome::decide, answers::specs::Outcome::any_of))]
pub fn hop(ca: &[u16], mask: u64, hsn: u32, maio: u32, number: u32) -> Result<Tuning, Refusal>
    ensures { outcome_of result ≡ hop_of ca.now mask hsn maio number }
{
    if !is_allocation(ca) {
        return Err(Refusal::CellAllocation);
    }
    let selection = hopped(ca.len() as u32, mask, hsn, maio, number)?;
    Ok(tuned(ca, selection))
}
