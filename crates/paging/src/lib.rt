// Where and when a phone is paged, on plain numbers: document 01, "Paging (6.5.2, 6.5.3)".
#![tactic(auto)]

ghost use Rattle.std.specs.Prelude.{cond, ◌≡◌, ◌+◌, ◌-◌, ◌%◌, ◌<◌, ◌≤◌, length, get_or, [], ◌∷◌};
ghost use Rattle.answers.specs.Outcome.{any_of};
ghost use Rattle.answers.specs.Ranges.{hyperframe, no_ag, no_p};
ghost use Rattle.answers.specs.Refusals.{outcome_of};
ghost use Rattle.groups.specs.Claims.{starts};
ghost use Rattle.groups.specs.Paging.{last_three, is_imsi, misplaced_lines, block_for, paging_of};
ghost use Rattle.paging.specs.Helpers.{first_hit};

use answers::Refusal;
use clock::Frame;
use groups::{CommonLines, PagingBlock};

// The multiframes of 51 frames until FN returns to 0.
const MULTIFRAMES: u32 = 53_248;

// The frames of a multiframe in which the CCCH blocks begin.
const STARTS: [u32; 9] = [6, 12, 16, 22, 26, 32, 36, 42, 46];

// An IMSI has 3 to 15 digits, each 0 to 9.
fn is_imsi(digits: &[u8]) -> bool
    ensures { result ≡ is_imsi digits.now }
{
    (3..=15).contains(&digits.len()) && digits.iter().all(|&digit| digit <= 9)
}

// The last three digits as a number.
fn last_three(digits: &[u8]) -> u32
    requires { 3 ≤ length digits.now }
    ensures { result ≡ last_three digits.now }
{
    let n = digits.len();
    100 * u32::from(digits[n - 3]) + 10 * u32::from(digits[n - 2]) + u32::from(digits[n - 1])
}

// The first multiframe at or after m with the remainder t by p. It may be past the turn.
fn next_multiframe(m: u32, t: u32, p: u32) -> u32
    requires { (t < p) × (m ≤ 53248) × (p ≤ 9) }
    ensures { result ≡ m + (t + p - m % p) % p }
{
    m + (t + p - m % p) % p
}

// The first frame at or after FN that is frame s of a multiframe with the remainder t by p.
#[tactic(auto, using(crate::proofs::Found::before, crate::proofs::Found::past))]
fn first_frame(number: u32, p: u32, t: u32, s: u32) -> u32
    requires { (number < hyperframe) × (t < p) × (p ≤ 9) × (s < 51) }
    ensures { result ≡ first_hit p t s number }
{
    let m = next_multiframe((number + 50 - s) / 51, t, p);
    // Past the turn they are counted from 0 again, so that the first is t, whether or not p divides their number.
    let multiframe = if m < MULTIFRAMES { m } else { t };
    multiframe * 51 + s
}

// The frame of a multiframe in which a CCCH block begins, 0 past the last one, as the definition has it.
fn start(block: u32) -> u32
    ensures { (result ≡ get_or starts block 0) × (result < 51) }
{
    STARTS.get(block as usize).copied().unwrap_or(0)
}

// AG or P is out of range.
#[tactic(auto, unfolding(answers::specs::Outcome::any_of))]
fn are_out_of_range(common: CommonLines) -> bool
    ensures { result ≡ any_of (no_ag common.ag ∷ no_p common.p ∷ []) }
{
    common.ag > 7 || common.p < 2 || common.p > 9
}

// The lines are more than four, or stand beside a 5, or a 5 reserves too many blocks.
#[tactic(auto, unfolding(answers::specs::Outcome::any_of))]
fn are_misplaced(common: CommonLines) -> bool
    ensures { result ≡ any_of (misplaced_lines (record { K = common.lines; combined = common.combined; AG = common.ag; P = common.p })) }
{
    common.lines > 4 || common.combined && (common.lines > 1 || common.ag > 2)
}

// The block of a phone with these last three digits. `blocks` is how many CCCH blocks there are.
#[tactic(auto, using(crate::proofs::Block::answer))]
fn block_for(i: u32, common: CommonLines, blocks: u32, number: u32) -> PagingBlock
    requires { (i < 1000) × (0 < common.lines) × (number < hyperframe) × (blocks ≡ cond common.combined 3 9) × (common.ag < blocks) × (2 ≤ common.p) × (common.p ≤ 9) }
    ensures { result ≡ block_for (record { K = common.lines; combined = common.combined; AG = common.ag; P = common.p }) i number }
{
    let a = blocks - common.ag;
    let n = a * common.p;
    let group = i % n;
    let turn = i / n % common.lines;
    let block = common.ag + group % a;
    PagingBlock {
        tn: 2 * turn,
        block,
        frame: first_frame(number, common.p, group / a, start(block)),
    }
}

// The timeslot and block in which a phone with this IMSI is paged, and the first frame at or after FN in which the block begins.
#[tactic(auto, using(groups::proofs::Imsi::last_three_below), unfolding(groups::specs::Paging::paging_of, answers::specs::Outcome::decide, answers::specs::Outcome::any_of))]
pub fn page(digits: &[u8], common: CommonLines, number: u32) -> Result<PagingBlock, Refusal>
    ensures { outcome_of result ≡ paging_of (record { K = common.lines; combined = common.combined; AG = common.ag; P = common.p }) digits.now number }
{
    if are_out_of_range(common) {
        return Err(Refusal::CellParameter);
    }
    if number >= Frame::HYPERFRAME || !is_imsi(digits) {
        return Err(Refusal::OutOfRange);
    }
    if are_misplaced(common) {
        return Err(Refusal::CommonChannel);
    }
    if common.lines == 0 {
        return Err(Refusal::NoCommonLine);
    }
    let blocks = if common.combined { 3 } else { 9 };
    Ok(block_for(last_three(digits), common, blocks, number))
}
