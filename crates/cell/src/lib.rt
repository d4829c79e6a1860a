// The calls on a cell: start, open, close, seize, release and page. Document 01, "The cell and its calls" and "Paging". The cell is the words that the
// caller lends, which `storage` reads and writes; `placing` has the tests of refusals 8 and 9, `onair` the calls line and who. allocation.rt has the
// search in a cell allocation, subchannels.rt the subchannels of a line, value.rt the cell as a value.
#![tactic(auto)]

mod allocation;
mod subchannels;
pub mod value;

ghost use Rattle.std.proofs.Math.Option.{some};
ghost use Rattle.std.specs.Prelude.{◌≡◌};
ghost use Rattle.answers.specs.Outcome.{any_of};
ghost use Rattle.answers.specs.Refusals.{refusal_of, outcome_of};
ghost use Rattle.rules.specs.Calls.{open_range, refused_cell, start_of, open_of, close_of, seize_of, release_of, changed};
ghost use Rattle.cell.specs.Helpers.{subchannel_of};
ghost use Rattle.cell.specs.Leaves.{Leaves};
ghost use Rattle.rules.specs.Paging.{page_of};
ghost use Rattle.storage.specs.Words.{cell_of};

use allocation::lists;
use answers::Refusal;
use cell_allocation::is_allocation;
use frame_map::is_combination;
use groups::{CommonLines, PagingBlock};
use masks::one_at_or_above;
use placing::clash::in_the_way;
use placing::common::{common_lines, has_combined, misplaced, needed};
use rules::{Parameters, Values};
use storage::{
    CLOSED, WORDS, length, owner_at, parameters, put_line, put_owner, put_start, values_at,
};
use subchannels::{no_owner, some_held, subchannels};

// Refused, start leaves the cell of ARFCN 0.
fn refuse_start(cell: &mut [u32; WORDS], refusal: Refusal) -> Result<(), Refusal>
    ensures { changed result (cell_of cell.new) ≡ record { refusal = some (refusal_of refusal); cell = refused_cell } }
{
    let least = Parameters {
        c0: 0,
        bcc: 0,
        ag: 0,
        p: 2,
    };
    put_start(cell, &[0], least);
    Err(refusal)
}

// The words become a cell with this CA, C0, BCC, BS_AG_BLKS_RES and BS_PA_MFRMS, all lines closed.
#[tactic(auto, using(hops::proofs::Apart::at_most_64, storage::proofs::Storage::start_put), unfolding(rules::specs::Calls::start_of, answers::specs::Outcome::decide, answers::specs::Outcome::any_of))]
pub fn start(cell: &mut [u32; WORDS], ca: &[u16], parameters: Parameters) -> Result<(), Refusal>
    ensures { changed result (cell_of cell.new) ≡ start_of ca.now parameters.c0 parameters.bcc parameters.ag parameters.p }
{
    if !is_allocation(ca) {
        return refuse_start(cell, Refusal::CellAllocation);
    }
    let Parameters { c0, bcc, ag, p } = parameters;
    if !lists(ca, c0) | ((bcc > 7) | ((ag > 7) | ((p < 2) | (p > 9)))) {
        return refuse_start(cell, Refusal::CellParameter);
    }
    put_start(cell, ca, parameters);
    Ok(())
}

// A request's numbers are wide, no enum and no narrower type, since a rule of the project wants odd ones to come in and be refused. Those
// of a seize and a release, and of what is asked of a frame, come one by one: a struct of them would be taken apart at once.
#[tactic(auto, unfolding(answers::specs::Outcome::any_of))]
fn out_of_range(line: u32, values: Values) -> bool
    ensures { result ≡ any_of (open_range line values) }
{
    let Values {
        tn,
        hsn,
        combination,
        tsc,
        ..
    } = values;
    (line > 63) | ((tn > 7) | ((hsn > 63) | (!is_combination(combination) | (tsc > 7))))
}

// Line `line` gets the six values.
#[tactic(auto, using(hops::proofs::Bits::count_ones, rules::proofs::Lines::open_line), unfolding(rules::specs::Calls::open_of, answers::specs::Outcome::decide, answers::specs::Outcome::any_of))]
pub fn open(cell: &mut [u32; WORDS], line: u32, values: Values) -> Result<(), Refusal>
    ensures { Leaves result cell.old cell.new (open_of (cell_of cell.old) line values) }
{
    if out_of_range(line, values) {
        return Err(Refusal::OutOfRange);
    }
    let Values { mask, maio, .. } = values;
    if (mask == 0) | one_at_or_above(mask, length(cell)) {
        return Err(Refusal::MobileAllocation);
    }
    if maio >= mask.count_ones() {
        return Err(Refusal::Maio);
    }
    let n = line as usize;
    if values_at(cell, n).combination != 0 {
        return Err(Refusal::LineOpen);
    }
    if misplaced(cell, values) {
        return Err(Refusal::CommonChannel);
    }
    if let Some(line) = in_the_way(cell, values) {
        return Err(Refusal::Clash { line });
    }
    put_line(cell, n, values);
    Ok(())
}

// Line `line` is closed.
#[tactic(auto, unfolding(rules::specs::Calls::close_of, rules::specs::State::closed_line, answers::specs::Outcome::decide, answers::specs::Outcome::any_of))]
pub fn close(cell: &mut [u32; WORDS], line: u32) -> Result<(), Refusal>
    ensures { Leaves result cell.old cell.new (close_of (cell_of cell.old) line) }
{
    if line > 63 {
        return Err(Refusal::OutOfRange);
    }
    let n = line as usize;
    if values_at(cell, n).combination == 0 {
        return Err(Refusal::LineClosed);
    }
    if needed(cell, n) {
        return Err(Refusal::CommonChannel);
    }
    if some_held(cell, n) {
        return Err(Refusal::LineHeld);
    }
    put_line(cell, n, CLOSED);
    Ok(())
}

// The owner of subchannel s of line `line`, which a call of `owner` may change: what seize and release have in common.
#[tactic(auto, unfolding(answers::specs::Outcome::decide, answers::specs::Outcome::any_of))]
fn owner_of_subchannel(cell: &[u32; WORDS], line: u32, s: u32, owner: u32) -> Result<u32, Refusal>
    ensures { outcome_of result ≡ subchannel_of (cell_of cell.now) line s owner }
{
    if (line > 63) | no_owner(owner) {
        return Err(Refusal::OutOfRange);
    }
    let n = line as usize;
    let combination = values_at(cell, n).combination;
    if combination == 0 {
        return Err(Refusal::LineClosed);
    }
    if s >= subchannels(combination) {
        return Err(Refusal::NoSubchannel);
    }
    Ok(owner_at(cell, n, s))
}

// Subchannel s of line `line`, if it is free, gets the owner.
#[tactic(auto, unfolding(rules::specs::Calls::seize_of, answers::specs::Outcome::decide, answers::specs::Outcome::any_of))]
pub fn seize(cell: &mut [u32; WORDS], line: u32, s: u32, owner: u32) -> Result<(), Refusal>
    ensures { Leaves result cell.old cell.new (seize_of (cell_of cell.old) line s owner) }
{
    if owner_of_subchannel(cell, line, s, owner)? != 0 {
        return Err(Refusal::SubchannelHeld);
    }
    put_owner(cell, line as usize, s, owner);
    Ok(())
}

// Subchannel s of line `line`, if this owner holds it, is free again.
#[tactic(auto, unfolding(rules::specs::Calls::release_of, answers::specs::Outcome::decide, answers::specs::Outcome::any_of))]
pub fn release(cell: &mut [u32; WORDS], line: u32, s: u32, owner: u32) -> Result<(), Refusal>
    ensures { Leaves result cell.old cell.new (release_of (cell_of cell.old) line s owner) }
{
    if owner_of_subchannel(cell, line, s, owner)? != owner {
        return Err(Refusal::NotHolder);
    }
    put_owner(cell, line as usize, s, 0);
    Ok(())
}

// The timeslot and CCCH block in which a phone with this IMSI is paged, one digit to a byte, and the first frame at or after `number` in which the
// block begins.
#[tactic(auto, unfolding(rules::specs::Paging::page_of))]
pub fn page(cell: &[u32; WORDS], digits: &[u8], number: u32) -> Result<PagingBlock, Refusal>
    ensures { outcome_of result ≡ page_of (cell_of cell.now) digits.now number }
{
    let Parameters { ag, p, .. } = parameters(cell);
    let common = CommonLines {
        lines: common_lines(cell),
        combined: has_combined(cell),
        ag,
        p,
    };
    paging::page(digits, common, number)
}
