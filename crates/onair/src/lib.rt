// What is on the air: air.rt what a line sends in a frame, seek.rt the line that has an ARFCN.
#![tactic(auto)]

mod air;
mod seek;

ghost use Rattle.std.specs.Prelude.{◌≡◌};
ghost use Rattle.answers.specs.Refusals.{outcome_by};
ghost use Rattle.rules.specs.OnAir.{line_of};
ghost use Rattle.rules.specs.Who.{who_of};
ghost use Rattle.storage.specs.Words.{cell_of};
ghost use Rattle.onair.specs.Told.{slot_in, sought};

use air::on_air;
use answers::Refusal;
use clock::Frame;
use seek::first_on;
use slots::{Found, OnAir};
use storage::{WORDS, values_at};

// What line `line` sends in frame `number`, downlink (0) or uplink (1).
#[tactic(auto, unfolding(rules::specs::OnAir::line_of, answers::specs::Outcome::decide, answers::specs::Outcome::any_of))]
pub fn line(cell: &[u32; WORDS], line: u32, number: u32, direction: u32) -> Result<OnAir, Refusal>
    ensures { outcome_by slot_in result ≡ line_of (cell_of cell.now) line number direction }
{
    if (line > 63) | ((number >= Frame::HYPERFRAME) | (direction > 1)) {
        return Err(Refusal::OutOfRange);
    }
    let n = line as usize;
    if values_at(cell, n).combination == 0 {
        return Err(Refusal::LineClosed);
    }
    Ok(on_air(cell, n, number, direction))
}

// Who is on the air: the open line of timeslot `tn` that has this ARFCN in frame `number`, and what it sends there, downlink (0) or uplink (1).
#[tactic(auto, unfolding(rules::specs::Who::who_of, rules::specs::Who::match_of, answers::specs::Outcome::decide, answers::specs::Outcome::any_of))]
pub fn who(
    cell: &[u32; WORDS],
    tn: u32,
    arfcn: u32,
    number: u32,
    direction: u32,
) -> Result<Option<Found>, Refusal>
    ensures { sought result ≡ who_of (cell_of cell.now) tn arfcn number direction }
{
    if (tn > 7) | ((arfcn > 1023) | ((number >= Frame::HYPERFRAME) | (direction > 1))) {
        return Err(Refusal::OutOfRange);
    }
    let Some(line) = first_on(cell, tn, arfcn, number) else {
        return Ok(None);
    };
    let on_air = on_air(cell, line as usize, number, direction);
    Ok(Some(Found { line, on_air }))
}
