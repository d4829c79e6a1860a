// Which channel, subchannel, block and place a timeslot carries in each frame: document 01, "From frame to logical channel (6.4.1, clause 7)".
#![tactic(auto)]

ghost use Rattle.std.specs.Prelude.{◌≡◌, ◌<◌, ◌≤◌, true};
ghost use Rattle.answers.specs.Outcome.{decide};
ghost use Rattle.answers.specs.Ranges.{hyperframe};
ghost use Rattle.answers.specs.Refusals.{outcome_of, outcome_by};
ghost use Rattle.maps.specs.Combinations.{is_combination, rows_of};
ghost use Rattle.maps.specs.Map.{map_causes, map_of, carried};
ghost use Rattle.maps.specs.Numbers.{standing_numbers, numbers_of, bytes};
ghost use Rattle.maps.specs.Rows.{standing};

use answers::Refusal;
use maps::Content;
use tables::control::control;
use tables::traffic::traffic;
use tables::unpack::unpack;

// FN is 0 to 2,715,647.
const LAST_FRAME: u32 = 2_715_647;

// The number is a combination's.
#[tactic(auto, unfolding(maps::specs::Combinations::among, maps::specs::Combinations::combinations))]
pub fn is_combination(combination: u32) -> bool
    ensures { result ≡ is_combination combination }
{
    matches!(combination, 1 | 2 | 4..=7)
}

// The bytes of what stands in a frame.
#[tactic(auto, using(crate::proofs::Within::control_bytes, crate::proofs::Within::traffic_bytes))]
fn look_up(combination: u32, tn: u32, number: u32, direction: u32) -> u64
    requires { (is_combination combination ≡ true) × (tn ≤ 7) × (number < hyperframe) × (direction ≤ 1) }
    ensures { result ≡ bytes (standing_numbers (standing (rows_of combination tn direction) number)) }
{
    if combination > 3 {
        control(combination, number, direction)
    } else {
        traffic(combination, tn, number)
    }
}

// The same, or refusal 3: no combination, or TN, FN or direction out of range. Inlined, so that the bytes stay in a register.
#[inline(always)]
#[tactic(auto, unfolding(answers::specs::Outcome::decide, answers::specs::Outcome::any_of))]
fn standing_bytes(combination: u32, tn: u32, number: u32, direction: u32) -> Result<u64, Refusal>
    ensures { outcome_of result ≡ decide (map_causes combination tn number direction) (bytes (standing_numbers (standing (rows_of combination tn direction) number))) }
{
    if !is_combination(combination) || tn > 7 || number > LAST_FRAME || direction > 1 {
        return Err(Refusal::OutOfRange);
    }
    Ok(look_up(combination, tn, number, direction))
}

// What a line of this combination and timeslot has in frame `number`, downlink (0) or uplink (1). The numbers come one
// by one: a struct of the question would be taken apart at once, and nobody keeps one.
pub fn map(combination: u32, tn: u32, number: u32, direction: u32) -> Result<Content, Refusal>
    ensures { outcome_by carried result ≡ map_of combination tn number direction }
{
    let bytes = standing_bytes(combination, tn, number, direction)?;
    Ok(unpack(bytes))
}

// The same answer in eight bytes, the lowest first: the refusal's number (0 if there is none), the channel's (0 for idle), the subchannel, how many
// blocks, block and place, and block and place of the second. The quickest way to ask, for the C interface.
#[tactic(auto, unfolding(maps::specs::Map::map_of, maps::specs::Numbers::numbers_of, answers::specs::Outcome::decide, answers::specs::Outcome::any_of))]
pub fn map_bytes(combination: u32, tn: u32, number: u32, direction: u32) -> u64
    ensures { result ≡ bytes (numbers_of (map_of combination tn number direction)) }
{
    standing_bytes(combination, tn, number, direction).unwrap_or(3)
}
