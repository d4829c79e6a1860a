// Where a line may stand: common.rt has the places of common channels (refusal 8) and their count, clash.rt the line that stands in the way (9).
#![tactic(auto)]

pub mod clash;
pub mod common;
