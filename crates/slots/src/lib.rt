// What line and who answer: document 01, "line(number, FN, direction)" and "who(TN, ARFCN, FN, direction)". No code but the types.
#![tactic(auto)]

use hops::Tuning;
use maps::Content;

// What a line sends in a frame: what it is tuned to, idle or a channel, and the owner. That is 0 for idle, for a common part and for a free subchannel:
// document 01 has 0 for free.
#[derive(Clone, Copy, Debug, PartialEq, Eq)]
pub struct OnAir {
    pub tuning: Tuning,
    pub content: Content,
    pub owner: u32,
}

// A line by its number, and what it sends.
#[derive(Clone, Copy, Debug, PartialEq, Eq)]
pub struct Found {
    pub line: u32,
    pub on_air: OnAir,
}
