#![tactic(auto)]

// The refusals of document 01, "Who causes a refusal": one case for each number. specs/Refusals.antt says which
// number and which values each case stands for.
#[derive(Clone, Copy, Debug, PartialEq, Eq)]
pub enum Refusal {
    // 1: the cell allocation is not 1 to 64 ARFCNs, each once and in the order 1, 2, .., 1023, 0.
    CellAllocation,
    // 2: C0 is not in the cell allocation, or BCC, AG or P is out of range.
    CellParameter,
    // 3: a number of the request is out of range.
    OutOfRange,
    // 4: the mask is zero, or has a one at or above the cell allocation's length.
    MobileAllocation,
    // 5: MAIO is not below N.
    Maio,
    // 6: open of an open line.
    LineOpen,
    // 7: close, seize, release or line on a closed line.
    LineClosed,
    // 8: common channel misplaced.
    CommonChannel,
    // 9: clash, with the smallest line number that stands in the way.
    Clash { line: u32 },
    // 10: the subchannel does not exist in this combination.
    NoSubchannel,
    // 11: seize of a held subchannel.
    SubchannelHeld,
    // 12: release of a subchannel that this owner does not hold.
    NotHolder,
    // 13: close with some subchannel held.
    LineHeld,
    // 14: T1, T2 or T3 out of range; a burst or payload of wrong length, or with a byte above 1.
    Malformed,
    // 15: a fixed bit differs, with its lowest bit number.
    FixedBit { bit: u32 },
    // 16: paging with no common line open.
    NoCommonLine,
}

impl Refusal {
    ghost use Rattle.std.specs.Prelude.{◌≡◌};
    ghost use Rattle.answers.specs.Refusals.{refusal_of, values_in};

    // Document 01's number.
    pub fn number(self) -> u32
        ensures { result ≡ (refusal_of self).number }
    {
        match self {
            Refusal::CellAllocation => 1,
            Refusal::CellParameter => 2,
            Refusal::OutOfRange => 3,
            Refusal::MobileAllocation => 4,
            Refusal::Maio => 5,
            Refusal::LineOpen => 6,
            Refusal::LineClosed => 7,
            Refusal::CommonChannel => 8,
            Refusal::Clash { line: _ } => 9,
            Refusal::NoSubchannel => 10,
            Refusal::SubchannelHeld => 11,
            Refusal::NotHolder => 12,
            Refusal::LineHeld => 13,
            Refusal::Malformed => 14,
            Refusal::FixedBit { bit: _ } => 15,
            Refusal::NoCommonLine => 16,
        }
    }

    // The line of a clash, or the fixed bit that differs; the others come alone.
    pub fn value(self) -> Option<u32>
        ensures { values_in result ≡ (refusal_of self).values }
    {
        match self {
            Refusal::Clash { line } => Some(line),
            Refusal::FixedBit { bit } => Some(bit),
            _ => None,
        }
    }
}
