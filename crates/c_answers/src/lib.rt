// The answers of the C interface as plain numbers, and how each is made of the answer of the call. The structs are the header's: a refusal with numbers
// beside it, 0 for none, is what C can read.
#![tactic(auto)]

use answers::Refusal;
use clock::Frame;
use groups::PagingBlock;
use hops::{Selection, Tuning};
use maps::{Blocks, Content};
use slots::{Found, OnAir};

// T1, T2, T3, and T3' where `given` is 1.
#[repr(C)]
#[derive(Clone, Copy, Default, PartialEq, Eq)]
pub struct TdmaSplit {
    pub refusal: u32,
    pub t1: u32,
    pub t2: u32,
    pub t3: u32,
    pub given: u32,
    pub prime: u32,
}

#[repr(C)]
#[derive(Clone, Copy, Default, PartialEq, Eq)]
pub struct TdmaJoin {
    pub refusal: u32,
    pub frame: u32,
}

#[repr(C)]
#[derive(Clone, Copy, Default, PartialEq, Eq)]
pub struct TdmaPosition {
    pub refusal: u32,
    pub position: u32,
    pub mai: u32,
}

#[repr(C)]
#[derive(Clone, Copy, Default, PartialEq, Eq)]
pub struct TdmaHop {
    pub refusal: u32,
    pub arfcn: u32,
    pub mai: u32,
    pub position: u32,
}

// The channel, 0 for idle, its subchannel, and as many blocks and places as `blocks` says. Bytes, so that the answer fits one register.
#[repr(C)]
#[derive(Clone, Copy, Default, PartialEq, Eq)]
pub struct TdmaMap {
    pub refusal: u8,
    pub channel: u8,
    pub subchannel: u8,
    pub blocks: u8,
    pub block: u8,
    pub place: u8,
    pub block2: u8,
    pub place2: u8,
}

// The answer of a call whose result is in the lent words or bytes: the refusal, and with 9 the line in the way, with 15 the bit that differs.
#[repr(C)]
#[derive(Clone, Copy, Default, PartialEq, Eq)]
pub struct TdmaAnswer {
    pub refusal: u32,
    pub value: u32,
}

// The ARFCN and the owner; the channel, 0 for idle, its subchannel, and as many blocks and places as `blocks` says; MAI and the position.
#[repr(C)]
#[derive(Clone, Copy, Default, PartialEq, Eq)]
pub struct TdmaLine {
    pub refusal: u32,
    pub arfcn: u32,
    pub owner: u32,
    pub channel: u32,
    pub subchannel: u32,
    pub blocks: u32,
    pub block: u32,
    pub place: u32,
    pub block2: u32,
    pub place2: u32,
    pub mai: u32,
    pub position: u32,
}

// The line that was found (`found` 1) and its answer, or nobody (0).
#[repr(C)]
#[derive(Clone, Copy, Default, PartialEq, Eq)]
pub struct TdmaWho {
    pub refusal: u32,
    pub found: u32,
    pub line: u32,
    pub answer: TdmaLine,
}

// A phone's timeslot and CCCH block, and the first frame of that.
#[repr(C)]
#[derive(Clone, Copy, Default, PartialEq, Eq)]
pub struct TdmaPage {
    pub refusal: u32,
    pub tn: u32,
    pub block: u32,
    pub frame: u32,
}

impl From<Result<(), Refusal>> for TdmaAnswer {
    ghost use Rattle.std.specs.Prelude.{◌≡◌};
    ghost use Rattle.answers.specs.Refusals.{refusal_in};
    ghost use Rattle.c_answers.specs.Numbers.{answer_numbers};

    ghost from_gives = { λ answer numbers. numbers ≡ answer_numbers (refusal_in answer) };

    fn from(answer: Result<(), Refusal>) -> TdmaAnswer {
        match answer {
            Ok(()) => TdmaAnswer::default(),
            Err(refusal) => TdmaAnswer {
                refusal: refusal.number(),
                value: refusal.value().unwrap_or(0),
            },
        }
    }
}

impl From<Result<Frame, Refusal>> for TdmaSplit {
    ghost use Rattle.std.specs.Prelude.{◌≡◌};
    ghost use Rattle.answers.specs.Refusals.{outcome_of};
    ghost use Rattle.c_answers.specs.Numbers.{split_numbers};

    ghost from_gives = { λ answer numbers. numbers ≡ split_numbers (outcome_of answer) };

    fn from(answer: Result<Frame, Refusal>) -> TdmaSplit {
        match answer {
            Ok(frame) => {
                let prime = frame.prime();
                TdmaSplit {
                    refusal: 0,
                    t1: frame.t1,
                    t2: frame.t2,
                    t3: frame.t3,
                    given: u32::from(prime.is_some()),
                    prime: prime.unwrap_or(0),
                }
            }
            Err(refusal) => TdmaSplit {
                refusal: refusal.number(),
                ..TdmaSplit::default()
            },
        }
    }
}

impl From<Result<u32, Refusal>> for TdmaJoin {
    ghost use Rattle.std.specs.Prelude.{◌≡◌};
    ghost use Rattle.answers.specs.Refusals.{outcome_of};
    ghost use Rattle.c_answers.specs.Numbers.{join_numbers};

    ghost from_gives = { λ answer numbers. numbers ≡ join_numbers (outcome_of answer) };

    fn from(answer: Result<u32, Refusal>) -> TdmaJoin {
        match answer {
            Ok(frame) => TdmaJoin { refusal: 0, frame },
            Err(refusal) => TdmaJoin {
                refusal: refusal.number(),
                frame: 0,
            },
        }
    }
}

impl From<Result<Selection, Refusal>> for TdmaPosition {
    ghost use Rattle.std.specs.Prelude.{◌≡◌};
    ghost use Rattle.answers.specs.Refusals.{outcome_of};
    ghost use Rattle.c_answers.specs.Numbers.{position_numbers};

    ghost from_gives = { λ answer numbers. numbers ≡ position_numbers (outcome_of answer) };

    fn from(answer: Result<Selection, Refusal>) -> TdmaPosition {
        match answer {
            Ok(Selection { mai, position }) => TdmaPosition {
                refusal: 0,
                position,
                mai,
            },
            Err(refusal) => TdmaPosition {
                refusal: refusal.number(),
                ..TdmaPosition::default()
            },
        }
    }
}

impl From<Result<Tuning, Refusal>> for TdmaHop {
    ghost use Rattle.std.specs.Prelude.{◌≡◌};
    ghost use Rattle.answers.specs.Refusals.{outcome_of};
    ghost use Rattle.c_answers.specs.Numbers.{hop_numbers};

    ghost from_gives = { λ answer numbers. numbers ≡ hop_numbers (outcome_of answer) };

    fn from(answer: Result<Tuning, Refusal>) -> TdmaHop {
        match answer {
            Ok(
                Tuning {
                    arfcn,
                    mai,
                    position,
                },
            ) => TdmaHop {
                refusal: 0,
                arfcn,
                mai,
                position,
            },
            Err(refusal) => TdmaHop {
                refusal: refusal.number(),
                ..TdmaHop::default()
            },
        }
    }
}

impl From<OnAir> for TdmaLine {
    ghost use Rattle.std.specs.Prelude.{◌≡◌};
    ghost use Rattle.c_answers.specs.Numbers.{on_air_numbers};

    ghost from_gives = { λ on_air numbers. numbers ≡ on_air_numbers on_air };

    #[tactic(auto, unfolding(maps::specs::Numbers::standing_numbers))]
    fn from(on_air: OnAir) -> TdmaLine {
        let idle = TdmaLine {
            arfcn: on_air.tuning.arfcn,
            owner: on_air.owner,
            mai: on_air.tuning.mai,
            position: on_air.tuning.position,
            ..TdmaLine::default()
        };
        let Content::Channel(burst) = on_air.content else {
            return idle;
        };
        let channel = u32::from(burst.kind);
        let subchannel = burst.subchannel;
        match burst.blocks {
            Blocks::One(first) => TdmaLine {
                channel,
                subchannel,
                blocks: 1,
                block: first.block,
                place: first.place,
                ..idle
            },
            Blocks::Two(first, second) => TdmaLine {
                channel,
                subchannel,
                blocks: 2,
                block: first.block,
                place: first.place,
                block2: second.block,
                place2: second.place,
                ..idle
            },
        }
    }
}

impl From<Result<OnAir, Refusal>> for TdmaLine {
    ghost use Rattle.std.specs.Prelude.{◌≡◌};
    ghost use Rattle.answers.specs.Refusals.{outcome_of};
    ghost use Rattle.c_answers.specs.Numbers.{told_line};

    ghost from_gives = { λ answer numbers. numbers ≡ told_line (outcome_of answer) };

    fn from(answer: Result<OnAir, Refusal>) -> TdmaLine {
        match answer {
            Ok(on_air) => TdmaLine::from(on_air),
            Err(refusal) => TdmaLine {
                refusal: refusal.number(),
                ..TdmaLine::default()
            },
        }
    }
}

impl From<Result<Option<Found>, Refusal>> for TdmaWho {
    ghost use Rattle.std.specs.Prelude.{◌≡◌};
    ghost use Rattle.answers.specs.Refusals.{outcome_by, option_of};
    ghost use Rattle.c_answers.specs.Numbers.{told_who};

    ghost from_gives = { λ answer numbers. numbers ≡ told_who (outcome_by option_of answer) };

    fn from(answer: Result<Option<Found>, Refusal>) -> TdmaWho {
        match answer {
            Ok(Some(found)) => TdmaWho {
                refusal: 0,
                found: 1,
                line: found.line,
                answer: TdmaLine::from(found.on_air),
            },
            Ok(None) => TdmaWho::default(),
            Err(refusal) => TdmaWho {
                refusal: refusal.number(),
                ..TdmaWho::default()
            },
        }
    }
}

impl From<Result<PagingBlock, Refusal>> for TdmaPage {
    ghost use Rattle.std.specs.Prelude.{◌≡◌};
    ghost use Rattle.answers.specs.Refusals.{outcome_of};
    ghost use Rattle.c_answers.specs.Numbers.{page_numbers};

    ghost from_gives = { λ answer numbers. numbers ≡ page_numbers (outcome_of answer) };

    fn from(answer: Result<PagingBlock, Refusal>) -> TdmaPage {
        match answer {
            Ok(block) => TdmaPage {
                refusal: 0,
                tn: block.tn,
                block: block.block,
                frame: block.frame,
            },
            Err(refusal) => TdmaPage {
                refusal: refusal.number(),
                ..TdmaPage::default()
            },
        }
    }
}
