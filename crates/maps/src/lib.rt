// The frame maps: which channel, subchannel, block and place a timeslot carries in each frame. Definitions in specs/, theorems in proofs/; no
// code but the types of what a frame carries, a kind's number, and which channels are of a common part.
#![tactic(auto)]

ghost use Rattle.std.specs.Prelude.{◌≡◌};
ghost use Rattle.maps.specs.Channels.{kind_number, IsKindOf};

use answers::Refusal;

// The logical channels, each with its number; 0 is left for idle.
#[derive(Clone, Copy, Debug, PartialEq, Eq)]
pub enum Kind {
    Tch = 1,
    Sacch = 2,
    Sdcch = 3,
    Fcch = 4,
    Sch = 5,
    Bcch = 6,
    Ccch = 7,
    Rach = 8,
}

impl From<Kind> for u32 {
    ghost from_gives = { λ kind number. number ≡ kind_number kind };

    fn from(kind: Kind) -> u32 {
        kind as u32
    }
}

impl TryFrom<u32> for Kind {
    type Error = Refusal;

    ghost try_from_gives = { IsKindOf };

    fn try_from(number: u32) -> Result<Kind, Refusal> {
        match number {
            1 => Ok(Kind::Tch),
            2 => Ok(Kind::Sacch),
            3 => Ok(Kind::Sdcch),
            4 => Ok(Kind::Fcch),
            5 => Ok(Kind::Sch),
            6 => Ok(Kind::Bcch),
            7 => Ok(Kind::Ccch),
            8 => Ok(Kind::Rach),
            _ => Err(Refusal::OutOfRange),
        }
    }
}

impl Kind {
    ghost use Rattle.std.specs.Prelude.{◌≡◌};
    ghost use Rattle.maps.specs.Channels.{is_common};

    // Whether the channel is of a line's common part, which no subchannel has.
    pub fn is_common(self) -> bool
        ensures { result ≡ is_common self }
    {
        match self {
            Kind::Tch | Kind::Sacch | Kind::Sdcch => false,
            Kind::Fcch | Kind::Sch | Kind::Bcch | Kind::Ccch | Kind::Rach => true,
        }
    }
}

// A block, and the place in it.
#[derive(Clone, Copy, Debug, PartialEq, Eq)]
pub struct Place {
    pub block: u32,
    pub place: u32,
}

// A burst belongs to one block, a TCH burst to two.
#[derive(Clone, Copy, Debug, PartialEq, Eq)]
pub enum Blocks {
    One(Place),
    Two(Place, Place),
}

#[derive(Clone, Copy, Debug, PartialEq, Eq)]
pub struct Burst {
    pub kind: Kind,
    pub subchannel: u32,
    pub blocks: Blocks,
}

// What a frame carries: an enum of its own, since document 01 wants the answer to hold one (idle, or a channel case).
#[derive(Clone, Copy, Debug, PartialEq, Eq)]
pub enum Content {
    Idle,
    Channel(Burst),
}
