// What a frame carries, from its eight bytes (`frame_map` says what they are for).
ghost use Rattle.std.specs.Prelude.{◌≡◌};
ghost use Rattle.maps.specs.Map.{carried};
ghost use Rattle.maps.specs.Numbers.{numbers_at, standing_of};

use maps::{Blocks, Burst, Content, Kind, Place};

// The content of a frame with these bytes, the lowest first: the refusal, channel, subchannel, how many blocks, block and place, and block and
// place of the second.
#[tactic(auto, using(crate::proofs::KindAt::kind_or_rach), unfolding(maps::specs::Numbers::standing_of))]
pub fn unpack(bytes: u64) -> Content
    ensures { carried result ≡ standing_of (numbers_at bytes) }
{
    let [_, channel, subchannel, blocks, block, place, block2, place2] = bytes.to_le_bytes();
    if channel == 0 {
        return Content::Idle;
    }
    let first = Place {
        block: u32::from(block),
        place: u32::from(place),
    };
    let second = Place {
        block: u32::from(block2),
        place: u32::from(place2),
    };
    Content::Channel(Burst {
        // Each other number is taken for RACH's: the tables have none.
        kind: Kind::try_from(u32::from(channel)).unwrap_or(Kind::Rach),
        subchannel: u32::from(subchannel),
        blocks: if blocks == 2 {
            Blocks::Two(first, second)
        } else {
            Blocks::One(first)
        },
    })
}
