// The C interface, include/tdma.h: plain numbers, slices and cells in, structs of numbers out. `refusal` is 0 for an accepted call, else document
// 01's number, and then every other number is 0 (but for the line of 9 and the bit of 15). specs/Numbers.antt, Cells.antt and Buffers.antt say so for
// each answer. The calls of the cell are in cells.rt, the bursts in buffers.rt.
#![tactic(auto)]

pub mod buffers;
pub mod cells;

ghost use Rattle.std.specs.Prelude.{◌≡◌, ◌*◌, ◌/◌, ◌%◌, ◌^◌, ◌<◌};
ghost use Rattle.clock.specs.Clock.{split_of, join_of};
ghost use Rattle.hops.specs.Hopping.{position_of, hop_of};
ghost use Rattle.maps.specs.Map.{map_of};
ghost use Rattle.c_answers.specs.Numbers.{split_numbers, join_numbers, position_numbers, hop_numbers, map_numbers};

use c_answers::{TdmaHop, TdmaJoin, TdmaMap, TdmaPosition, TdmaSplit};
use clock::Frame;

// FN to T1, T2, T3 and T3'.
pub fn tdma_split(frame: u32) -> TdmaSplit
    ensures { result ≡ split_numbers (split_of frame) }
{
    TdmaSplit::from(Frame::new(frame))
}

// T1, T2, T3 to FN.
pub fn tdma_join(t1: u32, t2: u32, t3: u32) -> TdmaJoin
    ensures { result ≡ join_numbers (join_of t1 t2 t3) }
{
    TdmaJoin::from(Frame::join(t1, t2, t3))
}

// MAI and the position that a line uses in a frame, in a cell allocation of this length.
pub fn tdma_position(length: u32, mask: u64, hsn: u32, maio: u32, frame: u32) -> TdmaPosition
    ensures { result ≡ position_numbers (position_of length mask hsn maio frame) }
{
    TdmaPosition::from(hopping::position(length, mask, hsn, maio, frame))
}

// The ARFCN that a line uses in a frame, with MAI and the position.
pub fn tdma_hop(ca: &[u16], mask: u64, hsn: u32, maio: u32, frame: u32) -> TdmaHop
    ensures { result ≡ hop_numbers (hop_of ca.now mask hsn maio frame) }
{
    TdmaHop::from(hopping::hop(ca, mask, hsn, maio, frame))
}

// What a line of this combination and timeslot has in a frame, downlink (0) or uplink (1).
pub fn tdma_map(combination: u32, tn: u32, frame: u32, direction: u32) -> TdmaMap
    ensures { result ≡ map_numbers (map_of combination tn frame direction) }
{
    let [
        refusal,
        channel,
        subchannel,
        blocks,
        block,
        place,
        block2,
        place2,
    ] = frame_map::map_bytes(combination, tn, frame, direction).to_le_bytes();
    TdmaMap {
        refusal,
        channel,
        subchannel,
        blocks,
        block,
        place,
        block2,
        place2,
    }
}
