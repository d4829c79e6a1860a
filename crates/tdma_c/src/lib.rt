// The C interface as firmware links it, include/tdma.h: each function hands its parameters to the function of the same name in `tdma`, and promises
// the same. A static library exports its own functions alone, and no crate can stand on one, so these stand apart.
#![tactic(auto)]

pub mod buffers;
pub mod cells;

ghost use Rattle.c_answers.specs.Numbers.{split_numbers, join_numbers, position_numbers, hop_numbers, map_numbers};
ghost use Rattle.clock.specs.Clock.{split_of, join_of};
ghost use Rattle.hops.specs.Hopping.{position_of, hop_of};
ghost use Rattle.maps.specs.Map.{map_of};
ghost use Rattle.std.specs.Prelude.{◌≡◌, ◌/◌};

use c_answers::{TdmaHop, TdmaJoin, TdmaMap, TdmaPosition, TdmaSplit};

// FN to T1, T2, T3 and T3'.
#[unsafe(no_mangle)]
pub extern "C" fn tdma_split(frame: u32) -> TdmaSplit
    ensures { result ≡ split_numbers (split_of frame) }
{
    tdma::tdma_split(frame)
}

// T1, T2, T3 to FN.
#[unsafe(no_mangle)]
pub extern "C" fn tdma_join(t1: u32, t2: u32, t3: u32) -> TdmaJoin
    ensures { result ≡ join_numbers (join_of t1 t2 t3) }
{
    tdma::tdma_join(t1, t2, t3)
}

// MAI and the position that a line uses in a frame, in a cell allocation of this length.
#[unsafe(no_mangle)]
pub extern "C" fn tdma_position(
    length: u32,
    mask: u64,
    hsn: u32,
    maio: u32,
    frame: u32,
) -> TdmaPosition
    ensures { result ≡ position_numbers (position_of length mask hsn maio frame) }
{
    tdma::tdma_position(length, mask, hsn, maio, frame)
}

// The ARFCN that a line uses in a frame, with MAI and the position.
#[unsafe(no_mangle)]
pub extern "C" fn tdma_hop(ca: &[u16], mask: u64, hsn: u32, maio: u32, frame: u32) -> TdmaHop
    ensures { result ≡ hop_numbers (hop_of ca.now mask hsn maio frame) }
{
    tdma::tdma_hop(ca, mask, hsn, maio, frame)
}

// What a line of this combination and timeslot has in a frame, downlink (0) or uplink (1).
#[unsafe(no_mangle)]
pub extern "C" fn tdma_map(combination: u32, tn: u32, frame: u32, direction: u32) -> TdmaMap
    ensures { result ≡ map_numbers (map_of combination tn frame direction) }
{
    tdma::tdma_map(combination, tn, frame, direction)
}
