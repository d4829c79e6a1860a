// Combinations 1 and 2, from a table of the 26 frames h. SACCH, which differs between timeslots, is computed.
ghost use Rattle.std.specs.Prelude.{◌≡◌, ◌<◌, ◌+◌, ◌/◌, ◌%◌};
ghost use Rattle.tables.specs.Helpers.{traffic_word, sacch_bytes};
ghost use Rattle.maps.specs.Combinations.{rows_of};
ghost use Rattle.maps.specs.Numbers.{standing_numbers, bytes};
ghost use Rattle.maps.specs.Rows.{standing};

// The bytes of timeslot 0 in each h, from the last to the first: the refusal, channel, subchannel, how many blocks, block and place, and block and
// place of the second. Each key has an arm, those of SACCH too, which `traffic` never asks for: so the compiler makes a table of it, where
// an array would be copied to the stack in each call.
#[tactic(auto, unfolding(crate::specs::Helpers::traffic_word, crate::proofs::Words::at_a_frame))]
fn traffic_word(key: u32) -> u64
    requires { key < 52 }
    ensures { result ≡ traffic_word key }
{
    match key {
        // 1
        0 => 0x04_05_00_00_02_00_01_00,
        1 => 0x05_05_01_00_02_00_01_00,
        2 => 0x06_05_02_00_02_00_01_00,
        3 => 0x07_05_03_00_02_00_01_00,
        4 => 0x04_00_00_01_02_00_01_00,
        5 => 0x05_00_01_01_02_00_01_00,
        6 => 0x06_00_02_01_02_00_01_00,
        7 => 0x07_00_03_01_02_00_01_00,
        8 => 0x04_01_00_02_02_00_01_00,
        9 => 0x05_01_01_02_02_00_01_00,
        10 => 0x06_01_02_02_02_00_01_00,
        11 => 0x07_01_03_02_02_00_01_00,
        12 => 0x00_00_00_00_01_00_02_00,
        13 => 0x04_02_00_03_02_00_01_00,
        14 => 0x05_02_01_03_02_00_01_00,
        15 => 0x06_02_02_03_02_00_01_00,
        16 => 0x07_02_03_03_02_00_01_00,
        17 => 0x04_03_00_04_02_00_01_00,
        18 => 0x05_03_01_04_02_00_01_00,
        19 => 0x06_03_02_04_02_00_01_00,
        20 => 0x07_03_03_04_02_00_01_00,
        21 => 0x04_04_00_05_02_00_01_00,
        22 => 0x05_04_01_05_02_00_01_00,
        23 => 0x06_04_02_05_02_00_01_00,
        24 => 0x07_04_03_05_02_00_01_00,
        25 => 0x00_00_00_00_00_00_00_00,
        // 2
        26 => 0x02_05_00_00_02_00_01_00,
        27 => 0x02_05_00_00_02_01_01_00,
        28 => 0x03_05_01_00_02_00_01_00,
        29 => 0x03_05_01_00_02_01_01_00,
        30 => 0x02_00_00_01_02_00_01_00,
        31 => 0x02_00_00_01_02_01_01_00,
        32 => 0x03_00_01_01_02_00_01_00,
        33 => 0x03_00_01_01_02_01_01_00,
        34 => 0x02_01_00_02_02_00_01_00,
        35 => 0x02_01_00_02_02_01_01_00,
        36 => 0x03_01_01_02_02_00_01_00,
        37 => 0x03_01_01_02_02_01_01_00,
        38 => 0x00_00_00_00_01_00_02_00,
        39 => 0x02_02_00_03_02_00_01_00,
        40 => 0x02_02_00_03_02_01_01_00,
        41 => 0x03_02_01_03_02_00_01_00,
        42 => 0x03_02_01_03_02_01_01_00,
        43 => 0x02_03_00_04_02_00_01_00,
        44 => 0x02_03_00_04_02_01_01_00,
        45 => 0x03_03_01_04_02_00_01_00,
        46 => 0x03_03_01_04_02_01_01_00,
        47 => 0x02_04_00_05_02_00_01_00,
        48 => 0x02_04_00_05_02_01_01_00,
        49 => 0x03_04_01_05_02_00_01_00,
        50 => 0x03_04_01_05_02_01_01_00,
        51 => 0x00_00_00_00_01_01_02_00,
        _ => 0,
    }
}

// The frames h = 12 (half 0) and h = 25 (half 1): half rate (1) has SACCH of its two subchannels, full rate (0) has SACCH at 12 in an even
// timeslot and at 25 in an odd one. In each pair of timeslots the places stand 26 frames later than in the pair before. Both are numbers, as
// the bytes are computed from them.
#[tactic(auto, unfolding(crate::specs::Helpers::sacch_bytes))]
fn sacch(rate: u32, tn: u32, turn: u32, half: u32) -> u64
    requires { (rate < 2) × ((turn < 4) × (half < 2)) }
    ensures { result ≡ sacch_bytes rate tn turn half }
{
    if (rate == 0) & (half != tn % 2) {
        return 0;
    }
    let subchannel = half & rate;
    let place = (turn + 4 - tn % 8 / 2) % 4;
    0x100_0200 + u64::from(subchannel) * 0x1_0000 + u64::from(place) * 0x100_0000_0000
}

// The bytes of combination 1 (full rate) or 2 (half rate) in a frame of a timeslot, whatever the direction. Any other combination is taken for the
// one of the two that has its bit 1, any other timeslot for its remainder by 8.
#[tactic(auto, using(crate::proofs::Computed::traffic_sacch, crate::proofs::Computed::traffic_tch))]
pub fn traffic(combination: u32, tn: u32, number: u32) -> u64
    ensures { result ≡ bytes (standing_numbers (standing (rows_of (1 + combination / 2 % 2) (tn % 8) 0) number)) }
{
    // The frame comes first, as in `control`: the compiler then does once what both begin with.
    let h = number % 26;
    let rate = combination / 2 % 2;
    if h % 13 == 12 {
        return sacch(rate, tn, number / 26 % 4, h / 13);
    }
    traffic_word(rate * 26 + h)
}
