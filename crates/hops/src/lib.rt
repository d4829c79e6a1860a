// Frequency hopping: document 01, "Hopping (6.2)", and when two lines clash. Definitions in specs/, theorems in proofs/; no code but the types of what
// a hop gives.
#![tactic(auto)]

// What the hopping rules select of a mask in a frame: MAI, and the CA position of the mask's one bit that has MAI ones below it.
#[derive(Clone, Copy, Debug, PartialEq, Eq)]
pub struct Selection {
    pub mai: u32,
    pub position: u32,
}

// What a line is tuned to in a frame: the ARFCN, MAI, and the CA position whose entry the ARFCN is, and so the transceiver.
#[derive(Clone, Copy, Debug, Default, PartialEq, Eq)]
pub struct Tuning {
    pub arfcn: u32,
    pub mai: u32,
    pub position: u32,
}
