#![tactic(auto)]

// The rules of a cell: its state, the calls on it and what they promise together. Definitions in specs/, theorems in proofs/; no code but the types
// of what start and open are given.

// A line's six values.
#[derive(Clone, Copy)]
pub struct Values {
    pub tn: u32,
    pub mask: u64,
    pub hsn: u32,
    pub maio: u32,
    pub combination: u32,
    pub tsc: u32,
}

// What a cell is started with beside its CA: C0, BCC, BS_AG_BLKS_RES and BS_PA_MFRMS.
#[derive(Clone, Copy)]
pub struct Parameters {
    pub c0: u32,
    pub bcc: u32,
    pub ag: u32,
    pub p: u32,
}
