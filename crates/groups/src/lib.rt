// Paging groups: document 01, "Paging (6.5.2, 6.5.3)", on plain numbers. Definitions in specs/, theorems in proofs/; no code but the types of the
// answer and of what is asked of a cell.
#![tactic(auto)]

// A phone's block: its timeslot, its CCCH block, and the first frame of that.
#[derive(Clone, Copy, Debug, Default, PartialEq, Eq)]
pub struct PagingBlock {
    pub tn: u32,
    pub block: u32,
    pub frame: u32,
}

// What paging takes from a cell: how many lines of combination 4, 5 and 6 are open, whether one of them is a 5, AG and P.
#[derive(Clone, Copy, Debug, PartialEq, Eq)]
pub struct CommonLines {
    pub lines: u32,
    pub combined: bool,
    pub ag: u32,
    pub p: u32,
}
