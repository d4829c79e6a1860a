// The words that hold a cell. Only this file knows which word is which; specs/Words.antt says so: 64 words of CA, then the length of CA, C0, BCC, AG
// and P, then fifteen words for each line.
#![tactic(auto)]

ghost use Rattle.std.specs.Prelude.{◌≡◌, get_or};
ghost use Rattle.rules.specs.State.{line_with, free, line_at, owner_at, values_of, parameters_of};
ghost use Rattle.rules.specs.Calls.{with_line, with_owner};
ghost use Rattle.storage.specs.Words.{cell_of};
ghost use Rattle.storage.specs.Helpers.{started_from};

use rules::{Parameters, Values};

// How many words a cell takes. C lends them, and a refused call leaves each as it was: so contracts speak of the words, and no `impl Model` hides them.
pub const WORDS: usize = 1029;

// Where the words lie. A line's are its mask in two, the lower half first, TN, HSN, MAIO, combination, TSC, and the owners.
const LENGTH_PLACE: usize = 64;

const C0_PLACE: usize = 65;

const BCC_PLACE: usize = 66;

const AG_PLACE: usize = 67;

const P_PLACE: usize = 68;

const LINES_PLACE: usize = 69;

const LINE_WORDS: usize = 15;

const OWNERS_PLACE: usize = 7;

// The six values of a closed line. Its combination is 0, as the words that C lends have it: a closed line then has no combination that is looked
// for, and an `Option` would be opened in each test.
pub const CLOSED: Values = Values {
    tn: 0,
    mask: 0,
    hsn: 0,
    maio: 0,
    combination: 0,
    tsc: 0,
};

// The CA entry at a position, 0 past the end, as the definition has it: who asks has ruled that out, and an `Option` would be unwrapped at once.
#[tactic(auto, using(crate::proofs::Storage::entry_in, crate::proofs::Storage::entry_past))]
pub fn entry(cell: &[u32; WORDS], position: u32) -> u32
    ensures { result ≡ get_or (cell_of cell.now).ca position 0 }
{
    if position > 63 {
        return 0;
    }
    cell[position as usize]
}

#[tactic(auto, unfolding(crate::specs::Words::cell_of))]
pub fn length(cell: &[u32; WORDS]) -> u32
    ensures { result ≡ (cell_of cell.now).size }
{
    cell[LENGTH_PLACE]
}

#[tactic(auto, unfolding(crate::specs::Words::cell_of))]
pub fn parameters(cell: &[u32; WORDS]) -> Parameters
    ensures { result ≡ parameters_of (cell_of cell.now) }
{
    Parameters {
        c0: cell[C0_PLACE],
        bcc: cell[BCC_PLACE],
        ag: cell[AG_PLACE],
        p: cell[P_PLACE],
    }
}

// The six values of line n, 0 past the last line.
pub fn values_at(cell: &[u32; WORDS], n: usize) -> Values
    ensures { result ≡ values_of (line_at (cell_of cell.now) n) }
{
    if n > 63 {
        return CLOSED;
    }
    let line = LINES_PLACE + LINE_WORDS * n;
    Values {
        mask: u64::from(cell[line]) + (u64::from(cell[line + 1]) << 32),
        tn: cell[line + 2],
        hsn: cell[line + 3],
        maio: cell[line + 4],
        combination: cell[line + 5],
        tsc: cell[line + 6],
    }
}

// The owner of a subchannel of line n, 0 for free, and past the last one.
#[tactic(auto, using(crate::proofs::Storage::owner_stored, crate::proofs::Storage::no_owner))]
pub fn owner_at(cell: &[u32; WORDS], n: usize, s: u32) -> u32
    ensures { result ≡ owner_at (line_at (cell_of cell.now) n) s }
{
    if n > 63 || s > 7 {
        return 0;
    }
    cell[LINES_PLACE + LINE_WORDS * n + (OWNERS_PLACE + s as usize)]
}

// Subchannel s of line n gets an owner; nothing is written past the last line or subchannel.
pub fn put_owner(cell: &mut [u32; WORDS], n: usize, s: u32, owner: u32)
    ensures { cell_of cell.new ≡ with_line (cell_of cell.old) n (with_owner (line_at (cell_of cell.old) n) s owner) }
{
    if n > 63 || s > 7 {
        return;
    }
    cell[LINES_PLACE + LINE_WORDS * n + (OWNERS_PLACE + s as usize)] = owner;
}

// Line n gets the six values, and no owners; nothing is written past the last line.
pub fn put_line(cell: &mut [u32; WORDS], n: usize, values: Values)
    ensures { cell_of cell.new ≡ with_line (cell_of cell.old) n (line_with values free) }
{
    if n > 63 {
        return;
    }
    let words = [
        (values.mask % 0x1_0000_0000) as u32,
        (values.mask >> 32) as u32,
        values.tn,
        values.hsn,
        values.maio,
        values.combination,
        values.tsc,
        0,
        0,
        0,
        0,
        0,
        0,
        0,
        0,
    ];
    let line = LINES_PLACE + LINE_WORDS * n;
    cell[line..line + LINE_WORDS].copy_from_slice(&words);
}

// The words become a cell with this CA, C0, BCC, AG and P, and all lines closed; nothing is written where the list has more than 64 entries.
pub fn put_start(cell: &mut [u32; WORDS], ca: &[u16], parameters: Parameters)
    ensures { cell_of cell.new ≡ started_from (cell_of cell.old) ca.now parameters }
{
    if ca.len() > 64 {
        return;
    }
    cell.fill(0);
    for (k, arfcn) in ca.iter().enumerate() {
        cell[k] = u32::from(*arfcn);
    }
    cell[LENGTH_PLACE] = ca.len() as u32;
    cell[C0_PLACE] = parameters.c0;
    cell[BCC_PLACE] = parameters.bcc;
    cell[AG_PLACE] = parameters.ag;
    cell[P_PLACE] = parameters.p;
}
