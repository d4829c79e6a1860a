// The subchannels of a line and their owners.
ghost use Rattle.std.specs.Prelude.{◌≡◌};
ghost use Rattle.answers.specs.Ranges.{no_owner};
ghost use Rattle.rules.specs.Calls.{subchannels, some_held};
ghost use Rattle.rules.specs.State.{line_at};
ghost use Rattle.storage.specs.Words.{cell_of};

use storage::{WORDS, owner_at};

const LAST_OWNER: u32 = 65_535;

pub(crate) fn no_owner(owner: u32) -> bool
    ensures { result ≡ no_owner owner }
{
    (owner == 0) | (owner > LAST_OWNER)
}

// How many subchannels a combination has.
pub(crate) fn subchannels(combination: u32) -> u32
    ensures { result ≡ subchannels combination }
{
    match combination {
        1 => 1,
        2 => 2,
        5 => 4,
        7 => 8,
        _ => 0,
    }
}

// Some subchannel of line n is held.
pub(crate) fn some_held(cell: &[u32; WORDS], n: usize) -> bool
    ensures { result ≡ some_held (line_at (cell_of cell.now) n) }
{
    (0..8).any(|s| owner_at(cell, n, s) != 0)
}
