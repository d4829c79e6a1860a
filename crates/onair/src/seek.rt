// The line that has an ARFCN in a frame.
ghost use Rattle.std.specs.Prelude.{◌≡◌};
ghost use Rattle.answers.specs.Refusals.{option_of};
ghost use Rattle.answers.specs.Search.{first_below};
ghost use Rattle.rules.specs.Who.{line_is_on};
ghost use Rattle.storage.specs.Words.{cell_of};

use crate::air::tuning;
use storage::{WORDS, values_at};

// Line n is open, stands in the timeslot and has the ARFCN `sought` in the frame.
fn is_on(cell: &[u32; WORDS], n: usize, tn: u32, sought: u32, number: u32) -> bool
    ensures { result ≡ line_is_on (cell_of cell.now) tn sought number n }
{
    let line = values_at(cell, n);
    line.combination != 0 && line.tn == tn && tuning(cell, n, number).arfcn == sought
}

// The smallest number of such a line, if there is one. A function of its own for the compiler too: in `who` the search would share the registers
// with all that is answered.
#[inline(never)]
pub(crate) fn first_on(cell: &[u32; WORDS], tn: u32, sought: u32, number: u32) -> Option<u32>
    ensures { option_of result ≡ first_below (line_is_on (cell_of cell.now) tn sought number) 64 }
{
    for n in 0..64 {
        if is_on(cell, n as usize, tn, sought, number) {
            return Some(n);
        }
    }
    None
}
