// The line that stands in the way of a line to be opened.
ghost use Rattle.std.specs.Prelude.{◌≡◌};
ghost use Rattle.answers.specs.Refusals.{option_of};
ghost use Rattle.answers.specs.Search.{first_below};
ghost use Rattle.rules.specs.Calls.{in_the_way};
ghost use Rattle.storage.specs.Words.{cell_of};

use masks::overlap;
use rules::Values;
use storage::{WORDS, values_at};

// Line n is open and clashes with these values.
fn clashes(cell: &[u32; WORDS], n: usize, values: Values) -> bool
    ensures { result ≡ in_the_way (cell_of cell.now) values n }
{
    let line = values_at(cell, n);
    let same_hsn = values.hsn == line.hsn;
    let same_maio = values.maio == line.maio;
    let apart = (values.mask == line.mask) & same_hsn & !same_maio;
    let closed = line.combination == 0;
    !closed & ((values.tn == line.tn) & overlap(values.mask, line.mask) & !apart)
}

// The smallest number of a line that stands in the way, if one does.
pub fn in_the_way(cell: &[u32; WORDS], values: Values) -> Option<u32>
    ensures { option_of result ≡ first_below (in_the_way (cell_of cell.now) values) 64 }
{
    // Document 01 wants this loop, which yields the number by `break`.
    let mut n = 0;
    loop {
        if n >= 64 {
            break None;
        }
        if clashes(cell, n as usize, values) {
            break Some(n);
        }
        n += 1;
    }
}
