// Where a common channel may stand (refusal 8), and the common lines as paging counts them.
ghost use Rattle.std.specs.Prelude.{◌≡◌};
ghost use Rattle.answers.specs.Outcome.{any_of};
ghost use Rattle.rules.specs.Calls.{any_line, has_combination, misplaced, is_common_combination, has_c0, c0_alone, needed};
ghost use Rattle.rules.specs.Paging.{common_lines};
ghost use Rattle.rules.specs.State.{line_at};
ghost use Rattle.storage.specs.Words.{cell_of};
ghost use Rattle.placing.specs.Helpers.{Finds};

use masks::contains;
use rules::Values;
use storage::{WORDS, entry, length, parameters, values_at};

fn is_common_combination(combination: u32) -> bool
    ensures { result ≡ is_common_combination combination }
{
    matches!(combination, 4 | 5 | 6)
}

// Some line passes the test.
fn any_line<F: Fn(Values) -> bool>(cell: &[u32; WORDS], test: F) -> bool
    requires { F.IsAlwaysCallable test }
    ensures { Finds (cell_of cell.now) (λ v passes. F.post test v passes) result }
{
    (0..64).any(|n| test(values_at(cell, n)))
}

// Some one of the mask stands for C0. No more than 64 positions are looked at, whatever length the words have.
fn has_c0(cell: &[u32; WORDS], mask: u64) -> bool
    ensures { result ≡ has_c0 (cell_of cell.now) mask }
{
    let c0 = parameters(cell).c0;
    (0..length(cell).min(64)).any(|p| contains(mask, p) & (entry(cell, p) == c0))
}

// The mask has C0 alone.
#[tactic(auto, using(hops::proofs::Bits::count_ones))]
fn c0_alone(cell: &[u32; WORDS], mask: u64) -> bool
    ensures { result ≡ c0_alone (cell_of cell.now) mask }
{
    (mask.count_ones() == 1) & has_c0(cell, mask)
}

// A line with these values would be a common channel out of its place.
pub fn misplaced(cell: &[u32; WORDS], values: Values) -> bool
    ensures { result ≡ any_of (misplaced (cell_of cell.now) values) }
{
    let Values {
        tn,
        combination,
        ..
    } = values;
    let common = is_common_combination(combination);
    if !common {
        return false;
    }
    let first = (combination == 4) | (combination == 5);
    let six = combination == 6;
    let first_elsewhere = first & (tn != 0);
    let six_elsewhere = six & !((tn == 2) | (tn == 4) | (tn == 6));
    let other_mask = common & !c0_alone(cell, values.mask);
    let other_code = common & (values.tsc != parameters(cell).bcc);
    let second = first & any_line(cell, |line| is_common_combination(line.combination));
    let reserved = (combination == 5) & (parameters(cell).ag > 2);
    let no_first = six & (tn == 2) & !any_line(cell, |line| line.combination == 4);
    let lower = tn.saturating_sub(2);
    let no_six = six
        & ((tn == 4) | (tn == 6))
        & !any_line(cell, |line| (line.combination == 6) & (line.tn == lower));
    first_elsewhere
        | (six_elsewhere
            | (other_mask | (other_code | (second | (reserved | (no_first | no_six))))))
}

// Line n is a 4 or 6 while a 6 is open two timeslots higher.
pub fn needed(cell: &[u32; WORDS], n: usize) -> bool
    ensures { result ≡ needed (cell_of cell.now) (line_at (cell_of cell.now) n) }
{
    let line = values_at(cell, n);
    let higher = u64::from(line.tn) + 2;
    ((line.combination == 4) | (line.combination == 6))
        && any_line(cell, |other| {
            (other.combination == 6) & (u64::from(other.tn) == higher)
        })
}

// How many open lines are of combination 4, 5 or 6. A sum, for which several lines are looked at in one step; `filter` and `count` would branch at each.
pub fn common_lines(cell: &[u32; WORDS]) -> u32
    ensures { result ≡ common_lines (cell_of cell.now) }
{
    (0..64)
        .map(|n| u32::from(is_common_combination(values_at(cell, n).combination)))
        .sum()
}

// Some open line is of combination 5.
pub fn has_combined(cell: &[u32; WORDS]) -> bool
    ensures { result ≡ any_line (cell_of cell.now) (has_combination 5) }
{
    any_line(cell, |line| line.combination == 5)
}
