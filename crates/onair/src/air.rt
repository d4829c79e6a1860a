// What a line sends in a frame.
ghost use Rattle.std.specs.Prelude.{◌≡◌};
ghost use Rattle.maps.specs.Map.{map_of, carried};
ghost use Rattle.rules.specs.OnAir.{tuning_in, in_frame, owner_of, slot_of};
ghost use Rattle.onair.specs.Told.{slot_in};
ghost use Rattle.rules.specs.State.{line_at, owner_at};
ghost use Rattle.storage.specs.Words.{cell_of};

use hops::{Selection, Tuning};
use maps::Content;
use slots::OnAir;
use storage::{WORDS, entry, length, owner_at, values_at};

// What line n is tuned to, each number 0 where that is refused, as the definition has it.
pub(crate) fn tuning(cell: &[u32; WORDS], n: usize, number: u32) -> Tuning
    ensures { result ≡ tuning_in (cell_of cell.now) (line_at (cell_of cell.now) n) number }
{
    let line = values_at(cell, n);
    match hopping::position(length(cell), line.mask, line.hsn, line.maio, number) {
        Ok(Selection { mai, position }) => Tuning {
            arfcn: entry(cell, position),
            mai,
            position,
        },
        Err(_) => Tuning::default(),
    }
}

// What the map has in the frame.
fn content(combination: u32, tn: u32, number: u32, direction: u32) -> Content
    ensures { carried result ≡ in_frame (map_of combination tn number direction) }
{
    frame_map::map(combination, tn, number, direction).unwrap_or(Content::Idle)
}

// The owner of what stands in the frame, of line n.
#[tactic(auto, using(crate::proofs::Owned::owner_common, crate::proofs::Owned::owner_held, crate::proofs::Owned::owner_idle))]
fn owner(cell: &[u32; WORDS], n: usize, content: Content) -> u32
    ensures { result ≡ owner_of (owner_at (line_at (cell_of cell.now) n)) (carried content) }
{
    match content {
        Content::Channel(burst) if !burst.kind.is_common() => owner_at(cell, n, burst.subchannel),
        _ => 0,
    }
}

// What line n of the cell sends. Compiled into its two callers, which take it apart at once.
#[inline(always)]
#[tactic(auto, unfolding(rules::specs::OnAir::slot_of))]
pub(crate) fn on_air(cell: &[u32; WORDS], n: usize, number: u32, direction: u32) -> OnAir
    ensures { slot_in result ≡ slot_of (cell_of cell.now) (line_at (cell_of cell.now) n) number direction }
{
    let line = values_at(cell, n);
    let content = content(line.combination, line.tn, number, direction);
    OnAir {
        tuning: tuning(cell, n, number),
        content,
        owner: owner(cell, n, content),
    }
}
