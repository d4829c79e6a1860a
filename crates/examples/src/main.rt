// The rows of document 01's drill sheet, asked of the C interface's functions, and each answer checked; nothing is printed.
// That every check holds is proved, from what the library promises and the fact DrillSheet.
#![tactic(auto)]

mod ask;
mod expected;

ghost use Rattle.std.specs.Prelude.{◌≡◌};
ghost use Rattle.storage.specs.Words.{cell_of};
ghost use Rattle.rules.specs.DrillSheet as sheet;

use expected::{
    CCCH, NOWHERE, ON_10, ON_20, ON_30, ON_40, RACH, SACCH, SDCCH, TCH, expect_accepted,
    expect_burst, expect_hop, expect_idle, expect_idle_line, expect_join, expect_one_block,
    expect_page, expect_split, expect_two_blocks, expect_who,
};
use storage::WORDS;
use tdma::cells::{tdma_line, tdma_open, tdma_seize, tdma_who};
use tdma::{tdma_join, tdma_map, tdma_split};

fn clock_rows() {
    expect_split(tdma_split(2715647), 2047, 25, 50);
    expect_join(tdma_join(0, 25, 0), 51);
}

fn hop_rows() {
    expect_hop(ask::hop(7, 0, 2, 5), ON_20);
    expect_hop(ask::hop(7, 1, 0, 0), ON_30);
    expect_hop(ask::hop(7, 1, 0, 2), ON_30);
    expect_hop(ask::hop(7, 1, 0, 4), ON_10);
    expect_hop(ask::hop(7, 1, 1, 0), ON_10);
    expect_hop(ask::hop(15, 1, 0, 3), ON_30);
}

fn map_rows() {
    expect_burst(tdma_map(1, 1, 25, 0), SACCH, 0, 0, 0);
    expect_burst(tdma_map(1, 1, 25, 1), SACCH, 0, 0, 0);
    expect_idle(tdma_map(1, 1, 12, 0));
    expect_idle(tdma_map(1, 1, 12, 1));
    expect_burst(tdma_map(2, 1, 12, 0), SACCH, 0, 0, 0);
    expect_burst(tdma_map(2, 1, 12, 1), SACCH, 0, 0, 0);
    expect_burst(tdma_map(7, 0, 102, 1), SACCH, 5, 0, 0);
    expect_burst(tdma_map(5, 0, 13, 1), SACCH, 3, 0, 3);
    expect_burst(tdma_map(5, 0, 14, 1), RACH, 0, 2, 0);
    expect_burst(tdma_map(5, 0, 64, 1), SACCH, 1, 0, 3);
}

// The cell for the rows on hopping, traffic, SDCCH and paging: AG 1, P 5, and one common line, a 4.
fn traffic(cell: &mut [u32; WORDS])
    ensures { cell_of cell.new ≡ sheet.traffic }
{
    expect_accepted(ask::start(cell, 10, 0, 1, 5));
    expect_accepted(tdma_open(cell, 0, 0, 1, 0, 0, 4, 0));
    expect_accepted(tdma_open(cell, 1, 1, 7, 0, 2, 1, 3));
    expect_accepted(tdma_open(cell, 2, 1, 8, 0, 0, 2, 3));
    expect_accepted(tdma_open(cell, 3, 2, 7, 1, 0, 1, 3));
    expect_accepted(tdma_open(cell, 4, 2, 7, 1, 1, 1, 3));
    expect_accepted(tdma_open(cell, 5, 3, 15, 1, 0, 7, 3));
    expect_accepted(tdma_seize(cell, 5, 5, 77));
}

// The rows on hopping. Each function of rows asks for the cell of `traffic`: its words are what C lends, so no type of the library holds that fact.
fn arfcn_rows(cell: &[u32; WORDS])
    requires { cell_of cell.now ≡ sheet.traffic }
{
    expect_two_blocks(tdma_line(cell, 1, 5, 0), ON_20, TCH, 0, 0, 1, 1, 0, 5);
    expect_two_blocks(tdma_line(cell, 3, 0, 0), ON_30, TCH, 0, 0, 0, 0, 5, 4);
    expect_two_blocks(tdma_line(cell, 3, 2, 0), ON_30, TCH, 0, 0, 0, 2, 5, 6);
    expect_two_blocks(tdma_line(cell, 3, 4, 0), ON_10, TCH, 0, 0, 1, 0, 0, 4);
    expect_two_blocks(tdma_line(cell, 4, 0, 0), ON_10, TCH, 0, 0, 0, 0, 5, 4);
    expect_one_block(tdma_line(cell, 5, 3, 0), ON_30, SDCCH, 0, 0, 0, 3);
}

// The rows on traffic and SDCCH.
fn traffic_rows(cell: &[u32; WORDS])
    requires { cell_of cell.now ≡ sheet.traffic }
{
    expect_one_block(tdma_line(cell, 1, 25, 0), ON_10, SACCH, 0, 0, 0, 0);
    expect_idle_line(tdma_line(cell, 1, 12, 0), ON_30);
    expect_one_block(tdma_line(cell, 2, 12, 0), ON_40, SACCH, 0, 0, 0, 0);
    expect_one_block(tdma_line(cell, 5, 102, 1), ON_30, SACCH, 5, 77, 0, 0);
}

// The row on paging, and the paged block on the air.
fn page_rows(cell: &[u32; WORDS])
    requires { cell_of cell.now ≡ sheet.traffic }
{
    expect_page(ask::page(cell, 0), 0, 4, 26);
    expect_one_block(tdma_line(cell, 0, 26, 0), ON_10, CCCH, 0, 0, 4, 0);
}

// Not of the sheet: who sends what the first row of `arfcn_rows` has, and an ARFCN that nobody has then.
fn who_rows(cell: &[u32; WORDS])
    requires { cell_of cell.now ≡ sheet.traffic }
{
    let answer = expect_who(tdma_who(cell, 1, 20, 5, 0), 1, 1);
    expect_two_blocks(answer, ON_20, TCH, 0, 0, 1, 1, 0, 5);
    let answer = expect_who(tdma_who(cell, 1, 10, 5, 0), 0, 0);
    expect_idle_line(answer, NOWHERE);
}

// The cell for the rows on combination 5.
fn combined(cell: &mut [u32; WORDS])
    ensures { cell_of cell.new ≡ sheet.combined }
{
    expect_accepted(ask::start(cell, 10, 0, 1, 5));
    expect_accepted(tdma_open(cell, 0, 0, 1, 0, 0, 5, 0));
    expect_accepted(tdma_seize(cell, 0, 3, 78));
}

fn combined_rows(cell: &[u32; WORDS])
    requires { cell_of cell.now ≡ sheet.combined }
{
    expect_one_block(tdma_line(cell, 0, 13, 1), ON_10, SACCH, 3, 78, 0, 3);
    expect_one_block(tdma_line(cell, 0, 14, 1), ON_10, RACH, 0, 0, 2, 0);
    expect_one_block(tdma_line(cell, 0, 64, 1), ON_10, SACCH, 1, 0, 0, 3);
}

fn main() {
    clock_rows();
    hop_rows();
    map_rows();
    let mut cell = [0u32; WORDS];
    traffic(&mut cell);
    arfcn_rows(&cell);
    traffic_rows(&cell);
    page_rows(&cell);
    who_rows(&cell);
    combined(&mut cell);
    combined_rows(&cell);
}
