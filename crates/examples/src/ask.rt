// The questions about the sheet's own CA, 10, 20, 30, 40, and its phone, whose IMSI is 123.
ghost use Rattle.std.specs.Prelude.{◌≡◌};
ghost use Rattle.hops.specs.Hopping.{hop_of};
ghost use Rattle.storage.specs.Words.{cell_of};
ghost use Rattle.rules.specs.Calls.{start_of};
ghost use Rattle.rules.specs.Paging.{page_of};
ghost use Rattle.c_answers.specs.Numbers.{hop_numbers};
ghost use Rattle.tdma.specs.Cells.{Left, page_numbers};
ghost use Rattle.rules.specs.DrillSheet.{ca, imsi};

use c_answers::{TdmaAnswer, TdmaHop, TdmaPage};
use storage::WORDS;

pub(crate) fn hop(mask: u64, hsn: u32, maio: u32, frame: u32) -> TdmaHop
    ensures { result ≡ hop_numbers (hop_of ca mask hsn maio frame) }
{
    let allocation = [10u16, 20, 30, 40];
    tdma::tdma_hop(&allocation, mask, hsn, maio, frame)
}

pub(crate) fn start(cell: &mut [u32; WORDS], c0: u32, bcc: u32, ag: u32, p: u32) -> TdmaAnswer
    ensures { Left result cell.new (start_of ca c0 bcc ag p) }
{
    let allocation = [10u16, 20, 30, 40];
    tdma::cells::tdma_start(cell, &allocation, c0, bcc, ag, p)
}

pub(crate) fn page(cell: &[u32; WORDS], frame: u32) -> TdmaPage
    ensures { result ≡ page_numbers (page_of (cell_of cell.now) imsi frame) }
{
    let digits = [1u8, 2, 3];
    tdma::cells::tdma_page(cell, &digits, frame)
}
