// The calls of the cell, whose words the caller lends. Each function is the C function of its name: names and parameters are the header's.
ghost use Rattle.std.specs.Prelude.{◌≡◌};
ghost use Rattle.rules.specs.Calls.{start_of, open_of, close_of, seize_of, release_of};
ghost use Rattle.rules.specs.OnAir.{line_of};
ghost use Rattle.rules.specs.Paging.{page_of};
ghost use Rattle.rules.specs.Who.{who_of};
ghost use Rattle.storage.specs.Words.{cell_of};
ghost use Rattle.c_answers.specs.Numbers.{page_numbers};
ghost use Rattle.tdma.specs.Cells.{Left, Done, line_numbers, who_numbers};

use c_answers::{TdmaAnswer, TdmaLine, TdmaPage, TdmaWho};
use rules::{Parameters, Values};
use storage::WORDS;

// A cell with all lines closed.
pub fn tdma_start(
    cell: &mut [u32; WORDS],
    ca: &[u16],
    c0: u32,
    bcc: u32,
    ag: u32,
    p: u32,
) -> TdmaAnswer
    ensures { Left result cell.new (start_of ca.now c0 bcc ag p) }
{
    TdmaAnswer::from(cell::start(cell, ca, Parameters { c0, bcc, ag, p }))
}

// The line gets the six values.
pub fn tdma_open(
    cell: &mut [u32; WORDS],
    line: u32,
    tn: u32,
    mask: u64,
    hsn: u32,
    maio: u32,
    combination: u32,
    tsc: u32,
) -> TdmaAnswer
    ensures { Done result cell.old cell.new (open_of (cell_of cell.old) line (record { tn = tn; mask = mask; hsn = hsn; maio = maio; combination = combination; tsc = tsc })) }
{
    let values = Values {
        tn,
        mask,
        hsn,
        maio,
        combination,
        tsc,
    };
    TdmaAnswer::from(cell::open(cell, line, values))
}

pub fn tdma_close(cell: &mut [u32; WORDS], line: u32) -> TdmaAnswer
    ensures { Done result cell.old cell.new (close_of (cell_of cell.old) line) }
{
    TdmaAnswer::from(cell::close(cell, line))
}

// The subchannel, if it is free, gets the owner.
pub fn tdma_seize(cell: &mut [u32; WORDS], line: u32, subchannel: u32, owner: u32) -> TdmaAnswer
    ensures { Done result cell.old cell.new (seize_of (cell_of cell.old) line subchannel owner) }
{
    TdmaAnswer::from(cell::seize(cell, line, subchannel, owner))
}

// The subchannel, if this owner holds it, is free again.
pub fn tdma_release(cell: &mut [u32; WORDS], line: u32, subchannel: u32, owner: u32) -> TdmaAnswer
    ensures { Done result cell.old cell.new (release_of (cell_of cell.old) line subchannel owner) }
{
    TdmaAnswer::from(cell::release(cell, line, subchannel, owner))
}

// What the line sends in a frame, downlink (0) or uplink (1).
pub fn tdma_line(cell: &[u32; WORDS], line: u32, frame: u32, direction: u32) -> TdmaLine
    ensures { result ≡ line_numbers (line_of (cell_of cell.now) line frame direction) }
{
    TdmaLine::from(onair::line(cell, line, frame, direction))
}

// Who is on the air in a timeslot, on an ARFCN and in a frame, downlink (0) or uplink (1).
pub fn tdma_who(cell: &[u32; WORDS], tn: u32, arfcn: u32, frame: u32, direction: u32) -> TdmaWho
    ensures { result ≡ who_numbers (who_of (cell_of cell.now) tn arfcn frame direction) }
{
    TdmaWho::from(onair::who(cell, tn, arfcn, frame, direction))
}

// Where and when a phone with this IMSI is paged.
pub fn tdma_page(cell: &[u32; WORDS], digits: &[u8], frame: u32) -> TdmaPage
    ensures { result ≡ page_numbers (page_of (cell_of cell.now) digits.now frame) }
{
    TdmaPage::from(cell::page(cell, digits, frame))
}
