// A cell as a value: its words are private, so that it can be had only from `start` and the calls, refused ones included.
ghost use Rattle.std.specs.Prelude.{◌≡◌};
ghost use Rattle.answers.specs.Refusals.{outcome_of, outcome_by};
ghost use Rattle.rules.specs.Calls.{start_of, open_of, close_of, seize_of, release_of, changed};
ghost use Rattle.rules.specs.OnAir.{line_of};
ghost use Rattle.rules.specs.Paging.{page_of};
ghost use Rattle.rules.specs.Who.{who_of};
ghost use Rattle.storage.specs.Words.{cell_of};
ghost use Rattle.onair.specs.Told.{slot_in, sought};
ghost use Rattle.cell.specs.Leaves.{Leaves};
ghost use Rattle.cell.specs.Value.{kept};

use answers::Refusal;
use groups::PagingBlock;
use rules::{Parameters, Values};
use slots::{Found, OnAir};
use storage::WORDS;

// A cell. Nobody else can make one, or reach its words.
#[derive(Clone, Copy)]
pub struct Cell {
    words: [u32; WORDS],
}

// What a call hands back: its answer, and the cell after it.
#[derive(Clone, Copy)]
pub struct Changed {
    pub answer: Result<(), Refusal>,
    pub cell: Cell,
}

// The calls on words, by value. Both stay: C lends the words, and the value cannot be had but from the calls. One
// function over a closure for the four that change a cell would need the closure's contract, and be no plainer.
impl Cell {
    // A cell with all lines closed; refused, the cell of ARFCN 0.
    pub fn start(ca: &[u16], parameters: Parameters) -> Changed
        ensures { changed result.answer (cell_of (kept result.cell)) ≡ start_of ca.now parameters.c0 parameters.bcc parameters.ag parameters.p }
    {
        let mut words = [0u32; WORDS];
        let answer = crate::start(&mut words, ca, parameters);
        let cell = Cell { words };
        Changed { answer, cell }
    }

    // Line `line` gets the six values.
    pub fn open(self, line: u32, values: Values) -> Changed
        ensures { Leaves result.answer (kept self) (kept result.cell) (open_of (cell_of (kept self)) line values) }
    {
        let mut cell = self;
        let answer = crate::open(&mut cell.words, line, values);
        Changed { answer, cell }
    }

    // Line `line` is closed.
    pub fn close(self, line: u32) -> Changed
        ensures { Leaves result.answer (kept self) (kept result.cell) (close_of (cell_of (kept self)) line) }
    {
        let mut cell = self;
        let answer = crate::close(&mut cell.words, line);
        Changed { answer, cell }
    }

    // Subchannel s of line `line`, if it is free, gets the owner.
    pub fn seize(self, line: u32, s: u32, owner: u32) -> Changed
        ensures { Leaves result.answer (kept self) (kept result.cell) (seize_of (cell_of (kept self)) line s owner) }
    {
        let mut cell = self;
        let answer = crate::seize(&mut cell.words, line, s, owner);
        Changed { answer, cell }
    }

    // Subchannel s of line `line`, if this owner holds it, is free again.
    pub fn release(self, line: u32, s: u32, owner: u32) -> Changed
        ensures { Leaves result.answer (kept self) (kept result.cell) (release_of (cell_of (kept self)) line s owner) }
    {
        let mut cell = self;
        let answer = crate::release(&mut cell.words, line, s, owner);
        Changed { answer, cell }
    }

    // What line `line` sends in frame `number`, downlink (0) or uplink (1).
    pub fn line(self, line: u32, number: u32, direction: u32) -> Result<OnAir, Refusal>
        ensures { outcome_by slot_in result ≡ line_of (cell_of (kept self)) line number direction }
    {
        onair::line(&self.words, line, number, direction)
    }

    // The open line of timeslot `tn` that has this ARFCN in frame `number`, and what it sends there.
    pub fn who(
        self,
        tn: u32,
        arfcn: u32,
        number: u32,
        direction: u32,
    ) -> Result<Option<Found>, Refusal>
        ensures { sought result ≡ who_of (cell_of (kept self)) tn arfcn number direction }
    {
        onair::who(&self.words, tn, arfcn, number, direction)
    }

    // Where and when a phone with this IMSI is paged, one digit to a byte, at or after frame `number`.
    pub fn page(self, digits: &[u8], number: u32) -> Result<PagingBlock, Refusal>
        ensures { outcome_of result ≡ page_of (cell_of (kept self)) digits.now number }
    {
        crate::page(&self.words, digits, number)
    }
}
