// What the answers have to be. The checks run: whole answers are compared, every number of them. Each `requires` makes its check a proof obligation.
// A function for each kind of answer, its numbers in the order of the sheet's rows: structs for two or three of them would make a row longer to read.
ghost use Rattle.std.specs.Prelude.{◌≡◌};
ghost use Rattle.answers.specs.Outcome.{accepted};
ghost use Rattle.maps.specs.Numbers.{no_numbers};
ghost use Rattle.c_answers.specs.Numbers.{join_numbers, hop_numbers, map_fields, line_fields, page_numbers};

use c_answers::{TdmaAnswer, TdmaHop, TdmaJoin, TdmaLine, TdmaMap, TdmaPage, TdmaSplit, TdmaWho};
use check::expect;
use hops::Tuning;

// The channels by their numbers in an answer: what is asked here is the C interface, whose header has these numbers.
pub(crate) const TCH: u8 = 1;

pub(crate) const SACCH: u8 = 2;

pub(crate) const SDCCH: u8 = 3;

pub(crate) const CCCH: u8 = 7;

pub(crate) const RACH: u8 = 8;

// What the sheet's lines are tuned to: ARFCN, MAI and the position. Of the masks 7, 15 and 1 MAI is the position; mask 8 has the fourth entry alone.
pub(crate) const ON_10: Tuning = Tuning {
    arfcn: 10,
    mai: 0,
    position: 0,
};

pub(crate) const ON_20: Tuning = Tuning {
    arfcn: 20,
    mai: 1,
    position: 1,
};

pub(crate) const ON_30: Tuning = Tuning {
    arfcn: 30,
    mai: 2,
    position: 2,
};

pub(crate) const ON_40: Tuning = Tuning {
    arfcn: 40,
    mai: 0,
    position: 3,
};

// Nobody is tuned to anything.
pub(crate) const NOWHERE: Tuning = Tuning {
    arfcn: 0,
    mai: 0,
    position: 0,
};

// T1, T2 and T3, with no T3'.
pub(crate) fn expect_split(a: TdmaSplit, t1: u32, t2: u32, t3: u32)
    requires { a ≡ record { refusal = 0; t1 = t1; t2 = t2; t3 = t3; given = 0; prime = 0 } }
{
    expect(
        a == TdmaSplit {
            refusal: 0,
            t1,
            t2,
            t3,
            given: 0,
            prime: 0,
        },
    );
}

pub(crate) fn expect_join(a: TdmaJoin, frame: u32)
    requires { a ≡ join_numbers (accepted frame) }
{
    expect(a == TdmaJoin { refusal: 0, frame });
}

pub(crate) fn expect_hop(a: TdmaHop, tuning: Tuning)
    requires { a ≡ hop_numbers (accepted tuning) }
{
    let Tuning {
        arfcn,
        mai,
        position,
    } = tuning;
    expect(
        a == TdmaHop {
            refusal: 0,
            arfcn,
            mai,
            position,
        },
    );
}

// A burst of one block.
pub(crate) fn expect_burst(a: TdmaMap, channel: u8, s: u8, block: u8, place: u8)
    requires { a ≡ map_fields (record { refusal = 0; channel = channel; subchannel = s; blocks = 1; block = block; place = place; block2 = 0; place2 = 0 }) }
{
    expect(
        a == TdmaMap {
            refusal: 0,
            channel,
            subchannel: s,
            blocks: 1,
            block,
            place,
            block2: 0,
            place2: 0,
        },
    );
}

pub(crate) fn expect_idle(a: TdmaMap)
    requires { a ≡ map_fields (no_numbers 0) }
{
    expect(a == TdmaMap::default());
}

pub(crate) fn expect_accepted(a: TdmaAnswer)
    requires { (a.refusal ≡ 0) × (a.value ≡ 0) }
{
    expect(a == TdmaAnswer::default());
}

fn expect_line(a: TdmaLine, b: TdmaLine)
    requires { a ≡ b }
{
    expect(a == b);
}

// A burst of one block: what the line is tuned to, channel, subchannel, owner, block and place.
pub(crate) fn expect_one_block(
    a: TdmaLine,
    tuning: Tuning,
    channel: u8,
    s: u32,
    owner: u32,
    block: u32,
    place: u32,
)
    requires { a ≡ line_fields tuning owner (record { refusal = 0; channel = channel; subchannel = s; blocks = 1; block = block; place = place; block2 = 0; place2 = 0 }) }
{
    let b = TdmaLine {
        refusal: 0,
        arfcn: tuning.arfcn,
        owner,
        channel: u32::from(channel),
        subchannel: s,
        blocks: 1,
        block,
        place,
        block2: 0,
        place2: 0,
        mai: tuning.mai,
        position: tuning.position,
    };
    expect_line(a, b);
}

// A burst that is also of a second block.
pub(crate) fn expect_two_blocks(
    a: TdmaLine,
    tuning: Tuning,
    channel: u8,
    s: u32,
    owner: u32,
    block: u32,
    place: u32,
    block2: u32,
    place2: u32,
)
    requires { a ≡ line_fields tuning owner (record { refusal = 0; channel = channel; subchannel = s; blocks = 2; block = block; place = place; block2 = block2; place2 = place2 }) }
{
    let b = TdmaLine {
        refusal: 0,
        arfcn: tuning.arfcn,
        owner,
        channel: u32::from(channel),
        subchannel: s,
        blocks: 2,
        block,
        place,
        block2,
        place2,
        mai: tuning.mai,
        position: tuning.position,
    };
    expect_line(a, b);
}

pub(crate) fn expect_idle_line(a: TdmaLine, tuning: Tuning)
    requires { a ≡ line_fields tuning 0 (no_numbers 0) }
{
    let idle = TdmaLine {
        arfcn: tuning.arfcn,
        mai: tuning.mai,
        position: tuning.position,
        ..TdmaLine::default()
    };
    expect(a == idle);
}

// Whether a line was found (1) and which, 0 and 0 for nobody; its answer is handed back to be checked.
pub(crate) fn expect_who(a: TdmaWho, found: u32, line: u32) -> TdmaLine
    requires { (a.refusal ≡ 0) × ((a.found ≡ found) × (a.line ≡ line)) }
    ensures { result ≡ a.answer }
{
    expect((a.refusal, a.found, a.line) == (0, found, line));
    a.answer
}

pub(crate) fn expect_page(a: TdmaPage, tn: u32, block: u32, frame: u32)
    requires { a ≡ page_numbers (accepted (record { tn = tn; block = block; frame = frame })) }
{
    expect(
        a == TdmaPage {
            refusal: 0,
            tn,
            block,
            frame,
        },
    );
}
