// What a line has in a frame, put to an `ArrayVec` and to a lent slice from a place on.
ghost use Rattle.std.specs.Prelude.{◌≡◌};
ghost use Rattle.wording.specs.Print.{written, Appended};
ghost use Rattle.wording.specs.Table.{head_text, title_text, frame_text, cell_text};
ghost use Rattle.timetable.specs.Numbered.{numbered_cell_text};

use crate::{cell, frame, head, title};
use arrayvec::ArrayVec;
use c_answers::TdmaLine;
use clock::Frame;
use hops::Tuning;
use maps::Content;
use slots::OnAir;
use text::room::Lent;

fn answered<const N: usize>(out: &mut ArrayVec<u8, N>, on_air: OnAir)
    ensures { out.new.items ≡ written N out.old.items (cell_text on_air) }
{
    cell(out, on_air);
}

// By numbers, whatever they are: where it ends.
fn numbered_at(out: &mut [u8], at: usize, line: TdmaLine) -> usize
    ensures { Appended out.old at out.new result (numbered_cell_text line) }
{
    let mut lent = Lent { slice: out, at };
    cell(&mut lent, line);
    lent.end()
}

fn head_at(out: &mut [u8], at: usize, tn: u32, direction: u32, count: u32, number: u32) -> usize
    ensures { Appended out.old at out.new result (head_text tn direction count number) }
{
    let mut lent = Lent { slice: out, at };
    head(&mut lent, tn, direction, count, number);
    lent.end()
}

fn title_at(out: &mut [u8], at: usize, line: u32) -> usize
    ensures { Appended out.old at out.new result (title_text line) }
{
    let mut lent = Lent { slice: out, at };
    title(&mut lent, line);
    lent.end()
}

fn frame_at(out: &mut [u8], at: usize, number: u32, parts: Frame) -> usize
    ensures { Appended out.old at out.new result (frame_text number parts) }
{
    let mut lent = Lent { slice: out, at };
    frame(&mut lent, number, parts);
    lent.end()
}

fn head_to<const N: usize>(
    out: &mut ArrayVec<u8, N>,
    tn: u32,
    direction: u32,
    count: u32,
    number: u32,
)
    ensures { out.new.items ≡ written N out.old.items (head_text tn direction count number) }
{
    head(out, tn, direction, count, number);
}

fn title_to<const N: usize>(out: &mut ArrayVec<u8, N>, line: u32)
    ensures { out.new.items ≡ written N out.old.items (title_text line) }
{
    title(out, line);
}

fn frame_to<const N: usize>(out: &mut ArrayVec<u8, N>, number: u32, parts: Frame)
    ensures { out.new.items ≡ written N out.old.items (frame_text number parts) }
{
    frame(out, number, parts);
}

#[test]
fn cells(rt: HostRuntime) {
    let mut out = ArrayVec::<u8, 64>::new();
    let tuning = Tuning {
        arfcn: 10,
        mai: 0,
        position: 1,
    };
    let silent = OnAir {
        tuning,
        content: Content::Idle,
        owner: 0,
    };
    answered(&mut out, silent);
    assert_eq!(rt;
        out.as_slice(),
        b"    10 idle                    |".as_slice()
    );
}

#[test]
fn odd_numbers(rt: HostRuntime) {
    let mut out = [b'.'; 36];
    let line = TdmaLine {
        arfcn: 1024,
        owner: 70000,
        channel: 3,
        subchannel: 5,
        blocks: 2,
        block: 4,
        place: 5,
        block2: 6,
        place2: 70,
        ..TdmaLine::default()
    };
    assert_eq!(rt; numbered_at(&mut out, 1, line), 34);
    assert_eq!(rt;
        out.as_slice(),
        b".  1024 SDCCH 5 70000  4.5  6.70 |..".as_slice()
    );
    assert_eq!(rt; numbered_at(&mut out, 99, line), 36);
    assert_eq!(rt;
        out.as_slice(),
        b".  1024 SDCCH 5 70000  4.5  6.70 |..".as_slice()
    );
    let other = TdmaLine { channel: 9, ..line };
    assert_eq!(rt; numbered_at(&mut out, 30, other), 36);
    assert_eq!(rt;
        out.as_slice(),
        b".  1024 SDCCH 5 70000  4.5  6.  1024".as_slice()
    );
}
