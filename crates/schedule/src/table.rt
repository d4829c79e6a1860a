// The command `table`: the open lines of a timeslot, frame by frame.
use crate::output::Output;
use answers::Refusal;
use arrayvec::ArrayVec;
use clock::Frame;
use replies::refused;
use storage::WORDS;
use text::numbers::{narrow, only};
use text::print::{put, put_numbers};
use text::wanted::Exactly;
use wording::Reason;

// What is asked: the frames of a cell's timeslot, from the first one on.
// Output and lines stay parameters: output is written to, and the lines are found from what is here.
#[derive(Clone, Copy)]
struct Timetable<'a> {
    cell: &'a [u32; WORDS],
    tn: u32,
    direction: u32,
    first: u32,
    frames: u32,
}

impl<'a> Timetable<'a> {
    // Whether a line is open in this timeslot: whoever is on its ARFCN there is the line itself, since two lines never meet.
    fn has(self, line: u32) -> bool {
        let Ok(on_air) = onair::line(self.cell, line, self.first, self.direction) else {
            return false;
        };
        let arfcn = on_air.tuning.arfcn;
        let who = onair::who(self.cell, self.tn, arfcn, self.first, self.direction);
        matches!(who, Ok(Some(found)) if found.line == line)
    }

    fn lines(self) -> ArrayVec<u32, 64> {
        let mut lines = ArrayVec::new();
        for line in 0..64 {
            if self.has(line) {
                let _ = lines.try_push(line);
            }
        }
        lines
    }

    // What each line has in a frame.
    fn row(self, output: &mut Output, lines: &[u32], frame: u32) -> Result<(), Refusal> {
        output.make_room();
        let out = &mut output.text;
        timetable::frame(out, frame, Frame::new(frame)?);
        for &line in lines {
            timetable::cell(out, onair::line(self.cell, line, frame, self.direction)?);
        }
        put(out, b"\n");
        Ok(())
    }

    // A row for each frame, past the turn to 0, too.
    fn rows(self, output: &mut Output, lines: &[u32]) -> Result<(), Refusal> {
        for turn in 0..self.frames {
            if output.failed {
                break;
            }
            let counted = u64::from(self.first) + u64::from(turn);
            let frame = counted % u64::from(Frame::HYPERFRAME);
            self.row(output, lines, frame as u32)?;
        }
        Ok(())
    }

    fn show(self, output: &mut Output) -> Result<(), Refusal> {
        if self.tn > 7 || self.direction > 1 || self.first >= Frame::HYPERFRAME {
            return Err(Refusal::OutOfRange);
        }
        let out = &mut output.text;
        timetable::head(out, self.tn, self.direction, self.frames, self.first);
        let lines = self.lines();
        if lines.is_empty() {
            put(out, b" none\n");
            return Ok(());
        }
        put_numbers(out, lines.as_slice());
        put(out, b"\n");
        titles(output, lines.as_slice());
        subtitles(output, lines.as_slice());
        self.rows(output, lines.as_slice())
    }
}

// A column's title for each line.
fn titles(output: &mut Output, lines: &[u32]) {
    output.make_room();
    put(&mut output.text, b"     FN   T1 T2 T3 |");
    for &line in lines {
        timetable::title(&mut output.text, line);
    }
    put(&mut output.text, b"\n");
}

// Below each title what stands in its column.
fn subtitles(output: &mut Output, lines: &[u32]) {
    output.make_room();
    put(&mut output.text, b"                   |");
    for _ in lines {
        put(&mut output.text, b" ARFCN kind  s owner  b.p  b.p |");
    }
    put(&mut output.text, b"\n");
}

pub(crate) fn table(output: &mut Output, cell: &[u32; WORDS], words: &[u8]) -> Result<(), Reason> {
    let [tn, direction, first, frames] = only(words, Exactly::<4>)?;
    let timetable = Timetable {
        cell,
        tn: narrow(tn),
        direction: narrow(direction),
        first: narrow(first),
        frames: narrow(frames),
    };
    if timetable.frames > Frame::HYPERFRAME {
        return Err(Reason::CountTooLarge);
    }
    if let Err(refusal) = timetable.show(output) {
        refused(&mut output.text, refusal);
    }
    Ok(())
}
