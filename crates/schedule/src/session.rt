// A cell, and the lines that are answered for it.
use crate::output::Output;
use crate::{run_bursts, run_cells, run_frames, table};
use arrayvec::ArrayVec;
use replies::error;
use rules::Parameters;
use storage::WORDS;
use text::print::put;
use text::words::{next_line, next_word};
use wording::{Command, Reason};

#[derive(Drop)]
pub(crate) struct Session {
    pub(crate) cell: [u32; WORDS],
    // The ARFCNs of a line: there is room for all numbers of the longest.
    pub(crate) list: ArrayVec<u16, 32768>,
    pub(crate) output: Output,
    // Each line is shown before its answer.
    pub(crate) shown: bool,
    // How many lines there were.
    pub(crate) number: u64,
    // The line is too long: its rest is passed over.
    pub(crate) long: bool,
}

// An empty line, or a comment.
fn is_silent(line: &[u8]) -> bool {
    matches!(line, [] | [b'#', ..])
}

impl Session {
    pub(crate) fn new(rt: HostRuntime) -> Session {
        let mut cell = [0u32; WORDS];
        // Refused, it hands back the cell that commands get before the first start.
        let _ = cell::start(
            &mut cell,
            &[],
            Parameters {
                c0: 0,
                bcc: 0,
                ag: 0,
                p: 0,
            },
        );
        Session {
            cell,
            list: ArrayVec::new(),
            output: Output::new(rt),
            shown: false,
            number: 0,
            long: false,
        }
    }

    // What a command says, or why the line is none.
    fn carry_out(&mut self, line: &[u8]) -> Result<(), Reason> {
        let (word, words) = next_word(line).ok_or(Reason::UnknownCommand)?;
        let out = &mut self.output.text;
        match commands::command(word).ok_or(Reason::UnknownCommand)? {
            Command::Split => run_frames::split(out, words),
            Command::Join => run_frames::join(out, words),
            Command::Hop => run_frames::hop(out, &mut self.list, words),
            Command::Map => run_frames::map(out, words),
            Command::Start => run_cells::start(out, &mut self.cell, &mut self.list, words),
            Command::Open => run_cells::open(out, &mut self.cell, words),
            Command::Close => run_cells::close(out, &mut self.cell, words),
            Command::Seize => run_cells::seize(out, &mut self.cell, words),
            Command::Release => run_cells::release(out, &mut self.cell, words),
            Command::Line => run_cells::line(out, &self.cell, words),
            Command::Who => run_cells::who(out, &self.cell, words),
            Command::Page => run_cells::page(out, &self.cell, words),
            Command::Build => run_bursts::build(out, words),
            Command::Take => run_bursts::take(out, words),
            Command::Table => table::table(&mut self.output, &self.cell, words),
        }
    }

    fn show(&mut self, line: &[u8]) {
        let out = &mut self.output.text;
        put(out, b"> ");
        put(out, line);
        put(out, b"\n");
    }

    // The next line; the rest of one that was too long is passed over.
    fn answer_line(&mut self, line: &[u8]) {
        if self.long {
            self.long = false;
            return;
        }
        self.number = self.number.saturating_add(1);
        self.output.make_room();
        if self.shown {
            self.show(line);
        }
        if is_silent(line) {
            return;
        }
        if let Err(reason) = self.carry_out(line) {
            error(&mut self.output.text, self.number, reason);
        }
    }

    // All lines that end in a text. The result is what follows them.
    pub(crate) fn answer_lines<'a>(&mut self, text: &'a [u8]) -> &'a [u8] {
        let mut rest = text;
        while let Some((line, after)) = next_line(rest) {
            self.answer_line(line);
            rest = after;
        }
        rest
    }

    // The line that has no end but that of the input.
    pub(crate) fn answer_last(&mut self, line: &[u8]) {
        if !line.is_empty() {
            self.answer_line(line);
        }
        self.output.flush();
    }

    // The line has no room: one error, unless it is a comment. The rest is passed over.
    pub(crate) fn refuse_long(&mut self, line: &[u8]) {
        self.number = self.number.saturating_add(1);
        self.long = true;
        if !is_silent(line) {
            self.output.make_room();
            error(&mut self.output.text, self.number, Reason::LineTooLong);
        }
    }
}
