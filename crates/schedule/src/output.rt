// What is written waits in a buffer until that has little room, or until the program reads on. What fails is told on standard error.
use arrayvec::ArrayVec;
use std::fmt::Display;
use std::io;

// How much may wait.
pub(crate) type Text = ArrayVec<u8, 65536>;

// More than any answer takes, and any row of a timetable.
const ROOM: usize = 4096;

#[derive(Drop)]
pub(crate) struct Output {
    // What waits.
    pub(crate) text: Text,
    // Something could not be written: nothing more is.
    pub(crate) failed: bool,
    rt: HostRuntime,
}

impl Output {
    pub(crate) fn new(rt: HostRuntime) -> Output {
        Output {
            text: ArrayVec::new(),
            failed: false,
            rt,
        }
    }

    // What waits is written out.
    pub(crate) fn flush(&mut self) {
        if !self.failed {
            if let Err(error) = self.rt.write_all(self.text.as_slice()) {
                complain(self.rt, "standard output", error);
                self.failed = true;
            }
        }
        self.text.clear();
    }

    // What waits is written out if there is little room.
    pub(crate) fn make_room(&mut self) {
        if self.text.remaining_capacity() < ROOM {
            self.flush();
        }
    }
}

// An error's text without the system's number behind it.
fn unnumbered(text: &str) -> &str {
    text.split_once(" (os error ")
        .map_or(text, |(reason, _)| reason)
}

fn tell<D: Display + Drop>(rt: HostRuntime, what: &str, reason: D) {
    let _ = eprintln!(rt; "{what}: {reason}");
}

// What failed, and why in the system's words. With no memory for these, the error as it prints itself.
pub(crate) fn complain(rt: HostRuntime, what: &str, error: io::Error) {
    match format!(in rt.alloc(); "{error}") {
        Ok(text) => tell(rt, what, unnumbered(text.as_str())),
        Err(_) => tell(rt, what, error),
    }
}
