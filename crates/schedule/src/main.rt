// The program `schedule`: commands in, answers out. With no argument it runs the plan that is built into it, else the commands of a file, or of
// standard input; help.rt has the text of `--help`. session.rt answers lines by the proved crates: run_frames.rt, run_cells.rt and run_bursts.rt have a
// function for each command, table.rt has `table`. input.rt and output.rt read and write.
#![tactic(auto)]

mod help;
mod input;
mod output;
mod plan;
mod run_bursts;
mod run_cells;
mod run_frames;
mod session;
mod table;
mod words;

use output::complain;
use session::Session;
use std::env::{Env, FillError};
use std::fs::File;
use std::io::Read;
use std::{io, str};

// The system's number for a name that is too long.
const NAME_TOO_LONG: i32 = 36;

// Answers the commands of an open file, and tells of one that could not be read.
fn answer_from<R: Read>(rt: HostRuntime, file: &mut R, path: &str) {
    if let Err(error) = input::answer_all(&mut Session::new(rt), file) {
        complain(rt, path, error);
    }
}

fn answer_path(rt: HostRuntime, path: &str) {
    match File::open(&rt, path) {
        Ok(mut file) => answer_from(rt, &mut file, path),
        Err(error) => complain(rt, path, error),
    }
}

fn answer_file(rt: HostRuntime, path: &[u8]) {
    match path {
        b"--help" | b"-h" => help::print(rt),
        b"-" => answer_from(rt, &mut rt.stdin(), "standard input"),
        _ => match str::from_utf8(path) {
            Ok(path) => answer_path(rt, path),
            Err(_) => complain(rt, "path", io::Error::other("not UTF-8")),
        },
    }
}

// There is an argument of this number: it has room or is too long.
fn is_given(rt: HostRuntime, number: usize) -> bool {
    !matches!(rt.arg(number, &mut [0u8; 1]), Err(FillError::NotPresent))
}

fn main(rt: HostRuntime) {
    if is_given(rt, 2) {
        let _ = eprintln!(rt; "usage: schedule [FILE | - | --help]");
        return;
    }
    let mut path = [0u8; 4096];
    match rt.arg(1, &mut path) {
        Ok(length) => answer_file(rt, &path[..length]),
        Err(FillError::NotPresent) => plan::run(rt),
        Err(FillError::TooLong) => complain(
            rt,
            "path",
            io::Error::from_raw_os_error(NAME_TOO_LONG),
        ),
    }
}
