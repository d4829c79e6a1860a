// Commands are read into a buffer that holds the longest line with its end, and answered before more is read.
use crate::session::Session;
use std::io;
use std::io::Read;

// A line of less than so many bytes has room. An array, since std's buffered reader takes its buffer from the heap, which can fail; and no command may fail
// for want of memory.
const LINE: usize = 65536;

// The answers to all lines that are whole. What follows the last of them is kept, unless it is passed over or has no room; the result is how many bytes
// that is.
fn answer_whole(session: &mut Session, buffer: &mut [u8; LINE], filled: usize) -> usize {
    let filled = filled.min(LINE);
    let kept = session.answer_lines(&buffer[..filled]).len();
    if session.long {
        return 0;
    }
    if kept == LINE {
        session.refuse_long(buffer);
        return 0;
    }
    buffer.copy_within(filled.saturating_sub(kept)..filled, 0);
    kept
}

// Reads to the end, unless it can write no more. A read that fails ends the input, and its line is not answered. A loop has to end, and nothing says
// that the input does: its turns have a bound that no run uses up.
pub(crate) fn answer_all<R: Read>(session: &mut Session, file: &mut R) -> io::Result<()> {
    let mut buffer = [0u8; LINE];
    let mut kept = 0;
    for _ in 0..u64::MAX {
        let start = kept.min(LINE);
        let read = file.read(&mut buffer[start..])?;
        if read == 0 {
            session.answer_last(&buffer[..start]);
            break;
        }
        kept = answer_whole(session, &mut buffer, start + read);
        session.output.flush();
        if session.output.failed {
            break;
        }
    }
    Ok(())
}
