// The commands that ask nothing of the cell: split, join, hop and map.
use crate::output::Text;
use arrayvec::ArrayVec;
use clock::Frame;
use replies::answer_in;
use text::numbers::{list, narrow, numbers, only};
use text::wanted::Exactly;
use wording::Reason;

pub(crate) fn split(out: &mut Text, words: &[u8]) -> Result<(), Reason> {
    let [number] = only(words, Exactly::<1>)?;
    answer_in(out, Frame::new(narrow(number)));
    Ok(())
}

pub(crate) fn join(out: &mut Text, words: &[u8]) -> Result<(), Reason> {
    let [t1, t2, t3] = only(words, Exactly::<3>)?;
    answer_in(out, Frame::join(narrow(t1), narrow(t2), narrow(t3)));
    Ok(())
}

pub(crate) fn hop(
    out: &mut Text,
    ca: &mut ArrayVec<u16, 32768>,
    words: &[u8],
) -> Result<(), Reason> {
    let ([mask, hsn, maio, number], rest) = numbers(words, Exactly::<4>)?;
    list(rest, ca)?;
    answer_in(
        out,
        hopping::hop(
            ca.as_slice(),
            mask,
            narrow(hsn),
            narrow(maio),
            narrow(number),
        ),
    );
    Ok(())
}

pub(crate) fn map(out: &mut Text, words: &[u8]) -> Result<(), Reason> {
    let [combination, tn, number, direction] = only(words, Exactly::<4>)?;
    answer_in(
        out,
        frame_map::map(
            narrow(combination),
            narrow(tn),
            narrow(number),
            narrow(direction),
        ),
    );
    Ok(())
}
