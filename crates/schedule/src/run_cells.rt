// The commands that ask the cell or change it, but table. Each has a function, since each names its own numbers: one function for two commands of as
// many numbers would take the call as a closure, and be no plainer.
use crate::output::Text;
use crate::words::Figures;
use arrayvec::ArrayVec;
use replies::answer_in;
use rules::{Parameters, Values};
use storage::WORDS;
use text::numbers::{figures, list, narrow, numbers, only};
use text::wanted::Exactly;
use text::words::next_word;
use wording::Reason;

type Cell = [u32; WORDS];

pub(crate) fn start(
    out: &mut Text,
    cell: &mut Cell,
    ca: &mut ArrayVec<u16, 32768>,
    words: &[u8],
) -> Result<(), Reason> {
    let ([c0, bcc, ag, p], rest) = numbers(words, Exactly::<4>)?;
    list(rest, ca)?;
    let parameters = Parameters {
        c0: narrow(c0),
        bcc: narrow(bcc),
        ag: narrow(ag),
        p: narrow(p),
    };
    answer_in(out, cell::start(cell, ca.as_slice(), parameters));
    Ok(())
}

pub(crate) fn open(out: &mut Text, cell: &mut Cell, words: &[u8]) -> Result<(), Reason> {
    let [line, tn, mask, hsn, maio, combination, tsc] = only(words, Exactly::<7>)?;
    let values = Values {
        tn: narrow(tn),
        mask,
        hsn: narrow(hsn),
        maio: narrow(maio),
        combination: narrow(combination),
        tsc: narrow(tsc),
    };
    answer_in(out, cell::open(cell, narrow(line), values));
    Ok(())
}

pub(crate) fn close(out: &mut Text, cell: &mut Cell, words: &[u8]) -> Result<(), Reason> {
    let [line] = only(words, Exactly::<1>)?;
    answer_in(out, cell::close(cell, narrow(line)));
    Ok(())
}

pub(crate) fn seize(out: &mut Text, cell: &mut Cell, words: &[u8]) -> Result<(), Reason> {
    let [line, s, owner] = only(words, Exactly::<3>)?;
    answer_in(
        out,
        cell::seize(cell, narrow(line), narrow(s), narrow(owner)),
    );
    Ok(())
}

pub(crate) fn release(out: &mut Text, cell: &mut Cell, words: &[u8]) -> Result<(), Reason> {
    let [line, s, owner] = only(words, Exactly::<3>)?;
    answer_in(
        out,
        cell::release(cell, narrow(line), narrow(s), narrow(owner)),
    );
    Ok(())
}

pub(crate) fn line(out: &mut Text, cell: &Cell, words: &[u8]) -> Result<(), Reason> {
    let [line, number, direction] = only(words, Exactly::<3>)?;
    answer_in(
        out,
        onair::line(cell, narrow(line), narrow(number), narrow(direction)),
    );
    Ok(())
}

pub(crate) fn who(out: &mut Text, cell: &Cell, words: &[u8]) -> Result<(), Reason> {
    let [tn, arfcn, number, direction] = only(words, Exactly::<4>)?;
    answer_in(
        out,
        onair::who(
            cell,
            narrow(tn),
            narrow(arfcn),
            narrow(number),
            narrow(direction),
        ),
    );
    Ok(())
}

pub(crate) fn page(out: &mut Text, cell: &Cell, words: &[u8]) -> Result<(), Reason> {
    let (imsi, rest) = next_word(words).ok_or(Reason::TooFewWords)?;
    let [number] = only(rest, Exactly::<1>)?;
    let mut digits = Figures::new();
    figures(imsi, &mut digits);
    answer_in(out, cell::page(cell, digits.as_slice(), narrow(number)));
    Ok(())
}
