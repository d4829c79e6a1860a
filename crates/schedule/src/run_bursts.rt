// The commands build and take: the second word names the burst.
use crate::output::Text;
use crate::words::{Figures, last_figures};
use bursts::{
    Access, Dummy, FrequencyCorrection, Layout, Normal, Synchronization, WithPayload, build_normal,
    take_normal,
};
use replies::{Bits, answer_in};
use text::numbers::{narrow, numbers, only};
use text::wanted::Exactly;
use text::words::next_word;
use wording::{BurstName, Reason};

// The burst that the next word names, and what follows it.
fn next_burst(words: &[u8]) -> Result<(BurstName, &[u8]), Reason> {
    let (word, rest) = next_word(words).ok_or(Reason::TooFewWords)?;
    let burst = commands::burst(word).ok_or(Reason::UnknownBurst)?;
    Ok((burst, rest))
}

// They differ in the call, in its bound and in the length: one function would take all three.
fn built<L: Layout>(out: &mut Text, layout: L, payload: &[u8]) {
    let mut burst = [0u8; 148];
    let bits = &mut burst[..L::SIZE];
    let done = bursts::build(layout, payload, bits);
    answer_in(out, done.map(|()| Bits(bits)));
}

fn taken<L: WithPayload>(out: &mut Text, layout: L, burst: &[u8]) {
    let mut payload = [0u8; 148];
    let bits = &mut payload[..L::ROOM];
    let done = bursts::take(layout, burst, bits);
    answer_in(out, done.map(|()| Bits(bits)));
}

// A normal burst has its training sequence code before the bits, which the call refuses before all else. These two differ in the call and in the length,
// as those above.
fn built_normal(out: &mut Text, words: &[u8]) -> Result<(), Reason> {
    let ([tsc], rest) = numbers(words, Exactly::<1>)?;
    let payload: Figures = last_figures(rest)?;
    let mut bits = [0u8; Normal::SIZE];
    let done = build_normal(narrow(tsc), payload.as_slice(), &mut bits);
    answer_in(out, done.map(|()| Bits(&bits)));
    Ok(())
}

fn taken_normal(out: &mut Text, words: &[u8]) -> Result<(), Reason> {
    let ([tsc], rest) = numbers(words, Exactly::<1>)?;
    let burst: Figures = last_figures(rest)?;
    let mut bits = [0u8; Normal::ROOM];
    let done = take_normal(narrow(tsc), burst.as_slice(), &mut bits);
    answer_in(out, done.map(|()| Bits(&bits)));
    Ok(())
}

pub(crate) fn build(out: &mut Text, words: &[u8]) -> Result<(), Reason> {
    let (burst, rest) = next_burst(words)?;
    match burst {
        BurstName::Normal => built_normal(out, rest)?,
        BurstName::Synchronization => {
            built(out, Synchronization, last_figures(rest)?.as_slice());
        }
        BurstName::Access => built(out, Access, last_figures(rest)?.as_slice()),
        BurstName::FrequencyCorrection => {
            let [] = only(rest, Exactly::<0>)?;
            built(out, FrequencyCorrection, &[]);
        }
        BurstName::Dummy => {
            let [] = only(rest, Exactly::<0>)?;
            built(out, Dummy, &[]);
        }
    }
    Ok(())
}

// Frequency correction and dummy bursts are built only.
pub(crate) fn take(out: &mut Text, words: &[u8]) -> Result<(), Reason> {
    let (burst, rest) = next_burst(words)?;
    match burst {
        BurstName::Normal => taken_normal(out, rest)?,
        BurstName::Synchronization => {
            taken(out, Synchronization, last_figures(rest)?.as_slice());
        }
        BurstName::Access => taken(out, Access, last_figures(rest)?.as_slice()),
        BurstName::FrequencyCorrection | BurstName::Dummy => return Err(Reason::UnknownBurst),
    }
    Ok(())
}
