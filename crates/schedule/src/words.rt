// The words of a command as its call takes them.
use arrayvec::ArrayVec;
use text::numbers::{figures, only};
use text::wanted::Exactly;
use text::words::next_word;
use wording::Reason;

// More than any IMSI or burst has: of a longer word only so many are kept, and it is refused for its length all the same.
pub(crate) type Figures = ArrayVec<u8, 256>;

// The characters of the next word, an IMSI or bits, as one number each; and no further word.
pub(crate) fn last_figures(words: &[u8]) -> Result<Figures, Reason> {
    let (word, rest) = next_word(words).ok_or(Reason::TooFewWords)?;
    let [] = only(rest, Exactly::<0>)?;
    let mut digits = Figures::new();
    figures(word, &mut digits);
    Ok(digits)
}
