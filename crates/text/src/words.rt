// The words of a line, and the lines of a text.
ghost use Rattle.std.specs.Prelude.{◌≡◌, option_map};
ghost use Rattle.wording.specs.Words.{parted, past, first_word, first_line};

// What stands before the first byte that is this one, and the rest, from that byte on: none, where there is no such byte.
pub fn split_before(text: &[u8], byte: u8) -> (&[u8], &[u8])
    ensures { (result.0.now, result.1.now) ≡ parted byte text.now }
{
    text.split_at(text.iter().position(|&c| c == byte).unwrap_or(text.len()))
}

// What follows as many of this byte as there are at the start. Beside `split_before`: one function over a closure would be no plainer than these two lines.
pub fn trim_start(text: &[u8], byte: u8) -> &[u8]
    ensures { result.now ≡ past byte text.now }
{
    let (_, rest) = text.split_at(text.iter().position(|&c| c != byte).unwrap_or(text.len()));
    rest
}

// The first word of a line and what follows it.
pub fn next_word(line: &[u8]) -> Option<(&[u8], &[u8])>
    ensures { option_map (λ found. (found.0.now, found.1.now)) result ≡ first_word line.now }
{
    let (word, rest) = split_before(trim_start(line, b' '), b' ');
    if word.is_empty() {
        return None;
    }
    Some((word, rest))
}

// The first line of a text that has an end, and what follows the end.
pub fn next_line(text: &[u8]) -> Option<(&[u8], &[u8])>
    ensures { option_map (λ found. (found.0.now, found.1.now)) result ≡ first_line text.now }
{
    let (line, rest) = split_before(text, b'\n');
    let (_, rest) = rest.split_first()?;
    Some((line, rest))
}
