// One field of a burst: a word's bits or payload bits, written, compared and read.
ghost use Rattle.std.specs.Prelude.{◌≡◌, map, ◌/◌, ◌%◌, ◌^◌, length};
ghost use Rattle.std.proofs.Math.Option.{some};
ghost use Rattle.layouts.specs.Layouts.{bits};
ghost use Rattle.layouts.specs.Rows.{built, taken};
ghost use Rattle.bursts.specs.Helpers.{width, payload_of, field_row, FirstWrong};

#[derive(Clone, Copy)]
pub enum Field {
    // So many bits of fixed states: the word's, first bit highest. Past 64 bits the states are 0.
    Fixed { width: usize, word: u64 },
    // So many payload bits.
    Room { width: usize },
}

impl Field {
    // How many bits a field has.
    pub(crate) fn width(self) -> usize
        ensures { result ≡ width self }
    {
        match self {
            Field::Fixed { width, .. } | Field::Room { width } => width,
        }
    }

    // How many of them are payload.
    pub(crate) fn room(self) -> usize
        ensures { result ≡ payload_of self }
    {
        match self {
            Field::Fixed { .. } => 0,
            Field::Room { width } => width,
        }
    }

    // Writes the field's bits with this payload.
    pub(crate) fn write(self, payload: &[u8], to: &mut [u8])
        requires { (length payload.now ≡ payload_of self) × (length to.old ≡ width self) }
        ensures { to.new ≡ built (field_row self) payload.now }
    {
        match self {
            Field::Fixed { word, .. } => write_bits(word, to),
            Field::Room { .. } => to.copy_from_slice(payload),
        }
    }

    // The first place where a fixed bit of the field differs.
    pub(crate) fn first_wrong(self, bits: &[u8]) -> Option<usize>
        requires { length bits.now ≡ width self }
        ensures { FirstWrong (field_row self) bits.now result }
    {
        match self {
            Field::Fixed { word, .. } => first_other(word, bits),
            Field::Room { .. } => None,
        }
    }

    // Reads the field's payload.
    pub(crate) fn read(self, bits: &[u8], payload: &mut [u8])
        requires { (length bits.now ≡ width self) × (length payload.old ≡ payload_of self) }
        ensures { payload.new ≡ taken (field_row self) bits.now }
    {
        if let Field::Room { .. } = self {
            payload.copy_from_slice(bits);
        }
    }
}

// The word's bit that is worth 2 to the power k.
fn bit(word: u64, k: usize) -> u8
    ensures { result ≡ word / 2 ^ k % 2 }
{
    if k > 63 {
        return 0;
    }
    ((word >> k) % 2) as u8
}

// The word in as many bits as there is room for, from the last bit to the first.
fn write_bits(word: u64, to: &mut [u8])
    ensures { to.new ≡ bits (length to.old) word }
{
    let mut rest = word;
    // By index, since `iter_mut().rev()` was tried and its proof did not close.
    for k in (0..to.len()).rev() {
        to[k] = (rest % 2) as u8;
        rest = rest / 2;
    }
}

// The first place where the word's bits differ.
fn first_other(word: u64, s: &[u8]) -> Option<usize>
    ensures { FirstWrong (map some (bits (length s.now) word)) s.now result }
{
    (0..s.len()).position(|k| s[k] != bit(word, s.len() - 1 - k))
}
