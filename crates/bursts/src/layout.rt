// The layouts of clause 5.2, field by field, the lowest bit number first.
ghost use Rattle.std.specs.Prelude.{◌≡◌, ◌≤◌, ℕ, length};
ghost use Rattle.std.proofs.Common.{rules};
ghost use Rattle.answers.specs.Refusals.{outcome_by};
ghost use Rattle.layouts.specs.Layouts.{frequency_correction, synchronization, dummy, access};
ghost use Rattle.layouts.specs.Rows.{Row, row_of, room};
ghost use Rattle.layouts.specs.Bursts.{normal_of, build_of, take_of};
ghost use Rattle.layouts.specs.Claims.{Sizes};
ghost use Rattle.layouts.proofs.Sizes.{all_sizes, plain};
ghost use Rattle.bursts.specs.Helpers.{fields_row};

use crate::field::Field;
use answers::Refusal;

// A burst's layout. Its row, and so what is built and taken, is the definitions'; the fields are how the code has it.
pub trait Layout: Copy {
    // What stands at each bit number.
    ghost burst_row: { Self → Row };

    ghost SIZE: { ℕ };

    ghost ROOM: { ℕ };

    // How many bits a burst has.
    const SIZE: usize;
    // How many of them are payload.
    const ROOM: usize;

    fn fields(&self) -> &[Field]
        ensures { fields_row result.now ≡ burst_row self.now };

    // Each burst that is built has SIZE bits, and each payload that is taken has ROOM.
    ghost sizes: { (it : Self) → Sizes (burst_row it) SIZE ROOM (build_of (burst_row it)) (take_of (burst_row it)) };

    ghost fits: { SIZE ≤ 148 };
}

// A layout with a payload. The other bursts are built only.
pub trait WithPayload: Layout {}

impl WithPayload for Normal {}

impl WithPayload for Synchronization {}

impl WithPayload for Access {}

// (0, 0, 0) at both ends.
const TAIL: Field = Field::Fixed { width: 3, word: 0 };

// The first 16 bits of the training codes, first bit highest.
const TRAINING: [u64; 8] = [
    0x25C2, 0x2DDE, 0x43BA, 0x47B4, 0x1AE4, 0x4EB0, 0xA7D8, 0xEF12,
];

// A normal burst with one of the training codes.
#[derive(Clone, Copy)]
pub struct Normal {
    fields: [Field; 6],
    ghost size: { length (fields_row fields) ≡ 148 },
    ghost room: { room (fields_row fields) ≡ 116 },
}

impl Normal {
    // The training sequence is a code, and its first 10 bits again.
    pub fn new(tsc: u32) -> Result<Normal, Refusal>
        ensures { outcome_by (⟦<Normal as Layout>⟧.burst_row) result ≡ normal_of tsc }
    {
        let Some(&code) = TRAINING.get(tsc as usize) else {
            return Err(Refusal::OutOfRange);
        };
        Ok(Normal {
            fields: [
                TAIL,
                Field::Room { width: 58 },
                Field::Fixed {
                    width: 16,
                    word: code,
                },
                Field::Fixed {
                    width: 10,
                    word: code >> 6,
                },
                Field::Room { width: 58 },
                TAIL,
            ],
        })
    }
}

impl Layout for Normal {
    ghost burst_row = { λ it. fields_row it.fields };

    ghost SIZE = { 148 };

    ghost ROOM = { 116 };

    const SIZE: usize = 148;

    const ROOM: usize = 116;

    fn fields(&self) -> &[Field] {
        &self.fields
    }

    ghost sizes = { λ it. plain (fields_row it.fields) 148 116 it.size it.room };

    ghost fits = { Prim.search rules };
}

#[derive(Clone, Copy)]
pub struct FrequencyCorrection;

impl Layout for FrequencyCorrection {
    ghost burst_row = { λ it. row_of frequency_correction };

    ghost SIZE = { 148 };

    ghost ROOM = { 0 };

    const SIZE: usize = 148;

    const ROOM: usize = 0;

    #[tactic(auto, unfolding(crate::proofs::Standard::rows))]
    fn fields(&self) -> &[Field] {
        &[
            TAIL,
            Field::Fixed {
                width: 142,
                word: 0,
            },
            TAIL,
        ]
    }

    ghost sizes = { λ it. all_sizes.frequency_correction };

    ghost fits = { Prim.search rules };
}

#[derive(Clone, Copy)]
pub struct Synchronization;

impl Layout for Synchronization {
    ghost burst_row = { λ it. row_of synchronization };

    ghost SIZE = { 148 };

    ghost ROOM = { 78 };

    const SIZE: usize = 148;

    const ROOM: usize = 78;

    #[tactic(auto, unfolding(crate::proofs::Standard::rows))]
    fn fields(&self) -> &[Field] {
        &[
            TAIL,
            Field::Room { width: 39 },
            Field::Fixed {
                width: 64,
                word: 0xB962040F2D45761B,
            },
            Field::Room { width: 39 },
            TAIL,
        ]
    }

    ghost sizes = { λ it. all_sizes.synchronization };

    ghost fits = { Prim.search rules };
}

#[derive(Clone, Copy)]
pub struct Dummy;

impl Layout for Dummy {
    ghost burst_row = { λ it. row_of dummy };

    ghost SIZE = { 148 };

    ghost ROOM = { 0 };

    const SIZE: usize = 148;

    const ROOM: usize = 0;

    // The 136 mixed bits that are printed, in three words, and 101010.
    #[tactic(auto, unfolding(crate::proofs::Standard::rows))]
    fn fields(&self) -> &[Field] {
        &[
            TAIL,
            Field::Fixed {
                width: 64,
                word: 0xFB760A4E09101F1C,
            },
            Field::Fixed {
                width: 64,
                word: 0x5C5C574A3339E9F1,
            },
            Field::Fixed {
                width: 8,
                word: 0x2F,
            },
            Field::Fixed {
                width: 6,
                word: 0b101010,
            },
            TAIL,
        ]
    }

    ghost sizes = { λ it. all_sizes.dummy };

    ghost fits = { Prim.search rules };
}

#[derive(Clone, Copy)]
pub struct Access;

impl Layout for Access {
    ghost burst_row = { λ it. row_of access };

    ghost SIZE = { 88 };

    ghost ROOM = { 36 };

    const SIZE: usize = 88;

    const ROOM: usize = 36;

    #[tactic(auto, unfolding(crate::proofs::Standard::rows))]
    fn fields(&self) -> &[Field] {
        &[
            Field::Fixed {
                width: 8,
                word: 0b00111010,
            },
            Field::Fixed {
                width: 40,
                word: 0x4B7F99AA3C,
            },
            Field::Fixed { width: 1, word: 0 },
            Field::Room { width: 36 },
            TAIL,
        ]
    }

    ghost sizes = { λ it. all_sizes.access };

    ghost fits = { Prim.search rules };
}
