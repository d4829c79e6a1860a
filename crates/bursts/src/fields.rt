// The fields of a layout, one after the other: a burst is built, compared and taken apart.
ghost use Rattle.std.specs.Prelude.{◌≡◌, ◌≤◌, length, take};
ghost use Rattle.layouts.specs.Rows.{room, built, taken};
ghost use Rattle.layouts.specs.Bursts.{byte_above_one};
ghost use Rattle.bursts.specs.Helpers.{fields_row, FirstWrong};

use crate::field::Field;

// The burst with this payload, and 0 after it.
#[tactic(auto, using(crate::proofs::Turns::length_from, crate::proofs::Turns::room_from))]
pub(crate) fn filled(fields: &[Field], payload: &[u8]) -> [u8; 148]
    requires { (length (fields_row fields.now) ≤ 148) × (room (fields_row fields.now) ≡ length payload.now) }
    ensures { take (length (fields_row fields.now)) result ≡ built (fields_row fields.now) payload.now }
{
    let mut burst = [0; 148];
    // Document 01 wants the burst filled in by ranges.
    let mut at = 0;
    let mut left = payload;
    for field in fields {
        let end = at + field.width();
        let (own, rest) = left.split_at(field.room());
        field.write(own, &mut burst[at..end]);
        at = end;
        left = rest;
    }
    burst
}

// The first bit number where a fixed bit differs.
#[tactic(auto, using(crate::proofs::Turns::length_from))]
pub(crate) fn first_wrong(fields: &[Field], burst: &[u8]) -> Option<usize>
    requires { length burst.now ≡ length (fields_row fields.now) }
    ensures { FirstWrong (fields_row fields.now) burst.now result }
{
    // The place is counted, since it is the answer: the lowest bit number that differs.
    let mut at = 0;
    let mut left = burst;
    for field in fields {
        let width = field.width();
        let (own, rest) = left.split_at(width);
        if let Some(k) = field.first_wrong(own) {
            return Some(at + k);
        }
        at += width;
        left = rest;
    }
    None
}

// The burst's payload.
#[tactic(auto, using(crate::proofs::Turns::length_from, crate::proofs::Turns::room_from))]
pub(crate) fn gather(fields: &[Field], burst: &[u8], payload: &mut [u8])
    requires { (length burst.now ≡ length (fields_row fields.now)) × (length payload.old ≡ room (fields_row fields.now)) }
    ensures { payload.new ≡ taken (fields_row fields.now) burst.now }
{
    // The place is counted, since `split_at_mut` was tried and its proof did not close: after the loop only the length is known.
    let mut at = 0;
    let mut left = burst;
    for field in fields {
        let end = at + field.room();
        let (own, rest) = left.split_at(field.width());
        field.read(own, &mut payload[at..end]);
        at = end;
        left = rest;
    }
}

// Some byte is above 1. All are looked at, with no branch on what they are.
pub(crate) fn byte_above_one(s: &[u8]) -> bool
    ensures { result ≡ byte_above_one s.now }
{
    s.iter().fold(false, |above, &b| above | (b > 1))
}
