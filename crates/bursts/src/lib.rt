// The five bursts, one bit to a byte: document 01, "Bursts (5.2)". layout.rt has their layouts, fields.rt builds and takes apart a row of
// fields, field.rt one field.
#![tactic(auto)]

mod field;
mod fields;
mod layout;

ghost use Rattle.std.specs.Prelude.{◌≡◌};
ghost use Rattle.answers.specs.Outcome.{any_of};
ghost use Rattle.layouts.specs.Bursts.{wrote, malformed, build_of, take_of, build_normal_of, take_normal_of};

use answers::Refusal;
pub use field::Field;
use fields::{byte_above_one, filled, first_wrong, gather};
pub use layout::{
    Access, Dummy, FrequencyCorrection, Layout, Normal, Synchronization, WithPayload,
};

// A burst or a payload of wrong length, or a byte above 1 in the one that is read.
fn malformed<L: Layout>(layout: L, burst: &[u8], payload: &[u8], read: &[u8]) -> bool
    ensures { result ≡ any_of (malformed (L.burst_row layout) burst.now payload.now read.now).conditions }
{
    burst.len() != L::SIZE || payload.len() != L::ROOM || byte_above_one(read)
}

// Writes the burst of this layout with this payload.
pub fn build<L: Layout>(layout: L, payload: &[u8], burst: &mut [u8]) -> Result<(), Refusal>
    ensures { wrote result burst.new ≡ build_of (L.burst_row layout) payload.now burst.old }
{
    if malformed(layout, burst, payload, payload) {
        return Err(Refusal::Malformed);
    }
    let bits = filled(layout.fields(), payload);
    burst.copy_from_slice(&bits[..L::SIZE]);
    Ok(())
}

// Writes the payload of a burst of this layout. Nothing is written before the whole burst is found right.
pub fn take<L: WithPayload>(layout: L, burst: &[u8], payload: &mut [u8]) -> Result<(), Refusal>
    ensures { wrote result payload.new ≡ take_of (L.burst_row layout) burst.now payload.old }
{
    if malformed(layout, burst, payload, burst) {
        return Err(Refusal::Malformed);
    }
    let fields = layout.fields();
    if let Some(bit) = first_wrong(fields, burst) {
        return Err(Refusal::FixedBit { bit: bit as u32 });
    }
    gather(fields, burst, payload);
    Ok(())
}

// Writes a normal burst with this training sequence code, which is refused before all else, and this payload.
#[tactic(auto, using(layouts::proofs::NormalCalls::normal_calls))]
pub fn build_normal(tsc: u32, payload: &[u8], burst: &mut [u8]) -> Result<(), Refusal>
    ensures { wrote result burst.new ≡ build_normal_of tsc payload.now burst.old }
{
    build(Normal::new(tsc)?, payload, burst)
}

// Writes the payload of a normal burst with this training sequence code, which is refused before all else.
#[tactic(auto, using(layouts::proofs::NormalCalls::normal_calls))]
pub fn take_normal(tsc: u32, burst: &[u8], payload: &mut [u8]) -> Result<(), Refusal>
    ensures { wrote result payload.new ≡ take_normal_of tsc burst.now payload.old }
{
    take(Normal::new(tsc)?, burst, payload)
}
