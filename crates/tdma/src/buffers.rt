// The bursts, one bit to a byte, in buffers that the caller lends. Each function is the C function of its name, one for each burst, as the header has
// them.
ghost use Rattle.layouts.specs.Bursts.{build_normal_of, take_normal_of, build_synchronization_of, take_synchronization_of, build_access_of, take_access_of, build_frequency_correction_of, build_dummy_of};
ghost use Rattle.tdma.specs.Buffers.{Wrote};

use bursts::{
    Access, Dummy, FrequencyCorrection, Synchronization, build, build_normal, take, take_normal,
};
use c_answers::TdmaAnswer;

// A normal burst with this training sequence code and payload.
pub fn tdma_build_normal(tsc: u32, payload: &[u8], burst: &mut [u8]) -> TdmaAnswer
    ensures { Wrote result burst.new (build_normal_of tsc payload.now burst.old) }
{
    TdmaAnswer::from(build_normal(tsc, payload, burst))
}

// The payload of a normal burst with this training sequence code.
pub fn tdma_take_normal(tsc: u32, burst: &[u8], payload: &mut [u8]) -> TdmaAnswer
    ensures { Wrote result payload.new (take_normal_of tsc burst.now payload.old) }
{
    TdmaAnswer::from(take_normal(tsc, burst, payload))
}

pub fn tdma_build_synchronization(payload: &[u8], burst: &mut [u8]) -> TdmaAnswer
    ensures { Wrote result burst.new (build_synchronization_of payload.now burst.old) }
{
    TdmaAnswer::from(build(Synchronization, payload, burst))
}

pub fn tdma_take_synchronization(burst: &[u8], payload: &mut [u8]) -> TdmaAnswer
    ensures { Wrote result payload.new (take_synchronization_of burst.now payload.old) }
{
    TdmaAnswer::from(take(Synchronization, burst, payload))
}

pub fn tdma_build_access(payload: &[u8], burst: &mut [u8]) -> TdmaAnswer
    ensures { Wrote result burst.new (build_access_of payload.now burst.old) }
{
    TdmaAnswer::from(build(Access, payload, burst))
}

pub fn tdma_take_access(burst: &[u8], payload: &mut [u8]) -> TdmaAnswer
    ensures { Wrote result payload.new (take_access_of burst.now payload.old) }
{
    TdmaAnswer::from(take(Access, burst, payload))
}

pub fn tdma_build_frequency_correction(burst: &mut [u8]) -> TdmaAnswer
    ensures { Wrote result burst.new (build_frequency_correction_of burst.old) }
{
    TdmaAnswer::from(build(FrequencyCorrection, &[], burst))
}

pub fn tdma_build_dummy(burst: &mut [u8]) -> TdmaAnswer
    ensures { Wrote result burst.new (build_dummy_of burst.old) }
{
    TdmaAnswer::from(build(Dummy, &[], burst))
}
