// The bursts: the C functions, each handed on (lib.rt says why).
ghost use Rattle.layouts.specs.Bursts.{build_normal_of, take_normal_of, build_synchronization_of, take_synchronization_of, build_access_of, take_access_of, build_frequency_correction_of, build_dummy_of};
ghost use Rattle.tdma.specs.Buffers.{Wrote};

use c_answers::TdmaAnswer;

// A normal burst with this training sequence code and payload.
#[unsafe(no_mangle)]
pub extern "C" fn tdma_build_normal(tsc: u32, payload: &[u8], burst: &mut [u8]) -> TdmaAnswer
    ensures { Wrote result burst.new (build_normal_of tsc payload.now burst.old) }
{
    tdma::buffers::tdma_build_normal(tsc, payload, burst)
}

// The payload of a normal burst with this training sequence code.
#[unsafe(no_mangle)]
pub extern "C" fn tdma_take_normal(tsc: u32, burst: &[u8], payload: &mut [u8]) -> TdmaAnswer
    ensures { Wrote result payload.new (take_normal_of tsc burst.now payload.old) }
{
    tdma::buffers::tdma_take_normal(tsc, burst, payload)
}

#[unsafe(no_mangle)]
pub extern "C" fn tdma_build_synchronization(payload: &[u8], burst: &mut [u8]) -> TdmaAnswer
    ensures { Wrote result burst.new (build_synchronization_of payload.now burst.old) }
{
    tdma::buffers::tdma_build_synchronization(payload, burst)
}

#[unsafe(no_mangle)]
pub extern "C" fn tdma_take_synchronization(burst: &[u8], payload: &mut [u8]) -> TdmaAnswer
    ensures { Wrote result payload.new (take_synchronization_of burst.now payload.old) }
{
    tdma::buffers::tdma_take_synchronization(burst, payload)
}

#[unsafe(no_mangle)]
pub extern "C" fn tdma_build_access(payload: &[u8], burst: &mut [u8]) -> TdmaAnswer
    ensures { Wrote result burst.new (build_access_of payload.now burst.old) }
{
    tdma::buffers::tdma_build_access(payload, burst)
}

#[unsafe(no_mangle)]
pub extern "C" fn tdma_take_access(burst: &[u8], payload: &mut [u8]) -> TdmaAnswer
    ensures { Wrote result payload.new (take_access_of burst.now payload.old) }
{
    tdma::buffers::tdma_take_access(burst, payload)
}

#[unsafe(no_mangle)]
pub extern "C" fn tdma_build_frequency_correction(burst: &mut [u8]) -> TdmaAnswer
    ensures { Wrote result burst.new (build_frequency_correction_of burst.old) }
{
    tdma::buffers::tdma_build_frequency_correction(burst)
}

#[unsafe(no_mangle)]
pub extern "C" fn tdma_build_dummy(burst: &mut [u8]) -> TdmaAnswer
    ensures { Wrote result burst.new (build_dummy_of burst.old) }
{
    tdma::buffers::tdma_build_dummy(burst)
}
