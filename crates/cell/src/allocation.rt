// The search for an ARFCN in a cell allocation.
ghost use Rattle.std.specs.Prelude.{◌≡◌};
ghost use Rattle.hops.specs.Allocation.{lists};

// Some entry of the list is the ARFCN.
pub(crate) fn lists(ca: &[u16], arfcn: u32) -> bool
    ensures { result ≡ lists ca.now arfcn }
{
    ca.iter().any(|entry| u32::from(*entry) == arfcn)
}
