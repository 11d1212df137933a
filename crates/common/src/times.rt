// Base times, and signed numbers as the library keeps them.
ghost use Rattle.std.specs.Prelude.{◌≡◌};
ghost use Rattle.common.specs.Times.{biased};

// What deltas in Data add to: the timestamp plus 2^63 (so that the numbers' order is the signed one's), the local deletion time, the TTL.
#[derive(Clone, Copy)]
pub struct Bases {
    pub timestamp: u64,
    pub local: u64,
    pub ttl: u64,
}

// The signed number of 64 bits, plus 2^63; and back.
// Internal: for the crates above.
pub fn biased_of(bits: u64) -> u64
    ensures { result ≡ biased bits }
{
    std::num::wrapping_add_u64(bits, 0x8000_0000_0000_0000)
}
