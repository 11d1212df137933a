// One byte, and what a number lies above its base.
ghost use Rattle.std.specs.Prelude.{◌≡◌, ◌-◌, ◌≤◌, [], ◌∷◌, length};
ghost use Rattle.number_varint.specs.Varints.{shortest};
ghost use Rattle.common.specs.Store.{Room, Puts};

// Stores a byte at at: the place after it.
// Internal: for writers that have measured before they store.
pub fn put_byte(d: &mut [u8], at: usize, x: u8) -> usize
    requires { Room d.old at (x ∷ []) }
    ensures { Puts d.old d.new at (x ∷ []) result }
{
    d[at] = x;
    at + 1
}

// How far x lies above base, 0 where it lies below.
fn above(base: u64, x: u64) -> u64
    ensures { result ≡ x - base }
{
    if x < base {
        return 0;
    }
    x - base
}

// The length of the shortest varint of what x lies above base.
// Internal: for the writer, whose numbers do not lie below their base.
pub fn delta_len(base: u64, x: u64) -> u64
    ensures { (result ≡ length (shortest (x - base))) × (result ≤ 9) }
{
    number_varint::len(above(base, x)) as u64
}

// Stores the shortest varint of what x lies above base: the place after it.
// Internal: for writers that have measured before they store.
pub fn put_delta(d: &mut [u8], at: usize, base: u64, x: u64) -> usize
    requires { Room d.old at (shortest (x - base)) }
    ensures { Puts d.old d.new at (shortest (x - base)) result }
{
    number_varint::put_in(d, at, above(base, x))
}
