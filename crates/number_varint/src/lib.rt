// Varints.
#![tactic(auto)]

ghost use Rattle.std.specs.Prelude.{◌≡◌, ◌+◌, ◌-◌, ◌/◌, ◌^◌, length};
ghost use Rattle.common.specs.Got.{got, Took, said};
ghost use Rattle.number_varint.specs.Varints.{leading, varint_at, extra, shortest};
ghost use Rattle.common.specs.Store.{Room, Puts, Stores};

use common::reading::Reading;
use common::refusal::Fault;

// How many one bits lead b.
fn ones(b: u8) -> usize
    ensures { result ≡ leading 8 b }
{
    u8::leading_zeros(255 - b) as usize
}

// The varint at at, before end, where it is known that one stands there: nothing is tested again.
// Internal: for code that has read it before.
pub fn known(s: &[u8], at: usize, end: usize) -> (u64, usize)
    requires { Took (varint_at s.now at end) }
    ensures { got result.0 result.1 ≡ varint_at s.now at end }
{
    let b = s[at];
    // Most varints of a table have one byte.
    if b < 128 {
        return (b as u64, at + 1);
    }
    let n = ones(b);
    // The eight bytes from the first on, or of nine the last; the marker goes out at the top, what follows the varint below.
    let w = number_fixed::eight(s, at + n / 8);
    ((w << (n % 8)) >> (56 - 7 * n), at + 1 + n)
}

// The varint at at, before end, of any form.
// Internal: for the crates above.
pub fn read(s: &[u8], at: usize, end: usize) -> Reading<u64>
    ensures { said result ≡ varint_at s.now at end }
{
    if s.len() < end {
        return Err(Fault::PastEnd.at(at));
    }
    if end <= at {
        return Err(Fault::PastEnd.at(at));
    }
    let b = s[at];
    if b < 128 {
        return Ok((b as u64, at + 1));
    }
    let n = ones(b);
    if end - at <= n {
        return Err(Fault::PastEnd.at(at));
    }
    Ok(known(s, at, end))
}

// How many bytes follow the first in the shortest varint of x: one for each seven bits behind the first seven, at most 8.
fn extra_bytes(x: u64) -> usize
    ensures { result ≡ extra 8 x }
{
    if x < 128 {
        return 0;
    }
    let zeros = u64::leading_zeros(x) as usize;
    8 - 9 * zeros / 64
}

// The length of the shortest varint of x.
// Internal: for the crates above.
pub fn len(x: u64) -> usize
    ensures { result ≡ length (shortest x) }
{
    extra_bytes(x) + 1
}

// The first byte of the shortest varint of x, which has n more.
fn first_byte(x: u64, n: usize) -> u8
    requires { n ≡ extra 8 x }
    ensures { result ≡ 256 - 2 ^ (8 - n) + x / 256 ^ n }
{
    if n < 8 {
        ((256u64 - (256u64 >> n)) + (x >> (8 * n))) as u8
    } else {
        255
    }
}

// Stores the shortest varint of x at at: the place after it.
// Internal: for writers that have measured before they store.
pub fn put_in(d: &mut [u8], at: usize, x: u64) -> usize
    requires { Room d.old at (shortest x) }
    ensures { Puts d.old d.new at (shortest x) result }
{
    let n = extra_bytes(x);
    d[at] = first_byte(x, n);
    number_fixed::put_in(d, at + 1, n, x)
}

// Stores the shortest varint of x at at, where it fits: the place after it. None: nothing is stored.
pub fn put(d: &mut [u8], at: usize, x: u64) -> Option<usize>
    ensures { Stores d.old d.new at (shortest x) result }
{
    if d.len() < at {
        return None;
    }
    if d.len() - at < len(x) {
        return None;
    }
    Some(put_in(d, at, x))
}
