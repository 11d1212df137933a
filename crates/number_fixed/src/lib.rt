// Fixed numbers: big-endian, of any width up to eight bytes.
#![tactic(auto)]

ghost use Rattle.std.specs.Prelude.{◌≡◌, ◌+◌, ◌*◌, ◌/◌, ◌%◌, ◌^◌, ◌≤◌, ◌<◌, length, get_or};
ghost use Rattle.common.specs.Got.{said};
ghost use Rattle.number_fixed.specs.BigEndian.{big_endian, bytes_of, swap_four, swap_eight, four_of, little_four, fixed_at};
ghost use Rattle.common.specs.Store.{Room, Puts, Stores};

use common::reading::Reading;
use common::refusal::Fault;

// The number spelled by acc and the n bytes from at on.
// Internal: of a varint and of a number of a width, which test that the bytes are there.
pub fn big_endian(s: &[u8], at: usize, n: usize, acc: u64) -> u64
    requires { (at + n ≤ length s.now) × ((acc + 1) * 256 ^ n ≤ 2 ^ 64) }
    ensures { result ≡ big_endian acc s.now at n }
{
    // The commonest widths are one load each; the loop is not compiled to one.
    if acc == 0 && n == 4 {
        return four_in(s, at);
    }
    if acc == 0 && n == 8 {
        return eight_in(s, at);
    }
    let mut v = acc;
    for i in 0..n {
        let b = s[at + i] as u64;
        v = v * 256 + b;
    }
    v
}

// The number of `width` bytes at at, before end.
// Internal: for the crates above.
pub fn read(s: &[u8], at: usize, end: usize, width: usize) -> Reading<u64>
    ensures { said result ≡ fixed_at width s.now at end }
{
    if 8 < width {
        return Err(Fault::OutOfRange.at(at));
    }
    if s.len() < end {
        return Err(Fault::PastEnd.at(at));
    }
    if end < at {
        return Err(Fault::PastEnd.at(at));
    }
    if end - at < width {
        return Err(Fault::PastEnd.at(at));
    }
    Ok((big_endian(s, at, width, 0), at + width))
}

// The four lowest bytes of x in the other order. Sums like these, written out, compile to one instruction; loops over bytes do not.
fn swapped_four(x: u64) -> u64
    ensures { result ≡ swap_four x }
{
    ((x % 256 * 256 + (x >> 8) % 256) * 256 + (x >> 16) % 256) * 256 + (x >> 24) % 256
}

// The eight bytes of x in the other order.
fn swapped(x: u64) -> u64
    ensures { result ≡ swap_eight x }
{
    swapped_four(x) * 4294967296 + swapped_four(x >> 32)
}

// The byte at at.
fn byte_at(s: &[u8], at: usize) -> u64
    requires { at < length s.now }
    ensures { (result ≡ get_or s.now at 0) × (result < 256) }
{
    let b = s[at];
    b as u64
}

// The four bytes at at, the first one lowest.
fn little_four(s: &[u8], at: usize) -> u64
    requires { at + 4 ≤ length s.now }
    ensures { result ≡ little_four s.now at }
{
    let a = byte_at(s, at);
    let b = byte_at(s, at + 1);
    let c = byte_at(s, at + 2);
    let d = byte_at(s, at + 3);
    a + b * 256 + c * 65536 + d * 16777216
}

// The number of the four bytes at at, by one load.
// Internal: for readers that have tested that the bytes are there.
pub fn four_in(s: &[u8], at: usize) -> u64
    requires { at + 4 ≤ length s.now }
    ensures { result ≡ big_endian 0 s.now at 4 }
{
    let x = little_four(s, at);
    swapped_four(x)
}

// The number of the eight bytes at at, by one load.
// Internal: for readers that have tested that the bytes are there.
pub fn eight_in(s: &[u8], at: usize) -> u64
    requires { at + 8 ≤ length s.now }
    ensures { result ≡ big_endian 0 s.now at 8 }
{
    let low = little_four(s, at);
    let high = little_four(s, at + 4);
    swapped(low + high * 4294967296)
}

// The number of the k bytes at at, with zeros behind the end of s: near that end alone, so that a call may be slow.
fn padded(s: &[u8], at: usize, k: usize) -> u64
    requires { (at ≤ length s.now) × (k ≤ 8) }
    ensures { result ≡ big_endian 0 s.now at k }
{
    if k < 1 {
        return 0;
    }
    let high = padded(s, at, k - 1);
    if s.len() - at < k {
        return high * 256;
    }
    let b = byte_at(s, at + (k - 1));
    high * 256 + b
}

// The number of the eight bytes at at, with zeros behind the end of s.
// Internal: of a varint, which has tested that its first byte is there.
pub fn eight(s: &[u8], at: usize) -> u64
    requires { at ≤ length s.now }
    ensures { result ≡ big_endian 0 s.now at 8 }
{
    if s.len() - at < 8 {
        return padded(s, at, 8);
    }
    eight_in(s, at)
}

// Byte k of x, counted from the lowest.
fn byte_of(x: u64, k: usize) -> u8
    ensures { result ≡ x / 256 ^ k % 256 }
{
    if k < 8 {
        ((x >> (8 * k)) % 256) as u8
    } else {
        0
    }
}

// Stores the n lowest bytes of x at at, highest first, one by one: the place after them.
fn put_each(d: &mut [u8], at: usize, n: usize, x: u64) -> usize
    requires { Room d.old at (bytes_of x n) }
    ensures { Puts d.old d.new at (bytes_of x n) result }
{
    for i in 0..n {
        d[at + i] = byte_of(x, n - 1 - i);
    }
    at + n
}

// Stores the four lowest bytes of y at at, lowest first: the place after them.
fn put_low(d: &mut [u8], at: usize, y: u64) -> usize
    requires { Room d.old at (four_of y) }
    ensures { Puts d.old d.new at (four_of y) result }
{
    d[at] = (y % 256) as u8;
    d[at + 1] = ((y >> 8) % 256) as u8;
    d[at + 2] = ((y >> 16) % 256) as u8;
    d[at + 3] = ((y >> 24) % 256) as u8;
    at + 4
}

// Stores the eight lowest bytes of x at at, highest first: the place after them.
fn put_eight(d: &mut [u8], at: usize, x: u64) -> usize
    requires { Room d.old at (bytes_of x 8) }
    ensures { Puts d.old d.new at (bytes_of x 8) result }
{
    let y = swapped(x);
    let a = put_low(d, at, y);
    put_low(d, a, y >> 32)
}

// Stores the lowest byte of x at at: the place after it.
fn put_one(d: &mut [u8], at: usize, x: u64) -> usize
    requires { Room d.old at (bytes_of x 1) }
    ensures { Puts d.old d.new at (bytes_of x 1) result }
{
    d[at] = (x % 256) as u8;
    at + 1
}

// Stores the n lowest bytes of x at at, highest first: the place after them.
// Internal: for writers that have measured before they store.
pub fn put_in(d: &mut [u8], at: usize, n: usize, x: u64) -> usize
    requires { Room d.old at (bytes_of x n) }
    ensures { Puts d.old d.new at (bytes_of x n) result }
{
    if n == 8 {
        return put_eight(d, at, x);
    }
    if n == 4 {
        return put_low(d, at, swapped_four(x));
    }
    if n == 1 {
        return put_one(d, at, x);
    }
    put_each(d, at, n, x)
}

// Stores the n lowest bytes of x at at, highest first, where they fit: the place after them. None: nothing is stored.
pub fn put(d: &mut [u8], at: usize, n: usize, x: u64) -> Option<usize>
    ensures { Stores d.old d.new at (bytes_of x n) result }
{
    if d.len() < at {
        return None;
    }
    if d.len() - at < n {
        return None;
    }
    Some(put_in(d, at, n, x))
}
