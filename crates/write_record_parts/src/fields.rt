// The numbers of a record.
ghost use Rattle.std.specs.Prelude.{◌≡◌, ◌+◌, ◌≤◌, ◌<◌, length, get_or};
ghost use Rattle.number_fixed.specs.BigEndian.{big_endian};
ghost use Rattle.write_accept.specs.Fields.{signed_at, item_of};

use common::times;
use data_items::Item;

// A byte as a number.
fn wide(b: u8) -> u64
    ensures { result ≡ b }
{
    b as u64
}

// The byte at at.
fn byte_at(s: &[u8], at: usize) -> u64
    requires { at < length s.now }
    ensures { result ≡ get_or s.now at 0 }
{
    wide(s[at])
}

// The number of four bytes at at.
pub(crate) fn word_at(s: &[u8], at: usize) -> u64
    requires { at + 4 ≤ length s.now }
    ensures { result ≡ big_endian 0 s.now at 4 }
{
    number_fixed::four_in(s, at)
}

// The number of eight bytes at at.
pub(crate) fn long_at(s: &[u8], at: usize) -> u64
    requires { at + 8 ≤ length s.now }
    ensures { result ≡ big_endian 0 s.now at 8 }
{
    number_fixed::eight_in(s, at)
}

// The timestamp or mark at at, plus 2^63.
pub(crate) fn signed_at(s: &[u8], at: usize) -> u64
    requires { at + 8 ≤ length s.now }
    ensures { result ≡ signed_at s.now at }
{
    times::biased_of(number_fixed::eight_in(s, at))
}

// The record at at.
// Internal: for the writer, which has checked that it is there.
pub fn read_item(s: &[u8], at: usize) -> Item
    requires { at + 64 ≤ length s.now }
    ensures { result ≡ item_of s.now at }
{
    let kind = byte_at(s, at);
    let flags = byte_at(s, at + 1);
    let column = byte_at(s, at + 2);
    let ttl = word_at(s, at + 4);
    let timestamp = signed_at(s, at + 8);
    let mark = signed_at(s, at + 16);
    let local = word_at(s, at + 24);
    let expiry = word_at(s, at + 28);
    let mark2 = signed_at(s, at + 32);
    let local2 = word_at(s, at + 40);
    let offset = long_at(s, at + 48) as usize;
    let length = long_at(s, at + 56) as usize;
    Item {
        kind,
        flags,
        column,
        ttl,
        timestamp,
        mark,
        local,
        expiry,
        mark2,
        local2,
        offset,
        length,
    }
}
