// The ranges of a record's numbers.
ghost use Rattle.std.specs.Prelude.{◌≡◌, ◌+◌, ◌<◌, ◌^◌};
ghost use Rattle.common.specs.Got.{said};
ghost use Rattle.write_accept.specs.Records.{outside, ranges_at};
ghost use Rattle.write_record.specs.Records.{own_last_at, own_at, second_at};

use crate::fields;
use common::reading::Reading;
use common::refusal::Fault;
use common::times::Bases;
use data_items::Item;

// Whether a number that is used is out of range or below its base.
fn is_outside(used: bool, lo: u64, hi: u64, base: u64, v: u64) -> bool
    ensures { result ≡ outside used lo hi base v }
{
    if used {
        if v < base {
            return true;
        }
        if v < lo {
            return true;
        }
        return hi < v;
    }
    false
}

// The record at at, its own local times in range.
fn read_own_last(b: Bases, i: Item, at: usize) -> Reading<Item>
    requires { at + 64 < 2 ^ 64 }
    ensures { said result ≡ own_last_at b i at }
{
    if is_outside(fields::has_local(i), 0, 2147483646, b.local, i.local) {
        return Err(Fault::OutOfRange.at(at + 24));
    }
    if is_outside(fields::has_expiry(i), 0, 2147483646, b.local, i.expiry) {
        return Err(Fault::OutOfRange.at(at + 28));
    }
    Ok((i, at + 64))
}

// The record at at, its numbers in range but for a second mark and local time.
pub(crate) fn read_own(b: Bases, i: Item, at: usize) -> Reading<Item>
    requires { at + 64 < 2 ^ 64 }
    ensures { said result ≡ own_at b i at }
{
    if is_outside(fields::has_expiry(i), 1, 2147483647, b.ttl, i.ttl) {
        return Err(Fault::OutOfRange.at(at + 4));
    }
    if is_outside(
        fields::has_time(i),
        1,
        18446744073709551615,
        b.timestamp,
        i.timestamp,
    ) {
        return Err(Fault::OutOfRange.at(at + 8));
    }
    if is_outside(
        fields::has_mark(i),
        1,
        18446744073709551615,
        b.timestamp,
        i.mark,
    ) {
        return Err(Fault::OutOfRange.at(at + 16));
    }
    read_own_last(b, i, at)
}

// The record at at, its second mark and local time in range.
fn read_second(b: Bases, i: Item, at: usize) -> Reading<Item>
    requires { at + 64 < 2 ^ 64 }
    ensures { said result ≡ second_at b i at }
{
    let second = fields::has_second(i);
    if is_outside(second, 1, 18446744073709551615, b.timestamp, i.mark2) {
        return Err(Fault::OutOfRange.at(at + 32));
    }
    if is_outside(second, 0, 2147483646, b.local, i.local2) {
        return Err(Fault::OutOfRange.at(at + 40));
    }
    Ok((i, at + 64))
}

// The record at at, its numbers in range.
pub(crate) fn read_ranges(b: Bases, i: Item, at: usize) -> Reading<Item>
    requires { at + 64 < 2 ^ 64 }
    ensures { said result ≡ ranges_at b i at }
{
    let (item, _) = read_own(b, i, at)?;
    read_second(b, item, at)
}
