// A record's line.
ghost use Rattle.std.specs.Prelude.{◌+◌, ◌≤◌, length};
ghost use Rattle.common.specs.Store.{Room, Puts};
ghost use Rattle.print_line.specs.Lines.{stamps_of, times_of, second_of, place_of, rest_of, tail_of, more_of, line_of};

use crate::numbers;
use data_items::Item;

// No line is longer.
pub const LONGEST: usize = 252;

// Timestamp and mark.
fn put_stamps(d: &mut [u8], at: usize, i: Item) -> usize
    requires { Room d.old at (stamps_of i) }
    ensures { Puts d.old d.new at (stamps_of i) result }
{
    let next = numbers::put_signed_field(d, at, i.timestamp);
    numbers::put_signed_field(d, next, i.mark)
}

// Those, and the two local times.
fn put_times(d: &mut [u8], at: usize, i: Item) -> usize
    requires { Room d.old at (times_of i) }
    ensures { Puts d.old d.new at (times_of i) result }
{
    let next = put_stamps(d, at, i);
    numbers::put_pair(d, next, i.local, i.expiry)
}

// The second mark and local time.
fn put_second(d: &mut [u8], at: usize, i: Item) -> usize
    requires { Room d.old at (second_of i) }
    ensures { Puts d.old d.new at (second_of i) result }
{
    let next = numbers::put_signed_field(d, at, i.mark2);
    numbers::put_field(d, next, i.local2)
}

// Offset and length.
fn put_place(d: &mut [u8], at: usize, i: Item) -> usize
    requires { Room d.old at (place_of i) }
    ensures { Puts d.old d.new at (place_of i) result }
{
    let next = numbers::put_field(d, at, i.offset as u64);
    numbers::put_last(d, next, i.length as u64)
}

// From the second mark on.
fn put_rest(d: &mut [u8], at: usize, i: Item) -> usize
    requires { Room d.old at (rest_of i) }
    ensures { Puts d.old d.new at (rest_of i) result }
{
    let next = put_second(d, at, i);
    put_place(d, next, i)
}

// From the timestamp on.
fn put_tail(d: &mut [u8], at: usize, i: Item) -> usize
    requires { Room d.old at (tail_of i) }
    ensures { Puts d.old d.new at (tail_of i) result }
{
    let next = put_times(d, at, i);
    put_rest(d, next, i)
}

// From the column on.
fn put_more(d: &mut [u8], at: usize, i: Item) -> usize
    requires { Room d.old at (more_of i) }
    ensures { Puts d.old d.new at (more_of i) result }
{
    let next = numbers::put_pair(d, at, i.column, i.ttl);
    put_tail(d, next, i)
}

// Stores a record's line at at: the place after it.
// Internal: for a page that has room for the longest line.
pub fn put_line(d: &mut [u8], at: usize, i: Item) -> usize
    requires { at + 252 ≤ length d.old }
    ensures puts { Puts d.old d.new at (line_of i) result }
    ensures upper_bound { result ≤ at + 252 }
{
    let next = numbers::put_pair(d, at, i.kind, i.flags);
    put_more(d, next, i)
}
