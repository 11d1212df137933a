// A refusal's line.
ghost use Rattle.std.specs.Prelude.{◌+◌, ◌≤◌, length, ◌++◌};
ghost use Rattle.common.specs.Store.{Room, Puts};
ghost use Rattle.print_line.specs.Lines.{spaced, slice_name, words_of, where_of, refusal_line};

use crate::numbers;
use common::part;
use common::refusal::{Refusal, Slice};

// Stores the text w, and a space.
fn put_text(d: &mut [u8], at: usize, w: &[u8]) -> usize
    requires { Room d.old at (spaced w.now) }
    ensures { Puts d.old d.new at (spaced w.now) result }
{
    let next = part::put_part(d, at, w, 0, w.len());
    numbers::put_byte(d, next, b' ')
}

// Stores the name of a slice.
fn put_slice(d: &mut [u8], at: usize, z: Slice) -> usize
    requires { Room d.old at (spaced (slice_name z)) }
    ensures { Puts d.old d.new at (spaced (slice_name z)) result }
{
    match z {
        Slice::Statistics => put_text(d, at, b"statistics"),
        Slice::Scylla => put_text(d, at, b"scylla"),
        Slice::Data => put_text(d, at, b"data"),
        Slice::Schema => put_text(d, at, b"schema"),
        Slice::Records => put_text(d, at, b"records"),
        Slice::Bytes => put_text(d, at, b"bytes"),
        Slice::Output => put_text(d, at, b"output"),
        Slice::Bases => put_text(d, at, b"bases"),
        Slice::State => put_text(d, at, b"state"),
    }
}

// The word and the fault's number.
fn put_words(d: &mut [u8], at: usize, n: u64) -> usize
    requires { Room d.old at (words_of n) }
    ensures { Puts d.old d.new at (words_of n) result }
{
    let next = put_text(d, at, b"refused");
    numbers::put_field(d, next, n)
}

// The slice and the place.
fn put_where(d: &mut [u8], at: usize, z: Slice, p: usize) -> usize
    requires { Room d.old at (where_of z p) }
    ensures { Puts d.old d.new at (where_of z p) result }
{
    let next = put_slice(d, at, z);
    numbers::put_last(d, next, p as u64)
}

// Stores a refusal's line at at: the place after it.
// Internal: for a page that has room for the longest line.
pub fn put_refusal(d: &mut [u8], at: usize, r: Refusal) -> usize
    requires { at + 252 ≤ length d.old }
    ensures puts { Puts d.old d.new at (refusal_line r.fault r.slice r.place) result }
    ensures upper_bound { result ≤ at + 252 }
{
    let fault = r.fault;
    let slice = r.slice;
    let next = put_words(d, at, u8::from(fault) as u64);
    put_where(d, next, slice, r.place)
}
