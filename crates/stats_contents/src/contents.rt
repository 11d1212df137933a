// The contents of Statistics: which entries there are, and where.
ghost use Rattle.std.specs.Prelude.{◌≡◌, Bool, ◌+◌, ◌*◌, ◌≤◌, length};
ghost use Rattle.common.specs.Got.{said};
ghost use Rattle.stats_contents.specs.Contents.{none, offset_of, with_entry, used, entry_type_at, offset_at, pairs_at, count_at, contents_at, nearer, end_of};

use common::reading::Reading;
use common::refusal::Fault;

// The offset of each entry, 0 where it is absent.
#[derive(Clone, Copy)]
pub struct Contents {
    pub validation: usize,
    pub compaction: usize,
    pub statistics: usize,
    pub header: usize,
}

// The offset of the entry of type t.
fn offset_of(t: u64, c: Contents) -> usize
    ensures { result ≡ offset_of t c }
{
    if t == 0 {
        return c.validation;
    }
    if t == 1 {
        return c.compaction;
    }
    if t == 2 {
        return c.statistics;
    }
    c.header
}

// c with the offset o for the entry of type t.
fn with_entry(t: u64, o: usize, c: Contents) -> Contents
    ensures { result ≡ with_entry t o c }
{
    if t == 0 {
        return Contents { validation: o, ..c };
    }
    if t == 1 {
        return Contents { compaction: o, ..c };
    }
    if t == 2 {
        return Contents { statistics: o, ..c };
    }
    Contents { header: o, ..c }
}

// Whether an entry has the offset o.
fn is_used(o: usize, c: Contents) -> bool
    ensures { result ≡ used o c }
{
    if c.validation == o {
        return true;
    }
    if c.compaction == o {
        return true;
    }
    if c.statistics == o {
        return true;
    }
    c.header == o
}

// The type of the next entry, behind those in c.
fn entry_type(s: &[u8], at: usize, end: usize, c: Contents) -> Reading<u64>
    ensures { said result ≡ entry_type_at c s.now at end }
{
    let (value, next) = number_fixed::read(s, at, end, 4)?;
    if 3 < value {
        return Err(Fault::NotCarried.at(at));
    }
    if offset_of(value, c) == 0 {
        return Ok((value, next));
    }
    Err(Fault::Repeated.at(at))
}

// The offset of the next entry, behind those in c, where the contents end at start.
fn entry_offset(s: &[u8], at: usize, end: usize, c: Contents, start: usize) -> Reading<u64>
    ensures { said result ≡ offset_at c start s.now at end }
{
    let (value, next) = number_fixed::read(s, at, end, 4)?;
    if 2147483647 < value {
        return Err(Fault::OutOfRange.at(at));
    }
    let offset = value as usize;
    if end < offset {
        return Err(Fault::PastEnd.at(at));
    }
    if offset < start {
        return Err(Fault::OutOfRange.at(at));
    }
    if is_used(offset, c) {
        return Err(Fault::Repeated.at(at));
    }
    Ok((value, next))
}

// How many pairs there are.
fn count(s: &[u8], at: usize, end: usize) -> Reading<u64>
    ensures { said result ≡ count_at s.now at end }
{
    let (value, next) = number_fixed::read(s, at, end, 4)?;
    if 2147483647 < value {
        return Err(Fault::OutOfRange.at(at));
    }
    if 4 < value {
        return Err(Fault::TooMany.at(at));
    }
    Ok((value, next))
}

// The pairs: n of them, at most 4.
fn pairs(s: &[u8], at: usize, end: usize, n: u64) -> Reading<Contents>
    requires { n ≤ 4 }
    ensures { said result ≡ pairs_at n none (4 + 8 * n) s.now at end }
{
    let mut c = Contents {
        validation: 0,
        compaction: 0,
        statistics: 0,
        header: 0,
    };
    let mut p = at;
    let start = 4 + 8 * (n as usize);
    for _ in 0..n {
        let (entry, next) = entry_type(s, p, end, c)?;
        let (offset, next) = entry_offset(s, next, end, c, start)?;
        c = with_entry(entry, offset as usize, c);
        p = next;
    }
    Ok((c, p))
}

// The contents of the file s: the entries 0 and 3 are present.
// Internal: for the crates above.
pub fn read(s: &[u8], at: usize, end: usize) -> Reading<Contents>
    ensures { said result ≡ contents_at s.now at end }
{
    let (n, next) = count(s, at, end)?;
    let (contents, next) = pairs(s, next, end, n)?;
    if contents.validation == 0 {
        return Err(Fault::NotCarried.at(0));
    }
    if contents.header == 0 {
        return Err(Fault::NotCarried.at(0));
    }
    Ok((contents, next))
}

// x where it lies behind o and before best, else best.
fn nearer_of(o: usize, x: usize, best: usize) -> usize
    ensures { result ≡ nearer o x best }
{
    if o < x {
        if x < best {
            return x;
        }
    }
    best
}

// Where the entry at offset o ends, in a file of `size` bytes.
// Internal: for the crates above.
pub fn end_of(o: usize, c: Contents, size: usize) -> usize
    ensures { result ≡ end_of o c size }
{
    let a = nearer_of(o, c.validation, size);
    let b = nearer_of(o, c.compaction, a);
    let d = nearer_of(o, c.statistics, b);
    nearer_of(o, c.header, d)
}
