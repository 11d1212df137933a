// The columns of the header, and the schema records that they give. The records are made in a buffer of the reader's own, where the
// names that were read are found again; so whatever is refused, the caller's buffer is as it was.
ghost use Rattle.std.specs.Prelude.{◌≡◌, ◌+◌, ◌*◌, ◌≤◌, length};
ghost use Rattle.common.specs.Got.{said};
ghost use Rattle.common.specs.Store.{Room, Puts, shown};
ghost use Rattle.stats_file.specs.Header.{column, count_at, typed_at, is_named, name_at, named_at, column_at, columns_at, group_at, groups_at, head_of, place_of, tail_of, record_of};
ghost use Rattle.stats_file.specs.Buffer.{columns_from, Kept, Adds, Fills, FillsGroup, FillsGroups};
ghost use Rattle.schema_check.specs.Records.{most_of};
ghost use Rattle.schema_column.specs.Columns.{name_of};
ghost use Rattle.text.specs.Text.{same};

use common::part;
use common::reading::{Bad, Reading};
use common::refusal::Fault;
use schema_column::Column;
use type_string::Kind;

// Where a name stands.
#[derive(Clone, Copy)]
pub struct Name {
    pub start: usize,
    pub len: usize,
}

// How many clustering, static and regular columns there are.
#[derive(Clone, Copy)]
pub struct Sizes {
    pub clustering: u64,
    pub statics: u64,
    pub regulars: u64,
}

// The most columns of a role that has a count.
fn most_of(role: u8) -> u64
    ensures { result ≡ most_of role }
{
    if role == 0 {
        return 1;
    }
    if role == 1 {
        return 32;
    }
    63
}

// A count of columns of the role.
fn count(s: &[u8], at: usize, end: usize, role: u8) -> Reading<u64>
    ensures { said result ≡ count_at role s.now at end }
{
    let (value, next) = number_varint::read(s, at, end)?;
    if most_of(role) < value {
        return Err(Fault::TooMany.at(at));
    }
    Ok((value, next))
}

// Stores the first four bytes of a column's record.
fn put_head(d: &mut [u8], at: usize, c: Column) -> usize
    requires { Room d.old at (head_of c) }
    ensures { Puts d.old d.new at (head_of c) result }
{
    d[at] = c.role;
    d[at + 1] = c.line;
    d[at + 2] = c.reversed;
    d[at + 3] = c.width;
    at + 4
}

// Stores the name's place.
fn put_place(d: &mut [u8], at: usize, c: Column) -> usize
    requires { Room d.old at (place_of c) }
    ensures { Puts d.old d.new at (place_of c) result }
{
    let next = number_fixed::put_in(d, at, 4, c.name);
    number_fixed::put_in(d, next, 4, c.len)
}

// Stores what follows the first four bytes.
fn put_tail(d: &mut [u8], at: usize, c: Column) -> usize
    requires { Room d.old at (tail_of c) }
    ensures { Puts d.old d.new at (tail_of c) result }
{
    let next = put_place(d, at, c);
    number_fixed::put_in(d, next, 4, 0)
}

// Stores a column's record.
fn put_record(d: &mut [u8], at: usize, c: Column) -> usize
    requires { Room d.old at (record_of c) }
    ensures { Puts d.old d.new at (record_of c) result }
{
    let next = put_head(d, at, c);
    put_tail(d, next, c)
}

// A column of a role and type, whose name stands at a place.
fn column_of(role: u8, kind: Kind, name: usize, len: usize) -> Column
    ensures { result ≡ column role kind name len }
{
    Column {
        role,
        line: kind.line,
        reversed: kind.reversed,
        width: type_table::width(kind.line),
        name: name as u64,
        len: len as u64,
    }
}

// Whether the column whose record stands at at has the name of len bytes at start.
fn has_name(s: &[u8], d: &[u8], at: usize, start: usize, len: usize) -> bool
    requires { at + 16 ≤ length d.now }
    ensures { result ≡ same (name_of s.now d.now at) (shown s.now start len) }
{
    let from = number_fixed::big_endian(d, at + 4, 4, 0);
    let size = number_fixed::big_endian(d, at + 8, 4, 0);
    text::equal(
        part::shown_in(s, from as usize, size as usize),
        part::shown_in(s, start, len),
    )
}

// Whether one of the k columns that d holds has the name of len bytes at start.
fn is_named(s: &[u8], d: &[u8], k: usize, start: usize, len: usize) -> bool
    requires { 16 * k ≤ length d.now }
    ensures { result ≡ is_named s.now (shown s.now start len) (columns_from d.now 0 k) }
{
    for i in 0..k {
        let at = 16 * i;
        if 2 <= d[at] && has_name(s, d, at, start, len) {
            return true;
        }
    }
    false
}

// The next name, behind the k columns that d holds.
fn read_name(s: &[u8], at: usize, end: usize, d: &[u8], k: usize) -> Reading<Name>
    requires { 16 * k ≤ length d.now }
    ensures { said result ≡ name_at (columns_from d.now 0 k) s.now at end }
{
    let (value, start) = number_varint::read(s, at, end)?;
    if ((end - start) as u64) < value {
        return Err(Fault::PastEnd.at(at));
    }
    let len = value as usize;
    if is_named(s, d, k, start, len) {
        return Err(Fault::Repeated.at(start));
    }
    Ok((Name { start, len }, start + len))
}

// The next key or clustering column.
fn read_typed(s: &[u8], at: usize, end: usize, role: u8) -> Reading<Column>
    ensures { said result ≡ typed_at role s.now at end }
{
    let (kind, next) = type_string::read(s, at, end, false)?;
    Ok((column_of(role, kind, 0, 0), next))
}

// The next static or regular column, behind the k columns that d holds.
fn read_named(s: &[u8], at: usize, end: usize, d: &[u8], k: usize, role: u8) -> Reading<Column>
    requires { 16 * k ≤ length d.now }
    ensures { said result ≡ named_at role (columns_from d.now 0 k) s.now at end }
{
    let (name, next) = read_name(s, at, end, d, k)?;
    let (kind, next) = type_string::read(s, next, end, true)?;
    Ok((column_of(role, kind, name.start, name.len), next))
}

// The next column of the role, behind the k columns that d holds.
fn read_column(s: &[u8], at: usize, end: usize, d: &[u8], k: usize, role: u8) -> Reading<Column>
    requires { 16 * k ≤ length d.now }
    ensures { said result ≡ column_at role (columns_from d.now 0 k) s.now at end }
{
    if role < 2 {
        return read_typed(s, at, end, role);
    }
    read_named(s, at, end, d, k, role)
}

// Reads a column of the role behind the k that d holds, and stores its record; gives the place after it.
fn add_column(
    s: &[u8],
    at: usize,
    end: usize,
    d: &mut [u8],
    k: usize,
    role: u8,
) -> Result<usize, Bad>
    requires { Kept d.old k × (16 * (k + 1) ≤ length d.old) × (length s.now ≤ 1073741824) }
    ensures { Adds (column_at role (columns_from d.old 0 k) s.now at end) k d.old d.new result }
{
    let (column, next) = read_column(s, at, end, d, k, role)?;
    put_record(d, 16 * k, column);
    Ok(next)
}

// Reads n columns of the role behind the `first` that d holds, and stores their records; gives the place after them.
pub(crate) fn read_columns(
    s: &[u8],
    at: usize,
    end: usize,
    d: &mut [u8],
    first: usize,
    n: usize,
    role: u8,
) -> Result<usize, Bad>
    requires { Kept d.old first × (16 * (first + n) ≤ length d.old) × (length s.now ≤ 1073741824) }
    ensures { Fills (columns_at n role (columns_from d.old 0 first) s.now at end) (first + n) d.old d.new result }
{
    let mut p = at;
    for i in 0..n {
        p = add_column(s, p, end, d, first + i, role)?;
    }
    Ok(p)
}

// Reads a count and so many columns of the role behind the `first` that d holds.
pub(crate) fn read_group(
    s: &[u8],
    at: usize,
    end: usize,
    d: &mut [u8],
    first: usize,
    role: u8,
) -> Reading<u64>
    requires { Kept d.old first × (16 * (first + most_of role) ≤ length d.old) × (length s.now ≤ 1073741824) }
    ensures { FillsGroup (group_at role (columns_from d.old 0 first) s.now at end) first d.old d.new result }
{
    let (n, next) = count(s, at, end, role)?;
    let next = read_columns(s, next, end, d, first, n as usize, role)?;
    Ok((n, next))
}

// Reads the clustering, static and regular columns behind the key that d holds.
pub(crate) fn read_groups(s: &[u8], at: usize, end: usize, d: &mut [u8]) -> Reading<Sizes>
    requires { Kept d.old 1 × (length d.old ≡ 2544) × (length s.now ≤ 1073741824) }
    ensures { FillsGroups (groups_at (columns_from d.old 0 1) s.now at end) d.old d.new result }
{
    let (clustering, next) = read_group(s, at, end, d, 1, 1)?;
    let second = 1 + clustering as usize;
    let (statics, next) = read_group(s, next, end, d, second, 2)?;
    let third = second + statics as usize;
    let (regulars, next) = read_group(s, next, end, d, third, 3)?;
    Ok((
        Sizes {
            clustering,
            statics,
            regulars,
        },
        next,
    ))
}
