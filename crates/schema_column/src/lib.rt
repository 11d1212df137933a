// One column of a schema, when two schemas are equal, and which clustering types have an order.
#![tactic(auto)]

ghost use Rattle.std.specs.Prelude.{◌≡◌, ◌+◌, ◌≤◌, length};
ghost use Rattle.schema_column.specs.Columns.{column_at, column_of, name_of, same_column, same_schemas, unordered_of};

use common::part;

// A column as its record gives it.
#[derive(Clone, Copy)]
pub struct Column {
    pub role: u8,
    pub line: u8,
    pub reversed: u8,
    pub width: u8,
    pub name: u64,
    pub len: u64,
}

// The column whose record stands at at.
fn column_at(s: &[u8], at: usize) -> Column
    requires { at + 16 ≤ length s.now }
    ensures { result ≡ column_at s.now at }
{
    Column {
        role: s[at],
        line: s[at + 1],
        reversed: s[at + 2],
        width: s[at + 3],
        name: number_fixed::big_endian(s, at + 4, 4, 0),
        len: number_fixed::big_endian(s, at + 8, 4, 0),
    }
}

// Column i of a schema, from 0.
// Internal: for the crates above.
pub fn column_of(schema: &[u8], i: usize) -> Option<Column>
    ensures { result ≡ column_of schema.now i }
{
    if schema.len() / 16 <= i {
        return None;
    }
    Some(column_at(schema, 16 * i))
}

// The bytes of the name of the record at at, in the Statistics beside the schema.
fn name_of<'a, 'b>(statistics: &'a [u8], schema: &'b [u8], at: usize) -> &'a [u8]
    requires { at + 16 ≤ length schema.now }
    ensures { result.now ≡ name_of statistics.now schema.now at }
{
    let name = number_fixed::big_endian(schema, at + 4, 4, 0);
    let len = number_fixed::big_endian(schema, at + 8, 4, 0);
    part::shown_in(statistics, name as usize, len as usize)
}

// Whether the records at at are of equal columns; t and u are the Statistics beside a and b.
fn is_same_column(a: &[u8], t: &[u8], b: &[u8], u: &[u8], at: usize) -> bool
    requires { (at + 16 ≤ length a.now) × (at + 16 ≤ length b.now) }
    ensures { result ≡ same_column a.now t.now b.now u.now at }
{
    if a[at] == b[at] {
        if a[at + 1] == b[at + 1] {
            if a[at + 2] == b[at + 2] {
                return text::equal(name_of(t, a, at), name_of(u, b, at));
            }
            return false;
        }
        return false;
    }
    false
}

// Whether two schemas are equal; t and u are the Statistics in which the names of a and b stand.
pub fn is_same(a: &[u8], t: &[u8], b: &[u8], u: &[u8]) -> bool
    ensures { result ≡ same_schemas a.now t.now b.now u.now }
{
    if a.len() != b.len() {
        return false;
    }
    let n = a.len() / 16;
    for i in 0..n {
        if !is_same_column(a, t, b, u, 16 * i) {
            return false;
        }
    }
    true
}

// The place of the first clustering record whose type has no order.
// Internal: for the crates above.
pub fn first_unordered(schema: &[u8]) -> Option<usize>
    ensures { result ≡ unordered_of schema.now }
{
    let n = schema.len() / 16;
    for i in 0..n {
        let at = 16 * i;
        if schema[at] == 1 && !type_table::is_ordered(schema[at + 1]) {
            return Some(at);
        }
    }
    None
}
