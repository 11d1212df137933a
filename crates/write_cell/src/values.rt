// Values: a length where the column has no fixed width, then the bytes; none for an empty one.
ghost use Rattle.std.specs.Prelude.{◌≡◌, ◌+◌, ◌≤◌, length};
ghost use Rattle.common.specs.Store.{Room, Puts, shown};
ghost use Rattle.write_form.specs.Cells.{length_bytes, field_bytes};
ghost use Rattle.write_form.specs.Clusterings.{clustering_bytes};
ghost use Rattle.write_cell.specs.Sizes.{field_size, value_size};

use common::part;

// The length before a value of n bytes.
fn length_len(width: u8, n: usize) -> u64
    ensures { (result ≡ length (length_bytes width n)) × (result ≤ 9) }
{
    if width == 255 {
        return number_varint::len(n as u64) as u64;
    }
    0
}

fn put_length(d: &mut [u8], at: usize, width: u8, n: usize) -> usize
    requires { Room d.old at (length_bytes width n) }
    ensures { Puts d.old d.new at (length_bytes width n) result }
{
    if width != 255 {
        return at;
    }
    number_varint::put_in(d, at, n as u64)
}

// How many bytes a value of len bytes has that is not empty.
pub(crate) fn field_len(width: u8, len: usize) -> u64
    requires { len ≤ 1073741824 }
    ensures { (result ≡ field_size width len) × (result ≤ 1073741833) }
{
    let before = length_len(width, len);
    before + len as u64
}

// Stores a value that is not empty.
pub(crate) fn put_field(
    d: &mut [u8],
    at: usize,
    width: u8,
    bytes: &[u8],
    start: usize,
    len: usize,
) -> usize
    requires { (start + len ≤ length bytes.now) × Room d.old at (field_bytes width (shown bytes.now start len)) }
    ensures { Puts d.old d.new at (field_bytes width (shown bytes.now start len)) result }
{
    let p = put_length(d, at, width, len);
    part::put_part(d, p, bytes, start, len)
}

// How many bytes a clustering value of len bytes has in the writer's form.
// Internal: for the writer, whose values lie in a slice of at most 2^30 bytes.
pub fn value_len(width: u8, len: usize) -> u64
    requires { len ≤ 1073741824 }
    ensures { (result ≡ value_size width len) × (result ≤ 1073741833) }
{
    if len == 0 {
        return 0;
    }
    field_len(width, len)
}

// Stores the clustering value of len bytes at start of bytes: the place after it.
// Internal: for writers that have measured before they store.
pub fn put_value(
    d: &mut [u8],
    at: usize,
    width: u8,
    bytes: &[u8],
    start: usize,
    len: usize,
) -> usize
    requires { (start + len ≤ length bytes.now) × Room d.old at (clustering_bytes width (shown bytes.now start len)) }
    ensures { Puts d.old d.new at (clustering_bytes width (shown bytes.now start len)) result }
{
    if len == 0 {
        return at;
    }
    put_field(d, at, width, bytes, start, len)
}
