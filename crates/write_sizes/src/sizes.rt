// Body size and previous size of a row or marker, and the flags of a row.
ghost use Rattle.std.specs.Prelude.{◌≡◌, ◌+◌, ◌≤◌, [], ◌∷◌, length};
ghost use Rattle.number_varint.specs.Varints.{shortest};
ghost use Rattle.common.specs.Store.{Room, Puts};
ghost use Rattle.write_form.specs.Rows.{row_flags};
ghost use Rattle.write_row_parts.specs.Parts.{body_size, sizes_form, all_there};

use data_cell::cells::Times;
use data_field::fields::Deletion;
use write_number::numbers;

// The length of the shortest varint of x.
fn size_len(x: u64) -> u64
    ensures { (result ≡ length (shortest x)) × (result ≤ 9) }
{
    number_varint::len(x) as u64
}

// The body size where n bytes follow the sizes.
fn body_size(previous: u64, n: u64) -> u64
    requires { n ≤ 4611686018427387904 }
    ensures { result ≡ body_size previous n }
{
    let before = size_len(previous);
    before + n
}

// How many bytes both sizes have, where n bytes follow them.
// Internal: for the writer, which measures before it stores.
pub fn sizes_len(previous: u64, n: u64) -> u64
    requires { n ≤ 4611686018427387904 }
    ensures { (result ≡ length (sizes_form previous n)) × (result ≤ 18) }
{
    let size = body_size(previous, n);
    let first = size_len(size);
    let second = size_len(previous);
    first + second
}

fn put_body_size(d: &mut [u8], at: usize, previous: u64, n: u64) -> usize
    requires { (n ≤ 4611686018427387904) × Room d.old at (shortest (body_size previous n)) }
    ensures { Puts d.old d.new at (shortest (body_size previous n)) result }
{
    number_varint::put_in(d, at, body_size(previous, n))
}

// Stores both sizes, where n bytes follow them: the place after them.
// Internal: for writers that have measured before they store.
pub fn put_sizes(d: &mut [u8], at: usize, previous: u64, n: u64) -> usize
    requires { (n ≤ 4611686018427387904) × Room d.old at (sizes_form previous n) }
    ensures { Puts d.old d.new at (sizes_form previous n) result }
{
    let p = put_body_size(d, at, previous, n);
    number_varint::put_in(d, p, previous)
}

// 1 where no column is missing.
fn all_there(missing: u64) -> u8
    ensures { (result ≡ all_there missing) × (result ≤ 1) }
{
    if missing == 0 {
        return 1;
    }
    0
}

// The flags of a row; fixed is 1 for a static one.
fn row_flags(fixed: u8, times: Times, deletion: Deletion, missing: u64) -> u8
    requires { (fixed ≤ 1) × (times.timed ≤ 1) × (times.expires ≤ 1) × (deletion.deleted ≤ 1) }
    ensures { result ≡ row_flags fixed times deletion missing }
{
    let all = all_there(missing);
    4 * times.timed + 8 * times.expires + 16 * deletion.deleted + 32 * all + 128 * fixed
}

// Stores the flags of a row, fixed 1 for a static one: the place after them.
// Internal: for writers that have measured before they store.
pub fn put_flags(
    d: &mut [u8],
    at: usize,
    fixed: u8,
    times: Times,
    deletion: Deletion,
    missing: u64,
) -> usize
    requires { ((fixed ≤ 1) × (times.timed ≤ 1) × (times.expires ≤ 1) × (deletion.deleted ≤ 1)) × Room d.old at (row_flags fixed times deletion missing ∷ []) }
    ensures { Puts d.old d.new at (row_flags fixed times deletion missing ∷ []) result }
{
    numbers::put_byte(d, at, row_flags(fixed, times, deletion, missing))
}
