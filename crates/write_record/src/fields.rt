// The bytes of a record that are not used, and which of its numbers are.
ghost use Rattle.std.specs.Prelude.{◌≡◌, ◌+◌, ◌≤◌, length};
ghost use Rattle.write_accept.specs.Fields.{stray_bytes, has_time, has_expiry, has_local, has_mark, has_second, has_column, stray, stray_first, stray_last, stray_numbers};
ghost use Rattle.write_record.specs.Records.{stray_record};

use data_items::Item;

// A byte as a number.
pub(crate) fn wide(b: u8) -> u64
    ensures { result ≡ b }
{
    b as u64
}

// Whether a byte that no record uses is not 0.
fn is_stray_bytes(s: &[u8], at: usize) -> bool
    requires { at + 64 ≤ length s.now }
    ensures { result ≡ stray_bytes s.now at }
{
    if 0 < wide(s[at + 3]) {
        return true;
    }
    0 < number_fixed::four_in(s, at + 44)
}

// Whether a record uses its timestamp.
pub(crate) fn has_time(i: Item) -> bool
    ensures { result ≡ has_time i }
{
    i.flags % 2 == 1
}

// Whether a record uses its TTL and expiry.
pub(crate) fn has_expiry(i: Item) -> bool
    ensures { result ≡ has_expiry i }
{
    i.flags / 2 % 2 == 1
}

// Whether a record uses its local time.
pub(crate) fn has_local(i: Item) -> bool
    ensures { result ≡ has_local i }
{
    i.flags / 4 % 2 == 1
}

// Whether a record uses its mark.
pub(crate) fn has_mark(i: Item) -> bool
    ensures { result ≡ has_mark i }
{
    if i.kind == 6 {
        return false;
    }
    has_local(i)
}

// Whether a record uses its second mark and local time.
pub(crate) fn has_second(i: Item) -> bool
    ensures { result ≡ has_second i }
{
    if i.kind == 4 {
        return data_turns::is_boundary(i.column);
    }
    false
}

// Whether a record uses its column.
fn has_column(i: Item) -> bool
    ensures { result ≡ has_column i }
{
    if i.kind < 4 {
        return false;
    }
    i.kind < 7
}

// Whether a number that is not used is not the number `none`.
fn is_stray(used: bool, none: u64, v: u64) -> bool
    ensures { result ≡ stray used none v }
{
    if used {
        return false;
    }
    if v == none {
        return false;
    }
    true
}

// Whether one of a record's first numbers is stray.
fn is_stray_first(i: Item) -> bool
    ensures { result ≡ stray_first i }
{
    if is_stray(has_column(i), 0, i.column) {
        return true;
    }
    if is_stray(has_expiry(i), 0, i.ttl) {
        return true;
    }
    if is_stray(has_time(i), 9223372036854775808, i.timestamp) {
        return true;
    }
    is_stray(has_mark(i), 9223372036854775808, i.mark)
}

// Whether one of the others is.
fn is_stray_last(i: Item) -> bool
    ensures { result ≡ stray_last i }
{
    if is_stray(has_local(i), 0, i.local) {
        return true;
    }
    if is_stray(has_expiry(i), 0, i.expiry) {
        return true;
    }
    if is_stray(has_second(i), 9223372036854775808, i.mark2) {
        return true;
    }
    is_stray(has_second(i), 0, i.local2)
}

// Whether a number that is not used is not zero.
fn is_stray_numbers(i: Item) -> bool
    ensures { result ≡ stray_numbers i }
{
    if is_stray_first(i) {
        return true;
    }
    is_stray_last(i)
}

// Whether what the record at at does not use is not zero; i are its numbers.
pub(crate) fn is_stray_record(s: &[u8], at: usize, i: Item) -> bool
    requires { at + 64 ≤ length s.now }
    ensures { result ≡ stray_record s.now at i }
{
    if is_stray_bytes(s, at) {
        return true;
    }
    is_stray_numbers(i)
}
