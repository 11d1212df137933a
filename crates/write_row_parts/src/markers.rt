// Flags, kind, count and deletions of a marker.
ghost use Rattle.std.specs.Prelude.{◌≡◌, ◌≤◌, [], ◌∷◌, ◌++◌, length};
ghost use Rattle.number_fixed.specs.BigEndian.{bytes_of};
ghost use Rattle.common.specs.Store.{Room, Puts};
ghost use Rattle.write_form.specs.Markers.{deletions_bytes};
ghost use Rattle.write_row_parts.specs.Parts.{second_form, bound_form};

use crate::pairs;
use common::times::Bases;
use data_field::fields::Deletion;
use data_marker::markers::Deletions;
use write_number::numbers;

// The second deletion, which kinds 2 and 5 have.
fn second_len(b: Bases, kind: u64, second: Deletion) -> u64
    ensures { (result ≡ length (second_form b kind second)) × (result ≤ 18) }
{
    if data_turns::is_boundary(kind) {
        return pairs::deletion_len(b, second);
    }
    0
}

fn put_second(d: &mut [u8], at: usize, b: Bases, kind: u64, second: Deletion) -> usize
    requires { Room d.old at (second_form b kind second) }
    ensures { Puts d.old d.new at (second_form b kind second) result }
{
    if data_turns::is_boundary(kind) {
        return pairs::put_deletion(d, at, b, second);
    }
    at
}

// How many bytes the deletions of a marker have.
// Internal: for the writer, which measures before it stores.
pub fn deletions_len(b: Bases, kind: u64, deletions: Deletions) -> u64
    ensures { (result ≡ length (deletions_bytes b kind deletions)) × (result ≤ 36) }
{
    let first = pairs::deletion_len(b, deletions.first);
    let second = second_len(b, kind, deletions.second);
    first + second
}

// Stores the deletions of a marker: the place after them.
// Internal: for writers that have measured before they store.
pub fn put_deletions(d: &mut [u8], at: usize, b: Bases, kind: u64, deletions: Deletions) -> usize
    requires { Room d.old at (deletions_bytes b kind deletions) }
    ensures { Puts d.old d.new at (deletions_bytes b kind deletions) result }
{
    let p = pairs::put_deletion(d, at, b, deletions.first);
    put_second(d, p, b, kind, deletions.second)
}

fn put_kind(d: &mut [u8], at: usize, kind: u64, count: u64) -> usize
    requires { (kind ≤ 7) × Room d.old at ((kind ∷ []) ++ bytes_of count 2) }
    ensures { Puts d.old d.new at ((kind ∷ []) ++ bytes_of count 2) result }
{
    let p = numbers::put_byte(d, at, kind as u8);
    number_fixed::put_in(d, p, 2, count)
}

// Stores the flags of a marker, its kind and the count of its clustering values: the place after them.
// Internal: for writers that have measured before they store.
pub fn put_bound(d: &mut [u8], at: usize, kind: u64, count: u64) -> usize
    requires { (kind ≤ 7) × Room d.old at (bound_form kind count) }
    ensures { Puts d.old d.new at (bound_form kind count) result }
{
    let p = numbers::put_byte(d, at, 2);
    put_kind(d, p, kind, count)
}
