// All of a record table, checked and measured.
ghost use Rattle.std.specs.Prelude.{◌≡◌, ◌*◌, ◌≤◌, length};
ghost use Rattle.common.specs.Got.{said};
ghost use Rattle.data_field.specs.Fields.{live};
ghost use Rattle.call_check.specs.Tables.{Table};
ghost use Rattle.data_contents.specs.Contents.{widths_of};
ghost use Rattle.write_accept.specs.Entries.{taken_end, taken_entries, taken_at};
ghost use Rattle.write_measure.specs.Measured.{end_measured, entries_measured, contents_measured};

use crate::entries;
use common::reading::Reading;
use common::times::Bases;
use data_field::fields::Deletion;
use schema_check::records::Counts;
use write_record::records;
use write_record::tests::Turn;

// The end record at at, where the deletion of the open range is `opened`, with total bytes before.
fn measure_end(
    b: Bases,
    s: &[u8],
    bytes: &[u8],
    opened: Deletion,
    total: u64,
    at: usize,
) -> Reading<u64>
    requires { total ≤ 36028797018963968 }
    ensures { said result ≡ end_measured total (taken_end b opened s.now at (length s.now)) }
{
    let (_, next) = records::read_record(s, at, b, bytes, Turn::End { opened })?;
    Ok((total + 1, next))
}

// The entries from at on, right behind a partition's record, and the end record: total bytes before them, of which `head` are the
// partition's header.
fn measure_entries(
    c: &[u8],
    k: Counts,
    b: Bases,
    s: &[u8],
    bytes: &[u8],
    head: u64,
    total: u64,
    at: usize,
) -> Reading<u64>
    requires { Table (length c.now) k × (length s.now ≤ 1073741824) × (length bytes.now ≤ 1073741824) × (at ≤ length s.now) × (head ≤ total) × (total ≤ 33554432 * at) }
    ensures { said result ≡ entries_measured b (widths_of c.now k) bytes.now head total (taken_entries (widths_of c.now k) b bytes.now 1 live s.now at (length s.now)) }
{
    let mut first: u8 = 1;
    let mut opened = Deletion {
        deleted: 0,
        mark: 0,
        local: 0,
    };
    let mut back = head;
    let mut sum = total;
    let mut p = at;
    // Where the next entry begins stands in this one: no range holds the steps.
    loop {
        let (kind, _) = records::kind_at(s, p)?;
        if kind == 7 {
            return measure_end(b, s, bytes, opened, sum, p);
        }
        let ((after, behind, size), next) = entries::measure_entry(
            c, k, b, s, bytes, first, opened, back, kind, p,
        )?;
        opened = after;
        back = behind;
        sum += size;
        p = next;
        first = 0;
    }
}

// How long the Data of the record table s is, whose values lie in bytes, in a table of the checked schema c.
// Internal: for the writer, which has checked the schema.
pub fn measure_contents(c: &[u8], k: Counts, b: Bases, s: &[u8], bytes: &[u8]) -> Reading<u64>
    requires { Table (length c.now) k × (length s.now ≤ 1073741824) × (length bytes.now ≤ 1073741824) }
    ensures { said result ≡ contents_measured b (widths_of c.now k) bytes.now (taken_at (widths_of c.now k) b bytes.now s.now 0 (length s.now)) }
{
    let baseless = Bases {
        timestamp: 0,
        local: 0,
        ttl: 0,
    };
    let mut p: usize = 0;
    let mut sum: u64 = 0;
    // Where the next partition begins stands in this one.
    while p != s.len() {
        let (item, next) = records::read_record(s, p, baseless, bytes, Turn::Partition)?;
        let head = 14 + item.length as u64;
        let (total, after) = measure_entries(c, k, b, s, bytes, head, sum + head, next)?;
        sum = total;
        p = after;
    }
    Ok((sum, p))
}
