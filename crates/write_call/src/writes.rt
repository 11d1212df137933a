// Data from a record table: measured in one pass, stored in a second.
ghost use Rattle.std.specs.Prelude.{◌≡◌, ◌≤◌, length};
ghost use Rattle.common.specs.Refusals.{outcome};
ghost use Rattle.call_check.specs.Tables.{Table};
ghost use Rattle.data_contents.specs.Contents.{widths_of};
ghost use Rattle.write_accept.specs.Writes.{desk_at, written_as, write_of};
ghost use Rattle.write_call.specs.Written.{length_of, fitted, Writes};

use common::reading;
use common::refusal::{Fault, Refusal, Slice};
use common::times::Bases;
use schema_check::records::Counts;
use write_measure::whole as measures;
use write_store::whole;

// The columns of a schema, where the slices, the bases and the schema are sound; room is the length of the buffer that is lent.
fn check(
    schema: &[u8],
    bases: Bases,
    records: &[u8],
    bytes: &[u8],
    room: usize,
) -> Result<Counts, Refusal>
    ensures { outcome result ≡ desk_at schema.now bases records.now bytes.now room }
{
    if 1073741824 < schema.len() {
        return Err(Fault::OverLimit.of(Slice::Schema, 0));
    }
    if 1073741824 < records.len() {
        return Err(Fault::OverLimit.of(Slice::Records, 0));
    }
    if 1073741824 < bytes.len() {
        return Err(Fault::OverLimit.of(Slice::Bytes, 0));
    }
    if 1073741824 < room {
        return Err(Fault::OverLimit.of(Slice::Output, 0));
    }
    call_check::check(schema, bases, records, room)
}

// How long the Data of the record table s is, in a table of the checked schema c.
fn measure_in(c: &[u8], k: Counts, b: Bases, s: &[u8], bytes: &[u8]) -> Result<usize, Refusal>
    requires { Table (length c.now) k × (length s.now ≤ 1073741824) × (length bytes.now ≤ 1073741824) }
    ensures { outcome result ≡ length_of (written_as (widths_of c.now k) b s.now bytes.now) }
{
    let value = reading::within(
        measures::measure_contents(c, k, b, s, bytes),
        Slice::Records,
    )?;
    Ok(value as usize)
}

// Writes the Data of a record table into d, in a table whose schema is checked.
fn write_in(
    c: &[u8],
    k: Counts,
    b: Bases,
    s: &[u8],
    bytes: &[u8],
    d: &mut [u8],
) -> Result<usize, Refusal>
    requires { Table (length c.now) k × (length s.now ≤ 1073741824) × (length bytes.now ≤ 1073741824) × (length d.old ≤ 1073741824) }
    ensures { Writes (fitted (written_as (widths_of c.now k) b s.now bytes.now) (length d.old)) d.old d.new result }
{
    let n = measure_in(c, k, b, s, bytes)?;
    if d.len() < n {
        return Err(Fault::NoRoom.of(Slice::Output, n));
    }
    whole::put_contents(c, k, b, s, bytes, d);
    Ok(n)
}

// Writes the Data of a record table into out, and says how long it is; the keys and values of the records lie in bytes. Refused, or too
// long for out, out stays as it is.
pub fn write(
    schema: &[u8],
    bases: Bases,
    records: &[u8],
    bytes: &[u8],
    out: &mut [u8],
) -> Result<usize, Refusal>
    ensures { Writes (write_of schema.now bases records.now bytes.now (length out.old)) out.old out.new result }
{
    let counts = check(schema, bases, records, bytes, out.len())?;
    write_in(schema, counts, bases, records, bytes, out)
}
