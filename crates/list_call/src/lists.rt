// The listing of Data: counted in one pass, stored in a second.
ghost use Rattle.std.specs.Prelude.{◌≡◌, ◌*◌, ◌≤◌, length};
ghost use Rattle.common.specs.Refusals.{refused, outcome};
ghost use Rattle.common.specs.Store.{splice};
ghost use Rattle.common.specs.declared.refusal.Fault.TheVariants.{NoRoom};
ghost use Rattle.common.specs.declared.refusal.Slice.TheVariants.{Output};
ghost use Rattle.call_check.specs.Tables.{Table};
ghost use Rattle.data_walk.specs.Walks.{start, walk_from};
ghost use Rattle.list_call.specs.Lists.{list_at, counted, record_bytes, Ready, Lists};

use crate::fills;
use common::reading;
use common::refusal::{Fault, Refusal, Slice};
use common::times::Bases;
use list_count::counts;
use schema_check::records::Counts;

// That n records do not fit: 13 with the length needed.
fn no_room(n: usize) -> Result<usize, Refusal>
    requires { n ≤ 274877906944 }
    ensures { outcome result ≡ refused NoRoom Output (64 * n) }
{
    Err(Fault::NoRoom.of(Slice::Output, 64 * n))
}

// How many records the Data s has, in a table of the checked schema c.
fn count_in(c: &[u8], k: Counts, b: Bases, s: &[u8]) -> Result<usize, Refusal>
    requires { Table (length c.now) k × (length s.now ≤ 1073741824) }
    ensures { outcome result ≡ counted 0 (walk_from c.now k b s.now start) }
{
    let value = reading::within(counts::count_contents(c, k, b, s), Slice::Data)?;
    Ok(value as usize)
}

// Stores the records of the Data s, which fit into d.
fn fill(c: &[u8], k: Counts, b: Bases, s: &[u8], d: &mut [u8])
    requires { Table (length c.now) k × Ready (walk_from c.now k b s.now start) (length d.old) }
    ensures { d.new ≡ splice d.old 0 (record_bytes (walk_from c.now k b s.now start)) }
{
    fills::put_contents(c, k, b, s, d);
}

// How many records the Data has, in a table of the schema and the bases; or why it is refused.
pub fn count(schema: &[u8], bases: Bases, data: &[u8]) -> Result<usize, Refusal>
    ensures { outcome result ≡ counted 0 (list_at schema.now bases «data».now 0) }
{
    let counts = call_check::check(schema, bases, data, 0)?;
    count_in(schema, counts, bases, data)
}

// Lists the Data of a table whose schema is checked.
fn list_in(c: &[u8], k: Counts, b: Bases, s: &[u8], d: &mut [u8]) -> Result<usize, Refusal>
    requires { Table (length c.now) k × (length s.now ≤ 1073741824) }
    ensures { Lists (walk_from c.now k b s.now start) d.old d.new result }
{
    let n = count_in(c, k, b, s)?;
    if d.len() / 64 < n {
        return no_room(n);
    }
    fill(c, k, b, s, d);
    Ok(n)
}

// Lists Data into out: a record of 64 bytes for each item, and how many there are. Refused, or too long for out, out stays as it is.
pub fn list(schema: &[u8], bases: Bases, data: &[u8], out: &mut [u8]) -> Result<usize, Refusal>
    ensures { Lists (list_at schema.now bases «data».now (length out.old)) out.old out.new result }
{
    let counts = call_check::check(schema, bases, data, out.len())?;
    list_in(schema, counts, bases, data, out)
}
