// What a call over Data tests first.
#![tactic(auto)]

ghost use Rattle.std.specs.Prelude.{◌≡◌, length};
ghost use Rattle.common.specs.Refusals.{outcome};
ghost use Rattle.call_check.specs.Tables.{bad_bases, table_at};

use common::refusal::{Fault, Refusal, Slice};
use common::times::Bases;
use schema_check::records;
use schema_check::records::Counts;

// Whether bases handed over are out of range.
// Internal: for the crates above.
pub fn is_bad_bases(b: Bases) -> bool
    ensures { result ≡ bad_bases b }
{
    if 2147483647 < b.local {
        return true;
    }
    2147483647 < b.ttl
}

// The columns of a schema, where the slices, the bases and the schema are sound; room is the length of a buffer that is lent.
// Internal: for the crates above.
pub fn check(schema: &[u8], bases: Bases, data: &[u8], room: usize) -> Result<Counts, Refusal>
    ensures { outcome result ≡ table_at schema.now bases «data».now room }
{
    if 1073741824 < schema.len() {
        return Err(Fault::OverLimit.of(Slice::Schema, 0));
    }
    if 1073741824 < data.len() {
        return Err(Fault::OverLimit.of(Slice::Data, 0));
    }
    if 1073741824 < room {
        return Err(Fault::OverLimit.of(Slice::Output, 0));
    }
    if is_bad_bases(bases) {
        return Err(Fault::OutOfRange.of(Slice::Bases, 0));
    }
    records::check(schema)
}
