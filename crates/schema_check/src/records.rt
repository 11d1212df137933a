// Whether schema records are ones that Statistics gives.
ghost use Rattle.std.specs.Prelude.{◌≡◌, ◌+◌, ◌*◌, ◌≤◌, length};
ghost use Rattle.common.specs.Got.{said};
ghost use Rattle.common.specs.Refusals.{outcome};
ghost use Rattle.type_table.specs.Table.{line_of};
ghost use Rattle.schema_check.specs.Records.{name_at, name_len_at, is_line_of, is_name_of, is_kind_of, most_of, schema_at, anywhere, schema_of};
ghost use Rattle.schema_check.specs.Runs.{all_widths, is_of, lesser_of, run_of};

use common::reading;
use common::reading::Reading;
use common::refusal::{Fault, Refusal, Slice};

// How many columns of each role there are.
#[derive(Clone, Copy)]
pub struct Counts {
    pub keys: u64,
    pub clustering: u64,
    pub statics: u64,
    pub regulars: u64,
}

// The lines that a record may have, a bit for each: of key and clustering columns all 34 but Reversed's own, 24; of static and regular
// ones neither CounterColumn, List, Map, Set nor User.
const KEY_LINES: u64 = 0x7_feff_fffe;

const COLUMN_LINES: u64 = 0x6_fcaf_ff7e;

// The width of each line's values, from line 0: one load for a record, where type_table::width is a jump. Code that names an array
// stores it anew, so it is named once for a schema and lent.
const WIDTHS: [u8; 35] = [
    0, // no line
    255, // 1 Ascii
    1, // 2 Boolean
    255, // 3 Bytes
    255, // 4 Byte
    255, // 5 ColumnToCollection
    255, // 6 Composite
    255, // 7 CounterColumn
    8, // 8 Date
    255, // 9 Decimal
    8, // 10 Double
    255, // 11 Duration
    255, // 12 DynamicComposite
    255, // 13 Empty
    4, // 14 Float
    255, // 15 Frozen
    255, // 16 InetAddress
    4, // 17 Int32
    255, // 18 Integer
    16, // 19 LexicalUUID
    255, // 20 List
    8, // 21 Long
    255, // 22 Map
    255, // 23 PartitionerDefinedOrder
    255, // 24 Reversed
    255, // 25 Set
    255, // 26 Short
    255, // 27 SimpleDate
    8, // 28 Timestamp
    255, // 29 Time
    16, // 30 TimeUUID
    255, // 31 Tuple
    255, // 32 User
    255, // 33 UTF8
    16, // 34 UUID
];

// Whether a record of the role may have the line.
fn is_line_of(role: u8, line: u8) -> bool
    ensures { result ≡ is_line_of role line }
{
    if 34 < line {
        return false;
    }
    if role < 2 {
        return (KEY_LINES >> line) % 2 == 1;
    }
    (COLUMN_LINES >> line) % 2 == 1
}

// The width of the line's values.
fn width_in(widths: &[u8; 35], line: u8) -> u8
    requires { widths.now ≡ all_widths }
    ensures { result ≡ (line_of line).width }
{
    if 34 < line {
        return 0;
    }
    widths[line as usize]
}

// Whether role, line, mark and width go together.
fn is_kind_of(widths: &[u8; 35], role: u8, line: u8, mark: u8, width: u8) -> bool
    requires { widths.now ≡ all_widths }
    ensures { result ≡ is_kind_of role line mark width }
{
    if 3 < role {
        return false;
    }
    if is_line_of(role, line) {
        if 1 < mark {
            return false;
        }
        return width == width_in(widths, line);
    }
    false
}

// Whether the name's place in the record at at is one that the role may have.
fn is_name_at(limit: u64, role: u8, s: &[u8], at: usize) -> bool
    requires { at + 16 ≤ length s.now }
    ensures { result ≡ is_name_of limit role (name_at s.now at) (name_len_at s.now at) }
{
    if role < 2 {
        return number_fixed::eight_in(s, at + 4) == 0;
    }
    let name = number_fixed::four_in(s, at + 4);
    let len = number_fixed::four_in(s, at + 8);
    if limit < name {
        return false;
    }
    len <= limit - name
}

// Whether the record at at has the role and is one that Statistics gives.
fn is_of(limit: u64, widths: &[u8; 35], role: u8, s: &[u8], at: usize) -> bool
    requires { (widths.now ≡ all_widths) × (at + 16 ≤ length s.now) }
    ensures { result ≡ is_of limit role s.now at }
{
    if s[at] == role {
        if is_kind_of(widths, role, s[at + 1], s[at + 2], s[at + 3]) {
            if is_name_at(limit, role, s, at) {
                return number_fixed::four_in(s, at + 12) == 0;
            }
        }
    }
    false
}

// The most columns of a role.
fn most_of(role: u8) -> usize
    ensures { result ≡ most_of role }
{
    if role == 0 {
        return 1;
    }
    if role == 1 {
        return 32;
    }
    63
}

// The lesser of two.
fn lesser(a: usize, b: usize) -> usize
    ensures { result ≡ lesser_of a b }
{
    if a < b {
        return a;
    }
    b
}

// How many records of the role stand from place from on, one behind the other, of those that the role may have.
fn run(limit: u64, widths: &[u8; 35], role: u8, s: &[u8], from: usize) -> usize
    requires { (widths.now ≡ all_widths) × (from ≤ length s.now) }
    ensures { (result ≡ run_of limit role s.now (most_of role) from) × (from + 16 * result ≤ length s.now) }
{
    let most = lesser((s.len() - from) / 16, most_of(role));
    for n in 0..most {
        if !is_of(limit, widths, role, s, from + 16 * n) {
            return n;
        }
    }
    most
}

// The records of a whole schema, role by role: each role's tests are then few, and its count stays in a local.
fn read_records(limit: u64, s: &[u8]) -> Reading<Counts>
    ensures { said result ≡ schema_at limit s.now }
{
    let widths = WIDTHS;
    let keys = run(limit, &widths, 0, s, 0);
    if keys == 0 {
        return Err(Fault::BadRecord.at(0));
    }
    let clustering = run(limit, &widths, 1, s, 16);
    let a = 16 + 16 * clustering;
    let statics = run(limit, &widths, 2, s, a);
    let b = a + 16 * statics;
    let regulars = run(limit, &widths, 3, s, b);
    let end = b + 16 * regulars;
    if end < s.len() {
        return Err(Fault::BadRecord.at(end));
    }
    Ok((
        Counts {
            keys: 1,
            clustering: clustering as u64,
            statics: statics as u64,
            regulars: regulars as u64,
        },
        end,
    ))
}

// The records, where a name's place lies before limit.
fn check_within(limit: u64, schema: &[u8]) -> Result<Counts, Refusal>
    ensures { outcome result ≡ schema_of limit schema.now }
{
    if 1073741824 < schema.len() {
        return Err(Fault::OverLimit.of(Slice::Schema, 0));
    }
    reading::within(read_records(limit, schema), Slice::Schema)
}

// Checks the records of a schema where names are not read.
pub fn check(schema: &[u8]) -> Result<Counts, Refusal>
    ensures { outcome result ≡ schema_of anywhere schema.now }
{
    check_within(8589934592, schema)
}

// Checks the records of a schema, each with its name's place in Statistics.
pub fn check_named(schema: &[u8], statistics: &[u8]) -> Result<Counts, Refusal>
    ensures { outcome result ≡ schema_of (length statistics.now) schema.now }
{
    check_within(statistics.len() as u64, schema)
}
