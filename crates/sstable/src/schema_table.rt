// Schema tables, for C.
ghost use Rattle.std.specs.Prelude.{◌≡◌, length};
ghost use Rattle.schema_check.specs.Records.{anywhere};
ghost use Rattle.schema_column.specs.Columns.{same_schemas};
ghost use Rattle.sstable.specs.Statistics.{schema_words, checked_words};

use common::refusal::Refusal;
use schema_check::records;
use schema_check::records::Counts;

// The words of an answer.
fn checked_words(c: Result<Counts, Refusal>) -> [u64; 6]
    ensures { result ≡ checked_words c }
{
    match c {
        Ok(n) => [0, 0, 0, n.clustering, n.statics, n.regulars],
        Err(r) => [
            u8::from(r.fault) as u64,
            u8::from(r.slice) as u64,
            r.place as u64,
            0,
            0,
            0,
        ],
    }
}

// Checks the records of a schema where names are not read.
#[unsafe(no_mangle)]
pub extern "C" fn sstable_schema_check(schema: &[u8], answer: &mut [u64; 6])
    ensures { answer.new ≡ schema_words anywhere schema.now }
{
    *answer = checked_words(records::check(schema));
}

// Checks the records of a schema, each with its name's place in Statistics.
#[unsafe(no_mangle)]
pub extern "C" fn sstable_schema_check_named(
    schema: &[u8],
    statistics: &[u8],
    answer: &mut [u64; 6],
)
    ensures { answer.new ≡ schema_words (length statistics.now) schema.now }
{
    *answer = checked_words(records::check_named(schema, statistics));
}

// Whether two schemas are equal; t and u are the Statistics in which the names of a and b stand.
#[unsafe(no_mangle)]
pub extern "C" fn sstable_schema_same(a: &[u8], t: &[u8], b: &[u8], u: &[u8]) -> bool
    ensures { result ≡ same_schemas a.now t.now b.now u.now }
{
    schema_column::is_same(a, t, b, u)
}
