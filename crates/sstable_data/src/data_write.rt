// Data from records, for C.
ghost use Rattle.std.specs.Prelude.{length};
ghost use Rattle.sstable_data.specs.Data.{data_of, Writing};

use crate::data_db;
use write_call::writes;

// Writes Data into out from records, whose keys and values lie in bytes.
#[unsafe(no_mangle)]
pub extern "C" fn sstable_write(
    schema: &[u8],
    bases: &[u64; 3],
    records: &[u8],
    bytes: &[u8],
    out: &mut [u8],
    answer: &mut [u64; 4],
)
    ensures { Writing (data_of schema.now bases.now records.now bytes.now (length out.old)) out.old out.new answer.new }
{
    let table = data_db::bases_in(bases);
    *answer = data_db::number_words(writes::write(schema, table, records, bytes, out));
}
