// The listing of Data, for C.
ghost use Rattle.std.specs.Prelude.{◌≡◌, length};
ghost use Rattle.list_call.specs.Lists.{counted};
ghost use Rattle.sstable_data.specs.Data.{number_words, items_of, Listing};

use crate::data_db;
use list_call::lists;

// How many records Data has.
#[unsafe(no_mangle)]
pub extern "C" fn sstable_count(schema: &[u8], bases: &[u64; 3], data: &[u8], answer: &mut [u64; 4])
    ensures { answer.new ≡ number_words (counted 0 (items_of schema.now bases.now «data».now 0)) }
{
    let table = data_db::bases_in(bases);
    *answer = data_db::number_words(lists::count(schema, table, data));
}

// Lists Data into out: a record of 64 bytes for each item.
#[unsafe(no_mangle)]
pub extern "C" fn sstable_list(
    schema: &[u8],
    bases: &[u64; 3],
    data: &[u8],
    out: &mut [u8],
    answer: &mut [u64; 4],
)
    ensures { Listing (items_of schema.now bases.now «data».now (length out.old)) out.old out.new answer.new }
{
    let table = data_db::bases_in(bases);
    *answer = data_db::number_words(lists::list(schema, table, data, out));
}
