// Statistics.db, for C.
ghost use Rattle.std.specs.Prelude.{◌≡◌};
ghost use Rattle.sstable.specs.Statistics.{StatisticsRead};

use common::times;

// The words of `sstable_statistics_read`.
fn read_words(file: &[u8], schema: &mut [u8]) -> [u64; 12]
    ensures { StatisticsRead file.now schema.old schema.new result }
{
    match stats_file::read(file, schema) {
        Ok(t) => [
            0,
            0,
            0,
            times::biased_of(t.bases.timestamp),
            t.bases.local,
            t.bases.ttl,
            t.validation.name as u64,
            t.validation.len as u64,
            t.validation.chance.bits,
            t.sizes.clustering,
            t.sizes.statics,
            t.sizes.regulars,
        ],
        Err(r) => [
            u8::from(r.fault) as u64,
            u8::from(r.slice) as u64,
            r.place as u64,
            0,
            0,
            0,
            0,
            0,
            0,
            0,
            0,
            0,
        ],
    }
}

// A whole Statistics.db; its schema records fill the start of schema.
#[unsafe(no_mangle)]
pub extern "C" fn sstable_statistics_read(file: &[u8], schema: &mut [u8], answer: &mut [u64; 12])
    ensures { StatisticsRead file.now schema.old schema.new answer.new }
{
    *answer = read_words(file, schema);
}
