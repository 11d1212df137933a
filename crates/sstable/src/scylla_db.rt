// Scylla.db, for C.
ghost use Rattle.std.specs.Prelude.{◌≡◌};
ghost use Rattle.sstable.specs.Scylla.{scylla_read};

// The words of `sstable_scylla_read`.
fn read_words(file: &[u8]) -> [u64; 14]
    ensures { result ≡ scylla_read file.now }
{
    match scylla_file::read(file) {
        Ok(c) => [
            0,
            0,
            0,
            c.bits,
            c.uuid.high,
            c.uuid.low,
            c.sharding.offset as u64,
            c.sharding.length as u64,
            c.features.offset as u64,
            c.features.length as u64,
            c.attributes.offset as u64,
            c.attributes.length as u64,
            c.run.offset as u64,
            c.run.length as u64,
        ],
        Err(r) => [
            u8::from(r.fault) as u64,
            u8::from(r.slice) as u64,
            r.place as u64,
            0,
            0,
            0,
            0,
            0,
            0,
            0,
            0,
            0,
            0,
            0,
        ],
    }
}

// A whole Scylla.db.
#[unsafe(no_mangle)]
pub extern "C" fn sstable_scylla_read(file: &[u8], answer: &mut [u64; 14])
    ensures { answer.new ≡ scylla_read file.now }
{
    *answer = read_words(file);
}
