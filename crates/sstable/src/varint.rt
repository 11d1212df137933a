// Varints, for C.
ghost use Rattle.std.specs.Prelude.{◌≡◌, length};
ghost use Rattle.number_varint.specs.Varints.{shortest};
ghost use Rattle.sstable.specs.Varints.{varint_read, VarintPut};

use common::reading::Bad;

// The words of `sstable_varint_read`.
fn read_words(bytes: &[u8], at: usize, end: usize) -> [u64; 5]
    ensures { result ≡ varint_read bytes.now at end }
{
    if 1073741824 < bytes.len() {
        return [1, 3, 0, 0, 0];
    }
    match number_varint::read(bytes, at, end) {
        Ok((value, next)) => [0, 0, 0, value, next as u64],
        Err(Bad { fault, place }) => [u8::from(fault) as u64, 3, place as u64, 0, 0],
    }
}

// The varint at at, before end, of a slice that is called Data.
#[unsafe(no_mangle)]
pub extern "C" fn sstable_varint_read(bytes: &[u8], at: usize, end: usize, answer: &mut [u64; 5])
    ensures { answer.new ≡ varint_read bytes.now at end }
{
    *answer = read_words(bytes, at, end);
}

// The length of the shortest varint of value.
#[unsafe(no_mangle)]
pub extern "C" fn sstable_varint_len(value: u64) -> usize
    ensures { result ≡ length (shortest value) }
{
    number_varint::len(value)
}

// Stores the shortest varint of value at the start of out.
fn put_words(out: &mut [u8], value: u64) -> [u64; 4]
    ensures { VarintPut out.old out.new value result }
{
    if 1073741824 < out.len() {
        return [1, 7, 0, 0];
    }
    let len = number_varint::len(value);
    if out.len() < len {
        return [13, 7, len as u64, 0];
    }
    let next = number_varint::put_in(out, 0, value);
    [0, 0, 0, next as u64]
}

// Stores the shortest varint of value at the start of out, where it fits.
#[unsafe(no_mangle)]
pub extern "C" fn sstable_varint_put(out: &mut [u8], value: u64, answer: &mut [u64; 4])
    ensures { VarintPut out.old out.new value answer.new }
{
    *answer = put_words(out, value);
}
