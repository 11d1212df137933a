// The header of clustering values.
ghost use Rattle.std.specs.Prelude.{◌≡◌, ◌≤◌, length};
ghost use Rattle.common.specs.Store.{Room, Puts};
ghost use Rattle.write_row_parts.specs.Parts.{header_form};

// How many bytes the header of count clustering values has.
// Internal: for the writer, which measures before it stores.
pub fn header_len(count: u64, header: u64) -> u64
    ensures { (result ≡ length (header_form count header)) × (result ≤ 9) }
{
    if count == 0 {
        return 0;
    }
    number_varint::len(header) as u64
}

// Stores the header of count clustering values: the place after it.
// Internal: for writers that have measured before they store.
pub fn put_header_of(d: &mut [u8], at: usize, count: u64, header: u64) -> usize
    requires { Room d.old at (header_form count header) }
    ensures { Puts d.old d.new at (header_form count header) result }
{
    if count != 0 {
        return number_varint::put_in(d, at, header);
    }
    at
}
