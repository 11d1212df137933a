// Parts of a slice.
ghost use Rattle.std.specs.Prelude.{◌≡◌, ◌+◌, ◌≤◌, length};
ghost use Rattle.common.specs.Store.{Room, Puts, part, shown};

// Stores the part of s from start on, len bytes, at at: the place after it.
// Internal: for writers that have measured before they store.
pub fn put_part(d: &mut [u8], at: usize, s: &[u8], start: usize, len: usize) -> usize
    requires { (start + len ≤ length s.now) × Room d.old at (part s.now start len) }
    ensures { Puts d.old d.new at (part s.now start len) result }
{
    // Byte by byte: the library's copy would have a program in C bring memmove.
    for i in 0..len {
        d[at + i] = s[start + i];
    }
    at + len
}

// The len bytes of s from start on; the empty part where they do not lie in s.
// Internal: for the crates above.
pub fn shown_in(s: &[u8], start: usize, len: usize) -> &[u8]
    ensures { result.now ≡ shown s.now start len }
{
    if s.len() < start {
        return &s[..0];
    }
    if s.len() - start < len {
        return &s[..0];
    }
    let end = start + len;
    &s[start..end]
}
