// Fields that stand in rows and cells.
ghost use Rattle.std.specs.Prelude.{◌≡◌};
ghost use Rattle.common.specs.Got.{got, Took};
ghost use Rattle.data_field.specs.Fields.{byte_at, in_at, variable_at, value_at};

use data_field::fields::Span;

// The byte at at, before end.
// Internal: for code that has read the same before.
pub fn known_byte(s: &[u8], at: usize, end: usize) -> (u64, usize)
    requires { Took (byte_at s.now at end) }
    ensures { got result.0 result.1 ≡ byte_at s.now at end }
{
    let b = s[at];
    let value = b as u64;
    (value, at + 1)
}

// A base and the varint at at, from lo to hi.
// Internal: as above.
pub fn known_sum(s: &[u8], at: usize, end: usize, lo: u64, hi: u64, base: u64) -> (u64, usize)
    requires { Took (in_at lo hi base s.now at end) }
    ensures { got result.0 result.1 ≡ in_at lo hi base s.now at end }
{
    let (delta, next) = number_varint::known(s, at, end);
    (base + delta, next)
}

// A value after its length.
fn known_variable(s: &[u8], at: usize, end: usize) -> (Span, usize)
    requires { Took (variable_at s.now at end) }
    ensures { got result.0 result.1 ≡ variable_at s.now at end }
{
    let (announced, next) = number_varint::known(s, at, end);
    if announced == 0 {
        return (Span { start: 0, len: 0 }, next);
    }
    let len = announced as usize;
    (Span { start: next, len }, next + len)
}

// A value of the width, or (255) after its length.
// Internal: as above.
pub fn known_value(s: &[u8], at: usize, end: usize, width: u8) -> (Span, usize)
    requires { Took (value_at width s.now at end) }
    ensures { got result.0 result.1 ≡ value_at width s.now at end }
{
    if width == 255 {
        return known_variable(s, at, end);
    }
    let len = width as usize;
    (Span { start: at, len }, at + len)
}
