// Numbers in decimal.
ghost use Rattle.std.specs.Prelude.{[], ◌∷◌, ◌++◌, ◌+◌, ◌<◌};
ghost use Rattle.common.specs.Store.{Room, Puts};
ghost use Rattle.print_line.specs.Numbers.{decimal, signed};
ghost use Rattle.print_line.specs.Lines.{spaced, ended, pair_of};

// Stores a byte at at: the place after it.
pub(crate) fn put_byte(d: &mut [u8], at: usize, b: u8) -> usize
    requires { Room d.old at (b ∷ []) }
    ensures { Puts d.old d.new at (b ∷ []) result }
{
    d[at] = b;
    at + 1
}

// Stores the digit n.
fn put_digit(d: &mut [u8], at: usize, n: u64) -> usize
    requires { Room d.old at ((48 + n) ∷ []) × (n < 10) }
    ensures { Puts d.old d.new at ((48 + n) ∷ []) result }
{
    put_byte(d, at, 48 + n as u8)
}

// Stores n's digits.
fn put_decimal(d: &mut [u8], at: usize, n: u64) -> usize
    requires { Room d.old at (decimal n) }
    ensures { Puts d.old d.new at (decimal n) result }
{
    if n < 10 {
        return put_digit(d, at, n);
    }
    let next = put_decimal(d, at, n / 10);
    put_digit(d, next, n % 10)
}

// Stores the signed number that is kept as x, plus 2^63.
fn put_signed(d: &mut [u8], at: usize, x: u64) -> usize
    requires { Room d.old at (signed x) }
    ensures { Puts d.old d.new at (signed x) result }
{
    if x < 0x8000_0000_0000_0000 {
        let next = put_byte(d, at, b'-');
        return put_decimal(d, next, 0x8000_0000_0000_0000 - x);
    }
    put_decimal(d, at, x - 0x8000_0000_0000_0000)
}

// Stores a number and a space.
pub(crate) fn put_field(d: &mut [u8], at: usize, n: u64) -> usize
    requires { Room d.old at (spaced (decimal n)) }
    ensures { Puts d.old d.new at (spaced (decimal n)) result }
{
    let next = put_decimal(d, at, n);
    put_byte(d, next, b' ')
}

// Stores a signed number and a space.
pub(crate) fn put_signed_field(d: &mut [u8], at: usize, x: u64) -> usize
    requires { Room d.old at (spaced (signed x)) }
    ensures { Puts d.old d.new at (spaced (signed x)) result }
{
    let next = put_signed(d, at, x);
    put_byte(d, next, b' ')
}

// Stores a number and the line's end.
pub(crate) fn put_last(d: &mut [u8], at: usize, n: u64) -> usize
    requires { Room d.old at (ended (decimal n)) }
    ensures { Puts d.old d.new at (ended (decimal n)) result }
{
    let next = put_decimal(d, at, n);
    put_byte(d, next, b'\n')
}

// Stores two numbers, a space behind each.
pub(crate) fn put_pair(d: &mut [u8], at: usize, a: u64, b: u64) -> usize
    requires { Room d.old at (pair_of a b) }
    ensures { Puts d.old d.new at (pair_of a b) result }
{
    let next = put_field(d, at, a);
    put_field(d, next, b)
}
