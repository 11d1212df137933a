// The types of columns: the table of 001, and type strings.
#![tactic(auto)]

mod string; // string.rt: type strings

ghost use Rattle.std.specs.Prelude.{◌≡◌};
ghost use Rattle.common.specs.Got.{said};
ghost use Rattle.type_string.specs.Strings.{type_at};

use common::reading::Reading;
use common::refusal::Fault;

// A column's type: its line in 001's table from 1 (under Reversed, its parameter's), and 1 where it is reversed.
#[derive(Clone, Copy)]
pub struct Kind {
    pub line: u8,
    pub reversed: u8,
}

// The type at at, before end: its length and its string; column where it is that of a static or regular column.
// Internal: for the crates above.
pub fn read(s: &[u8], at: usize, end: usize, column: bool) -> Reading<Kind>
    ensures { said result ≡ type_at column s.now at end }
{
    let (value, next) = number_varint::read(s, at, end)?;
    if ((end - next) as u64) < value {
        return Err(Fault::PastEnd.at(at));
    }
    let stop = next + value as usize;
    match string::parse(&s[next..stop], column) {
        Ok(kind) => Ok((kind, stop)),
        Err(fault) => Err(fault.at(next)),
    }
}
