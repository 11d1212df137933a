// Type strings, as whole slices.
ghost use Rattle.std.specs.Prelude.{◌≡◌, true, ◌≤◌, length};
ghost use Rattle.common.specs.Choose.{pick};
ghost use Rattle.text.specs.Text.{rest, same};
ghost use Rattle.type_table.specs.Table.{line_of};
ghost use Rattle.type_string.specs.Strings.{tail, typed, plain, held, type_of};
ghost use Rattle.type_string.specs.Parts.{said_parsed};

use crate::Kind;
use common::refusal::Fault;

// The line of Reversed.
const REVERSED: u8 = 24;

// Whether the string ends at at; under a Reversed, with the parenthesis that closes that.
fn is_tail(s: &[u8], at: usize, under: u8) -> bool
    ensures { result ≡ same (rest s.now at) (tail under) }
{
    if s.len() <= at {
        return under == 0;
    }
    if under == 0 {
        return false;
    }
    if s[at] != b')' {
        return false;
    }
    s.len() <= at + 1
}

// The type of a line, where nothing else follows.
fn typed(s: &[u8], at: usize, under: u8, line: u8) -> Result<Kind, Fault>
    ensures { said_parsed result ≡ typed under line (rest s.now at) }
{
    if is_tail(s, at, under) {
        return Ok(Kind {
            line,
            reversed: under,
        });
    }
    Err(Fault::NotCarried)
}

// The type of a line that is no Reversed, under a Reversed (1) or not (0). Of the 16 parentheses that may be open at once, its own and that
// of the Reversed are.
fn plain(s: &[u8], at: usize, under: u8, line: u8) -> Result<Kind, Fault>
    requires { under ≤ 15 }
    ensures { said_parsed result ≡ plain under line (rest s.now at) }
{
    if type_table::takes_parameters(line) {
        if s.len() <= at {
            return Err(Fault::NotCarried);
        }
        if s[at] != b'(' {
            return Err(Fault::NotCarried);
        }
        let next = type_name::inside(s, at + 1, 15 - under)?;
        return typed(s, next, under, line);
    }
    typed(s, at, under, line)
}

// Whether the type of a line may stand there: as a static or regular column's where column.
fn is_allowed(line: u8, column: bool) -> bool
    ensures { result ≡ pick column (line_of line).column true }
{
    if column {
        return type_table::is_of_columns(line);
    }
    true
}

// What a Reversed holds, from at on.
fn held(s: &[u8], at: usize, column: bool) -> Result<Kind, Fault>
    requires { at ≤ length s.now }
    ensures { said_parsed result ≡ held column (rest s.now at) }
{
    let name = type_name::name_at(s, at);
    let line = name.line;
    if line == 0 {
        return Err(Fault::NotCarried);
    }
    if is_allowed(line, column) {
        if line == REVERSED {
            return Err(Fault::NotCarried);
        }
        return plain(s, name.next, 1, line);
    }
    Err(Fault::NotCarried)
}

// The type that a whole type string says; column where it is that of a static or regular column.
// Internal: for the crates above.
pub fn parse(s: &[u8], column: bool) -> Result<Kind, Fault>
    ensures { said_parsed result ≡ type_of column s.now }
{
    let name = type_name::name_at(s, 0);
    let line = name.line;
    let next = name.next;
    if line == 0 {
        return Err(Fault::NotCarried);
    }
    if is_allowed(line, column) {
        if line != REVERSED {
            return plain(s, next, 0, line);
        }
        if s.len() <= next {
            return Err(Fault::NotCarried);
        }
        if s[next] != b'(' {
            return Err(Fault::NotCarried);
        }
        return held(s, next + 1, column);
    }
    Err(Fault::NotCarried)
}
