// What a type string begins with, its name, and what follows that in parentheses.
#![tactic(auto)]

mod characters; // characters.rt: the characters of type strings

ghost use Rattle.std.specs.Prelude.{◌≡◌, ◌≤◌, length};
ghost use Rattle.text.specs.Text.{rest};
ghost use Rattle.type_name.specs.Names.{blank, of_name, named, inside};
ghost use Rattle.type_name.specs.Parts.{Passed, NameAt, said_skip};

use common::refusal::Fault;

// The line of BytesType.
const BYTES: u8 = 3;

// The place behind the blanks from at on.
fn skip_blanks(s: &[u8], at: usize) -> usize
    requires { at ≤ length s.now }
    ensures { Passed blank s.now at result }
{
    for i in at..s.len() {
        if !characters::is_blank(s[i]) {
            return i;
        }
    }
    s.len()
}

// The place behind the name from at on.
fn name_end(s: &[u8], at: usize) -> usize
    requires { at ≤ length s.now }
    ensures { Passed of_name s.now at result }
{
    for i in at..s.len() {
        if !characters::is_name(s[i]) {
            return i;
        }
    }
    s.len()
}

// The line that a name means, or 0.
fn named(name: &[u8]) -> u8
    ensures { result ≡ named name.now }
{
    if text::among(b'.', name) {
        if text::starts_with(name, b"org.apache.cassandra.db.marshal.") {
            return type_table::find(&name[32..]);
        }
        return 0;
    }
    type_table::find(name)
}

// The name that a type string begins with: its line or 0, BytesType's where there is none, and the place behind it and the blanks.
#[derive(Clone, Copy)]
pub struct Name {
    pub line: u8,
    pub next: usize,
}

// Internal: of a type string, from a place in it on.
pub fn name_at(s: &[u8], at: usize) -> Name
    requires { at ≤ length s.now }
    ensures { NameAt s.now at result }
{
    let from = skip_blanks(s, at);
    let to = name_end(s, from);
    let next = skip_blanks(s, to);
    if to == from {
        return Name { line: BYTES, next };
    }
    Name {
        line: named(&s[from..to]),
        next,
    }
}

// From at on, inside parentheses, where left more may open: the place behind the one that closes them. Each inner pair is a call with
// one less left.
// Internal: of a type string.
pub fn inside(s: &[u8], at: usize, left: u8) -> Result<usize, Fault>
    ensures { said_skip s.now result ≡ inside left 0 (rest s.now at) }
{
    let mut i = at;
    // A step goes past a character, or past a whole part in parentheses.
    while i < s.len() {
        let c = s[i];
        if c == b'(' {
            if left == 0 {
                return Err(Fault::TooMany);
            }
            i = inside(s, i + 1, left - 1)?;
        } else {
            if c == b')' {
                return Ok(i + 1);
            }
            if characters::is_parameter(c) {
                i += 1;
            } else {
                return Err(Fault::NotCarried);
            }
        }
    }
    Err(Fault::NotCarried)
}
