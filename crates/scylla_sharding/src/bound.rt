// Bounds of token ranges, and their order.
ghost use Rattle.std.specs.Prelude.{◌≡◌};
ghost use Rattle.common.specs.Got.{said};
ghost use Rattle.scylla_sharding.specs.Bounds.{flag_at, token_at, bound_at, both_inclusive, is_range, is_next};

use crate::region;
use common::reading::Reading;
use common::refusal::Fault;
use common::times;

// A bound of a token range.
#[derive(Clone, Copy)]
pub struct Bound {
    // 0 inclusive, 1 exclusive.
    pub exclusive: u64,
    // The token plus 2^63: the numbers' order is the tokens'.
    pub token: u64,
}

// An exclusive flag.
fn read_flag(file: &[u8], at: usize, end: usize) -> Reading<u64>
    ensures { said result ≡ flag_at file.now at end }
{
    let (value, next) = number_fixed::read(file, at, end, 1)?;
    if 1 < value {
        return Err(Fault::BadFlags.at(at));
    }
    Ok((value, next))
}

// A token, plus 2^63.
fn read_token(file: &[u8], at: usize, end: usize) -> Reading<u64>
    ensures { said result ≡ token_at file.now at end }
{
    let (len, next) = region::read_length(file, at, end, 2)?;
    if len == 8 {
        let (bits, next) = number_fixed::read(file, next, end, 8)?;
        return Ok((times::biased_of(bits), next));
    }
    Err(Fault::NotCarried.at(at))
}

// A bound.
pub(crate) fn read(file: &[u8], at: usize, end: usize) -> Reading<Bound>
    ensures { said result ≡ bound_at file.now at end }
{
    let (exclusive, next) = read_flag(file, at, end)?;
    let (token, next) = read_token(file, next, end)?;
    Ok((Bound { exclusive, token }, next))
}

fn both_inclusive(a: Bound, b: Bound) -> bool
    ensures { result ≡ both_inclusive a b }
{
    if a.exclusive == 0 {
        return b.exclusive == 0;
    }
    false
}

// Whether r may end the range that l begins.
pub(crate) fn is_range(l: Bound, r: Bound) -> bool
    ensures { result ≡ is_range l r }
{
    if l.token < r.token {
        return true;
    }
    if l.token == r.token {
        return both_inclusive(l, r);
    }
    false
}

// Whether a range may begin with l after one that ends with r.
pub(crate) fn is_next(r: Bound, l: Bound) -> bool
    ensures { result ≡ is_next r l }
{
    if r.token < l.token {
        return true;
    }
    if r.token == l.token {
        return !both_inclusive(r, l);
    }
    false
}
