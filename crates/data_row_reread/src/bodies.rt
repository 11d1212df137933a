// The body of a row up to its first cell.
ghost use Rattle.std.specs.Prelude.{◌≡◌, ◌≤◌};
ghost use Rattle.common.specs.Got.{got, Took};
ghost use Rattle.data_field.specs.Fields.{deletion_at};
ghost use Rattle.data_clustering.specs.Sizes.{sizes_at};
ghost use Rattle.data_row.specs.Bodies.{expiry_at, liveness_at, row_deletion_at, present_at, content_at, body_at};

use common::times::Bases;
use data_cell::cells::Times;
use data_cell_reread::fields;
use data_field::fields::Deletion;
use data_row::bodies;
use data_row::bodies::Body;

// The end of the body, from the place behind the previous size.
fn known_sizes(s: &[u8], at: usize, end: usize) -> (u64, usize)
    requires { Took (sizes_at s.now at end) }
    ensures { got result.0 result.1 ≡ sizes_at s.now at end }
{
    let (size, next) = number_varint::known(s, at, end);
    let stop = next + size as usize;
    let (_, next) = number_varint::known(s, next, stop);
    (stop as u64, next)
}

// The expiry that follows the timestamp.
fn known_expiry(s: &[u8], at: usize, end: usize, b: Bases, timestamp: u64) -> (Times, usize)
    requires { Took (expiry_at b timestamp s.now at end) }
    ensures { got result.0 result.1 ≡ expiry_at b timestamp s.now at end }
{
    let (ttl, next) = fields::known_sum(s, at, end, 1, 2147483647, b.ttl);
    let (local, next) = fields::known_sum(s, next, end, 0, 2147483646, b.local);
    (
        Times {
            timed: 1,
            timestamp,
            expires: 1,
            local,
            ttl,
        },
        next,
    )
}

// The liveness of a row with the flags f.
fn known_liveness(s: &[u8], at: usize, end: usize, b: Bases, f: u64) -> (Times, usize)
    requires { Took (liveness_at b f s.now at end) }
    ensures { got result.0 result.1 ≡ liveness_at b f s.now at end }
{
    if f / 4 % 2 == 1 {
        let (timestamp, next) = fields::known_sum(s, at, end, 1, 18446744073709551615, b.timestamp);
        if f / 8 % 2 == 1 {
            return known_expiry(s, next, end, b, timestamp);
        }
        return (
            Times {
                timed: 1,
                timestamp,
                expires: 0,
                local: 0,
                ttl: 0,
            },
            next,
        );
    }
    (
        Times {
            timed: 0,
            timestamp: 0,
            expires: 0,
            local: 0,
            ttl: 0,
        },
        at,
    )
}

// A deletion that stands.
fn known_deletion(s: &[u8], at: usize, end: usize, b: Bases) -> (Deletion, usize)
    requires { Took (deletion_at b s.now at end) }
    ensures { got result.0 result.1 ≡ deletion_at b s.now at end }
{
    let (mark, next) = fields::known_sum(s, at, end, 1, 18446744073709551615, b.timestamp);
    let (local, next) = fields::known_sum(s, next, end, 0, 2147483646, b.local);
    (
        Deletion {
            deleted: 1,
            mark,
            local,
        },
        next,
    )
}

// The deletion of a row with the flags f.
fn known_row_deletion(s: &[u8], at: usize, end: usize, b: Bases, f: u64) -> (Deletion, usize)
    requires { Took (row_deletion_at b f s.now at end) }
    ensures { got result.0 result.1 ≡ row_deletion_at b f s.now at end }
{
    if f / 16 % 2 == 1 {
        return known_deletion(s, at, end, b);
    }
    (
        Deletion {
            deleted: 0,
            mark: 0,
            local: 0,
        },
        at,
    )
}

// Those of k columns that have a cell.
fn known_present(s: &[u8], at: usize, end: usize, k: u64, f: u64) -> (u64, usize)
    requires { (k ≤ 63) × Took (present_at k f s.now at end) }
    ensures { got result.0 result.1 ≡ present_at k f s.now at end }
{
    let all = bodies::all_columns(k);
    if f / 32 % 2 == 1 {
        return (all, at);
    }
    let (missing, next) = number_varint::known(s, at, end);
    (all - missing, next)
}

// What a body that ends at stop holds before the cells of k columns.
fn known_content(s: &[u8], at: usize, stop: usize, b: Bases, k: u64, f: u64) -> (Body, usize)
    requires { (k ≤ 63) × Took (content_at b k f stop s.now at stop) }
    ensures { got result.0 result.1 ≡ content_at b k f stop s.now at stop }
{
    let (times, next) = known_liveness(s, at, stop, b, f);
    let (deletion, next) = known_row_deletion(s, next, stop, b, f);
    let (present, next) = known_present(s, next, stop, k, f);
    (
        Body {
            stop,
            times,
            deletion,
            present,
        },
        next,
    )
}

// The sizes, and the body of a row with the flags f before the cells of k columns: the place after it is that of the first cell.
pub(crate) fn known_body(s: &[u8], at: usize, end: usize, b: Bases, k: u64, f: u64) -> (Body, usize)
    requires { (k ≤ 63) × Took (body_at b k f s.now at end) }
    ensures { got result.0 result.1 ≡ body_at b k f s.now at end }
{
    let (stop, next) = known_sizes(s, at, end);
    known_content(s, next, stop as usize, b, k, f)
}
