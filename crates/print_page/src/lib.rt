// The text of a walk through Data, a page at a time.
#![tactic(auto)]

ghost use Rattle.std.specs.Prelude.{◌≤◌, length};
ghost use Rattle.call_check.specs.Tables.{Table};
ghost use Rattle.print_page.specs.Pages.{page_in, page_at, len_of, Fills};

use common::times::Bases;
use data_walk::cursors::Cursor;
use data_walk::steps;
use print_line::{line, refusals};
use schema_check::records::Counts;

// How many bytes of a page are filled, and whether there is more.
#[derive(Clone, Copy)]
pub enum Filled {
    // More may come: the walk goes on from the cursor.
    More { len: usize, cursor: Cursor },
    Last(usize),
}

// Fills d from its start with up to 16 lines of the walk from first on, in a table of the checked schema c.
fn fill(c: &[u8], k: Counts, b: Bases, s: &[u8], first: Cursor, d: &mut [u8]) -> Filled
    requires { Table (length c.now) k × (4032 ≤ length d.old) }
    ensures fills { Fills (page_in 16 c.now k b s.now first) d.old d.new result }
    ensures result_bound { len_of result ≤ 4032 }
{
    let mut x = first;
    let mut at: usize = 0;
    for _ in 0..16usize {
        match steps::step_in(c, k, b, s, x) {
            Ok(Some((item, cursor))) => {
                at = line::put_line(d, at, item);
                x = cursor;
            }
            Ok(None) => {
                return Filled::Last(at);
            }
            Err(refusal) => {
                return Filled::Last(refusals::put_refusal(d, at, refusal));
            }
        }
    }
    Filled::More { len: at, cursor: x }
}

// Fills a page with the next lines of the walk from the cursor on: up to 16 records' lines, and a refusal's line where the walk ends so.
// Internal: for the listing program, whose page has room for them.
pub fn fill_page(
    schema: &[u8],
    bases: Bases,
    data: &[u8],
    cursor: Cursor,
    page: &mut [u8],
) -> Filled
    requires { 4032 ≤ length page.old }
    ensures fills { Fills (page_at schema.now bases «data».now cursor) page.old page.new result }
    ensures result_bound { len_of result ≤ 4032 }
{
    match call_check::check(schema, bases, data, 0) {
        Ok(counts) => fill(schema, counts, bases, data, cursor, page),
        Err(refusal) => Filled::Last(refusals::put_refusal(page, 0, refusal)),
    }
}
