// Statistics.db.
#![tactic(auto)]

mod bases; // bases.rt: the base times
pub mod columns; // columns.rt: the columns of the header, and their schema records
mod header; // header.rt: entry 3

ghost use Rattle.std.specs.Prelude.{◌≡◌, ◌*◌, ◌≤◌, length};
ghost use Rattle.common.specs.Got.{said};
ghost use Rattle.stats_file.specs.Statistics.{entry0_at, entry3_at, forward_at, backward_at, file_at, FillsFile, Reads};
ghost use Rattle.stats_file.specs.Buffer.{column_count, FillsHeader};

use crate::columns::Sizes;
use crate::header::Head;
use common::reading::Reading;
use common::refusal::{Fault, Refusal, Slice};
use common::times::Bases;
use common::{part, reading};
use stats_contents::contents;
use stats_contents::contents::Contents;
use stats_validation::Validation;

// What Statistics says of a table: its base times, its validation entry, and how many columns of each role it has.
#[derive(Clone, Copy)]
pub struct Table {
    pub bases: Bases,
    pub validation: Validation,
    pub sizes: Sizes,
}

// Entry 0.
fn entry_0(s: &[u8], c: Contents) -> Reading<Validation>
    ensures { said result ≡ entry0_at s.now c }
{
    let at = c.validation;
    stats_validation::read(s, at, contents::end_of(at, c, s.len()))
}

// Entry 3; its columns' records are stored at the start of d.
fn entry_3(s: &[u8], c: Contents, d: &mut [u8]) -> Reading<Head>
    requires { (length d.old ≡ 2544) × (length s.now ≤ 1073741824) }
    ensures { FillsHeader (entry3_at s.now c) d.old d.new result }
{
    let at = c.header;
    header::read(s, at, contents::end_of(at, c, s.len()), d)
}

// Both entries, where entry 0 stands first.
fn forward(s: &[u8], c: Contents, d: &mut [u8]) -> Reading<Table>
    requires { (length d.old ≡ 2544) × (length s.now ≤ 1073741824) }
    ensures { FillsFile (forward_at s.now c) d.old d.new result }
{
    let (validation, _) = entry_0(s, c)?;
    let (head, next) = entry_3(s, c, d)?;
    Ok((
        Table {
            bases: head.bases,
            validation,
            sizes: head.sizes,
        },
        next,
    ))
}

// Both entries, where entry 3 stands first.
fn backward(s: &[u8], c: Contents, d: &mut [u8]) -> Reading<Table>
    requires { (length d.old ≡ 2544) × (length s.now ≤ 1073741824) }
    ensures { FillsFile (backward_at s.now c) d.old d.new result }
{
    let (head, _) = entry_3(s, c, d)?;
    let (validation, next) = entry_0(s, c)?;
    Ok((
        Table {
            bases: head.bases,
            validation,
            sizes: head.sizes,
        },
        next,
    ))
}

// The whole file; the schema records are stored at the start of d.
fn read_file(s: &[u8], d: &mut [u8]) -> Reading<Table>
    requires { (length d.old ≡ 2544) × (length s.now ≤ 1073741824) }
    ensures { FillsFile (file_at s.now) d.old d.new result }
{
    let (contents, _) = contents::read(s, 0, s.len())?;
    if contents.validation < contents.header {
        return forward(s, contents, d);
    }
    backward(s, contents, d)
}

// How many bytes the schema records of so many columns take.
fn record_bytes(z: Sizes) -> usize
    requires { 16 * column_count z ≤ 2544 }
    ensures { result ≡ 16 * column_count z }
{
    16 * (1 + z.clustering as usize + z.statics as usize + z.regulars as usize)
}

// Reads a Statistics.db, and fills the start of out with its schema records.
pub fn read(file: &[u8], out: &mut [u8]) -> Result<Table, Refusal>
    ensures { Reads file.now out.old out.new result }
{
    if 1073741824 < file.len() {
        return Err(Fault::OverLimit.of(Slice::Statistics, 0));
    }
    if 1073741824 < out.len() {
        return Err(Fault::OverLimit.of(Slice::Output, 0));
    }
    let mut records = [0u8; 2544];
    let table = reading::within(read_file(file, &mut records), Slice::Statistics)?;
    let n = record_bytes(table.sizes);
    if out.len() < n {
        return Err(Fault::NoRoom.of(Slice::Output, n));
    }
    part::put_part(out, 0, &records, 0, n);
    Ok(table)
}
