// What is printed of the two files.
ghost use Rattle.std.specs.Prelude.{◌≡◌, ◌*◌, ◌≤◌, length, take, IfOk, IfErr};
ghost use Rattle.stats_file.specs.Buffer.{column_count};
ghost use Rattle.print_page.specs.Pages.{page_at, answer_of, len_of};
ghost use Rattle.list.specs.Reports.{counted_at, begun_at, begun_of, Fit};

use common::refusal::Refusal;
use common::times::Bases;
use data_walk::cursors::Cursor;
use list_call::lists;
use print_line::refusals;
use print_page::Filled;
use stats_file::columns::Sizes;
use std::io;

// How many bytes the schema records of so many columns take.
fn record_bytes(z: Sizes) -> usize
    requires { 16 * column_count z ≤ 2544 }
    ensures { result ≡ 16 * column_count z }
{
    16 * (1 + z.clustering as usize + z.statics as usize + z.regulars as usize)
}

// Whether Data is listed, in a table of the bases whose schema records are the first len bytes: then the bases and len.
fn count(schema: &[u8], len: usize, bases: Bases, data: &[u8]) -> Result<(Bases, usize), Refusal>
    requires { (len ≤ 2544) × (2544 ≤ length schema.now) }
    ensures schema_value { begun_of result schema.now ≡ counted_at (take len schema.now) bases «data».now }
    ensures fit { Fit result }
{
    lists::count(&schema[..len], bases, data)?;
    Ok((bases, len))
}

// Reads Statistics, its schema records into schema, and tells whether Data is listed: known before the first line is printed. Then the
// bases, and how many bytes the schema records take.
fn begin(file: &[u8], data: &[u8], schema: &mut [u8]) -> Result<(Bases, usize), Refusal>
    requires { length schema.old ≡ 2544 }
    ensures schema_after { begun_of result schema.new ≡ begun_at file.now «data».now }
    ensures fit { Fit result }
{
    let table = stats_file::read(file, schema)?;
    let len = record_bytes(table.sizes);
    count(schema, len, table.bases, data)
}

// Prints the first n bytes. An error is the output's, here and below: some of what was to be printed may then be missing.
fn write(rt: &impl Print, page: &[u8], n: usize) -> io::Result<()>
    requires { n ≤ length page.now }
{
    rt.write_all(&page[..n])
}

// How many bytes of a page are filled.
fn length_of(filled: Filled) -> usize
    ensures { result ≡ len_of filled }
{
    match filled {
        Filled::More { len, cursor: _ } => len,
        Filled::Last(len) => len,
    }
}

// Prints the page of the cursor, by way of the buffer: what its filling answered. An error is the output's: the buffer has as many bytes
// as before, and the page may be printed in part.
fn print_by(
    rt: &impl Print,
    page: &mut [u8],
    schema: &[u8],
    bases: Bases,
    data: &[u8],
    cursor: Cursor,
) -> io::Result<Filled>
    requires { 4032 ≤ length page.old }
    ensures ok { IfOk result (λ filled. filled ≡ answer_of (page_at schema.now bases «data».now cursor)) }
    ensures err { IfErr result (λ _. length page.new ≡ length page.old) }
{
    let filled = print_page::fill_page(schema, bases, data, cursor, page);
    write(rt, page, length_of(filled))?;
    Ok(filled)
}

// Prints the page of the cursor. An error is the output's: the page may be printed in part, and nothing that was lent is changed.
fn print_page(
    rt: &impl Print,
    schema: &[u8],
    bases: Bases,
    data: &[u8],
    cursor: Cursor,
) -> io::Result<Filled>
    ensures { IfOk result (λ filled. filled ≡ answer_of (page_at schema.now bases «data».now cursor)) }
{
    let mut page = [0u8; 4096];
    print_by(rt, &mut page, schema, bases, data, cursor)
}

// Prints the lines of the listing.
fn print_lines(rt: &impl Print, schema: &[u8], bases: Bases, data: &[u8]) -> io::Result<()> {
    let mut x = Cursor::start();
    // A page begins where the last one ended.
    loop {
        match print_page(rt, schema, bases, data, x)? {
            Filled::More { len: _, cursor } => {
                x = cursor;
            }
            Filled::Last(_) => {
                return Ok(());
            }
        }
    }
}

// Prints the listing of Data, in a table whose schema records are the first len bytes.
fn print_listing(
    rt: &impl Print,
    schema: &[u8],
    len: usize,
    bases: Bases,
    data: &[u8],
) -> io::Result<()>
    requires { len ≤ length schema.now }
{
    print_lines(rt, &schema[..len], bases, data)
}

// Prints a refusal's line.
fn print_refusal(rt: &impl Print, refusal: Refusal) -> io::Result<()> {
    let mut page = [0u8; 4096];
    let len = refusals::put_refusal(&mut page, 0, refusal);
    write(rt, &page, len)
}

// Prints the listing of Data, or the refusal.
fn print_files(rt: &impl Print, file: &[u8], data: &[u8]) -> io::Result<()> {
    let mut schema = [0u8; 2544];
    match begin(file, data, &mut schema) {
        Ok((bases, len)) => print_listing(rt, &schema, len, bases, data),
        Err(refusal) => print_refusal(rt, refusal),
    }
}

// Prints what the files give: Statistics is the first n bytes of file, Data the first m of data.
pub(crate) fn print(rt: &impl Print, file: &[u8], n: usize, data: &[u8], m: usize) -> io::Result<()>
    requires { (n ≤ length file.now) × (m ≤ length «data».now) }
{
    print_files(rt, &file[..n], &data[..m])
}
