// Lists a table: reads Statistics.db and Data.db, together up to 65,536 bytes, and prints a line for each record, or the one line of a
// refusal. Its arguments name the folders to list, one after the other; without one it lists the current folder.
#![tactic(auto)]

mod files; // files.rt: reading the files
mod report; // report.rt: what is printed of them

use std::env::FillError;
use std::io;
use std::rt::{Env, Files};

// Whether two files of n and m bytes have together more than 65,536.
fn is_over(n: usize, m: usize) -> bool {
    if n > 65536 {
        return true;
    }
    m > 65536 - n
}

// Lists the files of a folder.
fn list_folder(rt: &(impl Files + Print), folder: &[u8]) -> io::Result<()> {
    let mut statistics = [0u8; 65536];
    let mut data = [0u8; 65536];
    let Some(n) = files::load(rt, folder, b"Statistics.db", &mut statistics)? else {
        return Ok(());
    };
    let Some(m) = files::load(rt, folder, b"Data.db", &mut data)? else {
        return Ok(());
    };
    if is_over(n, m) {
        return files::say(
            rt,
            folder,
            b"Data.db",
            b" makes more than 65,536 bytes together with Statistics.db\n",
        );
    }
    report::print(rt, &statistics, n, &data, m)
}

// Lists the folder that argument i names: whether there is such an argument.
fn list_argument(rt: &(impl Env + Files + Print), i: usize) -> io::Result<bool> {
    let mut folder = [0u8; 4096];
    match rt.arg(i, &mut folder) {
        Ok(0) => rt.write_all(b"not listed: a folder without a name\n")?,
        Ok(n) => list_folder(rt, &folder[..n])?,
        Err(FillError::TooLong) => {
            rt.write_all(b"not listed: a folder whose name is too long\n")?;
        }
        Err(FillError::NotPresent) => return Ok(false),
    }
    Ok(true)
}

fn main(rt: HostRuntime) -> io::Result<()> {
    if !list_argument(&rt, 1)? {
        return list_folder(&rt, b".");
    }
    for i in 2..usize::MAX {
        if !list_argument(&rt, i)? {
            break;
        }
    }
    Ok(())
}
