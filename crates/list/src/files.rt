// Reading the files of a folder.
ghost use Rattle.std.specs.Prelude.{◌≡◌, ◌+◌, ◌≤◌, length, IfOk, IfErr, IfSome};
ghost use Rattle.common.specs.Store.{Room, Puts};
ghost use Rattle.list.specs.Files.{name_of, path_of, Loads};

use common::part;
use std::io::Read;
use std::rt::Files;
use std::{fs, io};

// Says what is not listed, and why. An error is the output's: the line may then be cut short.
pub(crate) fn say(rt: &impl Print, folder: &[u8], name: &[u8], why: &[u8]) -> io::Result<()> {
    rt.write_all(b"not listed: ")?;
    rt.write_all(folder)?;
    rt.write_all(b"/")?;
    rt.write_all(name)?;
    rt.write_all(why)
}

// Stores the bytes w at at: the place after them.
fn put_bytes(d: &mut [u8], at: usize, w: &[u8]) -> usize
    requires { Room d.old at w.now }
    ensures { Puts d.old d.new at w.now result }
{
    part::put_part(d, at, w, 0, w.len())
}

// Stores a slash and a file's name.
fn put_name(d: &mut [u8], at: usize, name: &[u8]) -> usize
    requires { Room d.old at (name_of name.now) }
    ensures { Puts d.old d.new at (name_of name.now) result }
{
    let next = put_bytes(d, at, b"/");
    put_bytes(d, next, name)
}

// Stores a file's path at the start of d: how many bytes it has.
fn put_path(d: &mut [u8], folder: &[u8], name: &[u8]) -> usize
    requires { Room d.old 0 (path_of folder.now name.now) }
    ensures puts { Puts d.old d.new 0 (path_of folder.now name.now) result }
    ensures upper_bound { result ≤ length folder.now + 1 + length name.now }
{
    let next = put_bytes(d, 0, folder);
    put_name(d, next, name)
}

// Opens the file of the path that is the first n bytes. A path is text: one that is not UTF-8 cannot be opened.
fn open_path<R: Files>(rt: &R, path: &[u8], n: usize) -> Option<R::File>
    requires { n ≤ length path.now }
{
    let text = str::from_utf8(&path[..n]).ok()?;
    fs::open(rt, text).ok()
}

// Opens a file of a folder, where it can be opened.
fn open_in<R: Files>(rt: &R, folder: &[u8], name: &[u8]) -> Option<R::File>
    requires { length name.now ≤ 64 }
{
    let mut path = [0u8; 4200];
    if folder.len() > 4096 {
        return None;
    }
    let n = put_path(&mut path, folder, name);
    open_path(rt, &path, n)
}

// Reads until buf is full or the input ends: how many bytes were put at the start of buf.
fn read_full(file: &mut impl Read, buf: &mut [u8]) -> io::Result<usize>
    ensures { IfOk result (λ n. n ≤ length buf.new) }
{
    let mut done = 0;
    // A read gives as many bytes as it likes: how many steps there are is not known before.
    while done < buf.len() {
        let n = file.read(&mut buf[done..])?;
        if n == 0 {
            break;
        }
        done += n;
    }
    Ok(done)
}

// Reads all of a file into buf: how many bytes it has, or None where it has more than buf.
fn read_file(file: &mut impl Read, buf: &mut [u8]) -> io::Result<Option<usize>>
    ensures { IfOk result (λ r. IfSome r (λ n. n ≤ length buf.new)) }
{
    let n = read_full(file, buf)?;
    let mut more = [0u8; 1];
    let got = file.read(&mut more)?;
    if got == 0 { Ok(Some(n)) } else { Ok(None) }
}

// Reads all of a file into buf, from its start on: how many bytes it has, or None where it is not listed, which was said. An error is
// the output's, where what is not listed could not be said: buf then has as many bytes as before, and which they are is open.
pub(crate) fn load(
    rt: &(impl Files + Print),
    folder: &[u8],
    name: &[u8],
    buf: &mut [u8],
) -> io::Result<Option<usize>>
    requires { length name.now ≤ 64 }
    ensures ok { IfOk result (λ loaded. Loads loaded buf.new) }
    ensures err { IfErr result (λ _. length buf.new ≡ length buf.old) }
{
    let Some(mut file) = open_in(rt, folder, name) else {
        say(rt, folder, name, b" cannot be opened\n")?;
        return Ok(None);
    };
    match read_file(&mut file, buf) {
        Ok(Some(n)) => Ok(Some(n)),
        Ok(None) => {
            say(rt, folder, name, b" is too long\n")?;
            Ok(None)
        }
        Err(_) => {
            say(rt, folder, name, b" cannot be read\n")?;
            Ok(None)
        }
    }
}
