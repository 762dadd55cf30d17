// What a program is given: its input, read to its end, the files and the place that its arguments name; and what is wrong with them.
#![tactic(auto)]

pub mod complaint;

ghost use Rattle.std.specs.Prelude.{◌<◌, ◌≤◌, length, take, IfOk, IfSome};
ghost use Rattle.std.specs.Io.{ReadsAtMost};
ghost use Rattle.std.specs.Io.KnownBytes.{Consumes, IsAtEnd};

use complaint::{no_argument, no_place, unread, unread_file};
use dump::place::place;
use fields::part::part;
use std::env::{Env, FillError};
use std::fs::File;
use std::io;
use std::io::Read;

// The system's numbers of two errors: a name with a byte 0 in it, and one that is not UTF-8.
const EINVAL: i32 = 22;

const EILSEQ: i32 = 84;

// The longest bench file, and one byte more, which tells a longer one.
pub const BENCH: usize = 65537;

// Until the end of input, or until the buffer is full, however many pieces it comes in. Answers how many bytes came. An index counts them,
// since `read_exact` of the library tells a short input from a whole one, but not how short it is.
pub fn read_all<R: Read>(from: &mut R, buf: &mut [u8]) -> io::Result<usize>
    ensures bound { ReadsAtMost result buf.new }
    ensures bytes { IfOk result (λ n. Consumes (R.remaining from.old) (R.remaining from.new) (take n buf.new)) }
    ensures end { IfOk result (λ n. n < length buf.new → IsAtEnd (R.remaining from.new)) }
{
    let mut n = 0;
    while n < buf.len() {
        let more = from.read(&mut buf[n..])?;
        if more == 0 {
            return Ok(n);
        }
        n += more;
    }
    Ok(n)
}

// The library takes names in UTF-8 alone. A name of 4,096 bytes or more names no file.
fn open(rt: HostRuntime, name: &[u8]) -> io::Result<File> {
    if name.contains(&0) {
        return Err(io::Error::from_raw_os_error(EINVAL));
    }
    let path = str::from_utf8(name).map_err(|_| io::Error::from_raw_os_error(EILSEQ))?;
    File::open(&rt, path)
}

// The file of a name, likewise. No clause of the library says which bytes a file has.
pub fn read_file(rt: HostRuntime, name: &[u8], buf: &mut [u8]) -> io::Result<usize>
    ensures { ReadsAtMost result buf.new }
{
    read_all(&mut open(rt, name)?, buf)
}

// The bench file of a name; none where it cannot be read, which is said. A buffer of one byte more than a bench file may have tells a
// longer one.
pub fn read_named<'a>(
    rt: HostRuntime,
    name: &[u8],
    file: &[u8],
    buf: &'a mut [u8],
) -> Option<&'a [u8]> {
    match read_file(rt, file, buf) {
        Ok(n) => Some(&buf[..n]),
        Err(error) => {
            unread_file(rt, name, file, error);
            None
        }
    }
}

// The bench on standard input, as a file or as text, as much as the buffer has room for; none where it cannot be read, which is said for
// the program of that name.
pub fn read_bench<'a>(rt: HostRuntime, name: &[u8], buf: &'a mut [u8]) -> Option<&'a [u8]>
    ensures { IfSome result (λ file. length file.now ≤ length buf.old) }
{
    match read_all(&mut rt.stdin(), buf) {
        Ok(n) => Some(&buf[..n]),
        Err(error) => {
            unread(rt, name, error);
            None
        }
    }
}

// The same for a program that takes no argument: where one is given, that is said and nothing is read. `input` is what comes on standard
// input.
pub fn read_alone<'a>(
    rt: HostRuntime,
    name: &[u8],
    input: &[u8],
    buf: &'a mut [u8],
) -> Option<&'a [u8]>
    ensures { IfSome result (λ file. length file.now ≤ length buf.old) }
{
    if argument_count(rt) != 1 {
        no_argument(rt, name, input);
        return None;
    }
    read_bench(rt, name, buf)
}

// How many arguments there are, the program's name among them.
pub fn argument_count(rt: HostRuntime) -> usize {
    let mut buf = [0u8; 1];
    for i in 0..usize::MAX {
        if let Err(FillError::NotPresent) = rt.arg(i, &mut buf) {
            return i;
        }
    }
    usize::MAX
}

// The length of an argument; of a long one the buffer has the start.
pub fn argument(rt: HostRuntime, i: usize, buf: &mut [u8]) -> usize {
    match rt.arg(i, buf) {
        Ok(n) => n,
        Err(FillError::TooLong) => buf.len(),
        Err(FillError::NotPresent) => 0,
    }
}

// The place in work RAM that the first argument names; where it names none, that is said.
#[tactic(auto, using(dump::proofs::Under::offset_named_under))]
pub fn place_given(rt: HostRuntime, name: &[u8]) -> Option<u32>
    ensures { IfSome result (λ at. at < 131072) }
{
    let mut buf = [0u8; 64];
    let n = argument(rt, 1, &mut buf);
    let word = part(&buf, 0, n);
    let at = place(word);
    if at.is_none() {
        no_place(rt, name, word);
    }
    at
}
