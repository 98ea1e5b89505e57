// What the program is given from outside: its arguments, standard input, a file. What comes no contract can say: the functions here promise how
// many bytes or words there are at most, and no more. What cannot be read is the end, as what has ended is, and no error.
#![tactic(auto)]

ghost use Rattle.std.specs.Prelude.{◌≡◌, ◌≤◌, length, IfSome};
ghost use Rattle.outside.specs.Counts.{IsPrefixLen};

use std::env::FillError;
use std::fs::File;
use std::io::{Input, Read};
use std::rt::{Env, Files};

// 4,096 zeros, which hold any path.
pub fn buffer() -> [u8; 4096]
    ensures { 4096 ≡ length result }
{
    [0; 4096]
}

// Puts argument i at the start of the buffer. How many bytes it has: none where there is no such argument, nor where it does not fit.
pub fn arg(rt: &impl Env, i: usize, buf: &mut [u8]) -> usize
    ensures { IsPrefixLen result buf.new }
{
    rt.arg(i, buf).unwrap_or(0)
}

fn is_missing(rt: &impl Env, i: usize) -> bool {
    let mut buf = [0u8; 1];
    matches!(rt.arg(i, &mut buf), Err(FillError::NotPresent))
}

// No command has more than four words, the program's own name among them: a fifth shows that there are too many.
pub const MOST_WORDS: usize = 5;

// How many arguments there are, the program's own name among them, or `MOST_WORDS` where there are more.
pub fn arg_count(rt: &impl Env) -> usize
    ensures { result ≤ MOST_WORDS }
{
    (0..MOST_WORDS)
        .find(|&i| is_missing(rt, i))
        .unwrap_or(MOST_WORDS)
}

// What a read gives: no byte at the end, nor where it fails.
pub fn read_some<R: Read>(from: &mut R, buf: &mut [u8]) -> usize
    ensures { IsPrefixLen result buf.new }
{
    from.read(buf).unwrap_or(0)
}

// Reads until the buffer is full or a read gives no byte. No `for`: how far a turn goes is what its read gives.
pub fn read_full<R: Read>(from: &mut R, buf: &mut [u8]) -> usize
    ensures { IsPrefixLen result buf.new }
{
    let mut done = 0;
    while done < buf.len() {
        match read_some(from, &mut buf[done..]) {
            0 => break,
            n => done += n,
        }
    }
    done
}

// What one read of standard input gives.
pub fn read_chunk(rt: &impl Input, buf: &mut [u8]) -> usize
    ensures { IsPrefixLen result buf.new }
{
    let mut input = rt.reader();
    read_some(&mut input, buf)
}

// Reads standard input until the buffer is full or a read gives no byte.
pub fn read_input(rt: &impl Input, buf: &mut [u8]) -> usize
    ensures { IsPrefixLen result buf.new }
{
    let mut input = rt.reader();
    read_full(&mut input, buf)
}

// The same of the file at a path, if it can be opened. A path that is not UTF-8 opens none: the library has no way to name it.
pub fn read_file(rt: &impl Files, path: &[u8], buf: &mut [u8]) -> Option<usize>
    ensures { IfSome result (λ n. IsPrefixLen n buf.new) }
{
    let path = str::from_utf8(path).ok()?;
    let mut file = File::open(rt, path).ok()?;
    Some(read_full(&mut file, buf))
}
