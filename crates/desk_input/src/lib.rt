// Reading files in pieces. No contract can say which bytes come; these say how many the buffer holds then, and that
// the bytes before them stay. Where a read or an opening fails, nothing comes of it, and the reason is printed.
#![tactic(auto)]

pub mod source;

ghost use Rattle.std.specs.Prelude.{◌≡◌, ◌+◌, ◌<◌, ◌≤◌, ◌^◌, length};
ghost use Rattle.std.specs.Option.{is_some};
ghost use Rattle.desk_input.specs.Reading.{piece_of, Reads, Whole, ReadIfOpen, FileRead};

use desk_output::reported;
use std::fs::File;
use std::io::{Error, ErrorKind, Read};
use std::rt::Files;
use std::{io, str};

// How many bytes a buffer holds after a read of `got` bytes into the room after its first n bytes.
#[tactic(auto, unfolding(crate::specs::Reading::piece_of))]
fn piece_of(got: Option<usize>, n: usize, room: &[u8]) -> Option<usize>
    requires { n + length room.now < 2 ^ 64 }
    ensures { result ≡ piece_of got n (length room.now) }
{
    let k = got?;
    Some(n + k.min(room.len()))
}

// Reads once, into the bytes from place n on, and gives how many bytes the buffer holds then.
pub fn read_piece<R: Read, E: Print>(
    input: &mut R,
    errors: &E,
    name: &[u8],
    buf: &mut [u8],
    n: usize,
) -> Option<usize>
    requires { n ≤ length buf.old }
    ensures { Reads buf.old n result buf.new }
{
    let got = reported(errors, name, input.read(&mut buf[n..]));
    piece_of(got, n, &buf[n..])
}

// Reads until the buffer is full, the input ends or a read fails, and gives how many bytes the buffer holds then: a
// number and no slice, since `Whole` says what becomes of all of the buffer.
pub fn read_whole<R: Read, E: Print>(
    input: &mut R,
    errors: &E,
    name: &[u8],
    buf: &mut [u8],
) -> Option<usize>
    ensures { Whole buf.old result buf.new }
{
    let mut n = 0;
    while n < buf.len() {
        let k = read_piece(input, errors, name, buf, n)?;
        if k == n {
            return Some(k);
        }
        n = k;
    }
    Some(n)
}

// Opens a file. std opens files by names that are text alone, so any other name is an error here.
fn open<R: Files>(files: &R, path: &[u8]) -> io::Result<R::File> {
    let Ok(name) = str::from_utf8(path) else {
        return Err(Error::new(ErrorKind::InvalidInput, "the file name is not UTF-8"));
    };
    File::open(files, name)
}

// Reads an open file as `read_whole` does, and closes it.
fn read_open<F: Read + Drop, E: Print>(
    file: Option<F>,
    errors: &E,
    path: &[u8],
    buf: &mut [u8],
) -> Option<usize>
    ensures { ReadIfOpen (is_some file) buf.old result buf.new }
{
    let mut file = file?;
    read_whole(&mut file, errors, path, buf)
}

// Opens a file, reads it as `read_whole` does, and closes it.
pub fn read_file<R: Files, E: Print>(
    files: &R,
    errors: &E,
    path: &[u8],
    buf: &mut [u8],
) -> Option<usize>
    ensures { FileRead buf.old result buf.new }
{
    let file = reported(errors, path, open(files, path));
    read_open(file, errors, path, buf)
}
