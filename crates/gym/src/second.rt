// The second file of a word, which its argument names. What is read here is not proved: no contract
// can say what a call of C's reads. A file that cannot be opened or read, or is longer than the room
// for it, is said on standard error, and then the program says nothing else.
ghost use Rattle.std.specs.Prelude.{◌≡◌, length};
ghost use Rattle.io.specs.Counts.{IsPrefixLen};

use crate::words::{Command, Reply};
use std::env::FillError;
use std::fs::File;
use std::io::{Error, Read};
use std::os::fd::AsRawFd;
use std::rt::{Env, HostRuntime};

// The descriptor of standard error.
const STDERR: i32 = 2;

// The system's numbers for a word that is missing, a name that is too long, and one that is no text.
const INVALID: i32 = 22;

const TOO_LONG: i32 = 36;

const NO_TEXT: i32 = 84;

// The room for a second file: 1 MiB.
const MORE: usize = 1048576;

// That room, cleared. Only its length is told: a proof that had a million zeros at hand would count
// them.
pub fn room() -> [u8; MORE]
    ensures length { 1048576 ≡ length result }
{
    [0; MORE]
}

// Does the command have a second file?
pub fn has_second(c: Command) -> bool {
    matches!(c, Command::One(Reply::Back | Reply::Undot))
}

// What the C library says of an error: behind that std has its number.
fn reason(said: &str) -> &str {
    match said.split_once(" (os error ") {
        Some((words, _)) => words,
        None => said,
    }
}

// Says what failed, as the caller names it, and why.
fn fail(rt: &HostRuntime, what: &[u8], error: Error) {
    io::write_all(STDERR, what);
    io::write_all(STDERR, b": ");
    if let Ok(said) = format!(in rt.alloc(); "{error}") {
        io::write_all(STDERR, reason(said.as_str()).as_bytes());
    }
    io::write_all(STDERR, b"\n");
}

// Says that the room is too short for a file.
fn say_longer(path: &[u8]) {
    io::write_all(STDERR, path);
    io::write_all(STDERR, b": longer than 1048576 bytes\n");
}

// Does an open file end here? If not, or if it cannot be read, that is said.
fn ends(rt: &HostRuntime, file: &mut File, path: &[u8]) -> bool {
    let mut one = [0u8; 1];
    match file.read(&mut one) {
        Ok(0) => true,
        Ok(_) => {
            say_longer(path);
            false
        }
        Err(e) => {
            fail(rt, path, e);
            false
        }
    }
}

// Reads an open file to its end. Returns how many bytes it put at the front of the room.
fn read_open(
    rt: &HostRuntime,
    file: &mut File,
    path: &[u8],
    room: &mut [u8],
    whole: &mut bool,
) -> usize
    ensures answer { IsPrefixLen result room.new }
{
    let n = io::read_full(file.as_raw_fd(), room);
    *whole = ends(rt, file, path);
    n
}

// Opens the file of a name for reading. std takes a name that is text.
fn open(rt: &HostRuntime, path: &[u8]) -> Result<File, Error> {
    match str::from_utf8(path) {
        Ok(name) => File::open(rt, name),
        Err(_) => Err(Error::from_raw_os_error(NO_TEXT)),
    }
}

// Reads the file of a name; `whole` becomes true if all of it was read.
fn read_named(rt: &HostRuntime, path: &[u8], room: &mut [u8], whole: &mut bool) -> usize
    ensures answer { IsPrefixLen result room.new }
{
    match open(rt, path) {
        Ok(mut file) => read_open(rt, &mut file, path, room, whole),
        Err(e) => {
            fail(rt, path, e);
            0
        }
    }
}

// Reads the file that word i names; `whole` becomes true if all of it was read.
pub fn read_second(rt: &HostRuntime, i: usize, room: &mut [u8], whole: &mut bool) -> usize
    ensures answer { IsPrefixLen result room.new }
{
    let mut path = io::buffer();
    let error = match rt.arg(i, &mut path) {
        Ok(n) => return read_named(rt, &path[..n], room, whole),
        Err(FillError::TooLong) => TOO_LONG,
        Err(FillError::NotPresent) => INVALID,
    };
    fail(rt, b"gym", Error::from_raw_os_error(error));
    0
}
