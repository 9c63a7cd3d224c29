// Answers a question about the gym file on standard input: `gym WORD [ARGUMENT..]`. The argument of
// some words names a second file.
//
// Proved: what is handed to `emit` is all that is to be said for the words, the text and the second
// file's, and on its stream; `run` answers the length of what is to be said. No contract can say
// what a call of C's does, nor that a call is made. So five things are left for the reader to see:
// `emit` hands its piece to the C library; `print_reply` calls it once, and for the listings
// `printing` has an `emit` of its own; `run` calls one of the two that print, once; `main` calls
// `run` once with what was read; and where a second file cannot be read whole, `second` says so and
// `run` is not called. That what is read of the words and the input is enough is a theorem
// (`ReadEnough`).
#![tactic(auto)]

mod replies;
mod second;
mod words;

ghost use Rattle.std.specs.Prelude.{◌≡◌, length};
ghost use Rattle.io.specs.Counts.{IsPrefixLen};
ghost use Rattle.gym.specs.Said.{spoken, said};
ghost use Rattle.gym.specs.Handed.{handed, reply_said, descriptor as descriptor_of};

use printing::{INPUT, print_for};
use replies::{Given, ROOM, Stream, put_reply, stream_of};
use second::{has_second, read_second, room};
use std::env::FillError;
use std::rt::Env;
use words::{Command, Reply, command_of};

// What is read of a word: one byte more than a path row may have. What is longer is no word, no
// number, no row and no expression.
const WORD: usize = 257;

// The descriptor of a stream.
fn descriptor(on: Stream) -> i32
    ensures answer { result ≡ descriptor_of on }
{
    match on {
        Stream::Out => 1,
        Stream::Err => 2,
    }
}

// The one function here that writes. What a call of C's writes cannot be promised, so what it is
// handed is asked: all that is said, and on which stream. How much that is.
fn emit(q: Reply, given: Given, on: Stream, piece: &[u8]) -> usize
    requires due { spoken on piece.now ≡ reply_said q given }
    ensures answer { result ≡ length piece.now }
{
    io::write_all(descriptor(on), piece);
    piece.len()
}

// A reply, made in one piece; how much was handed over.
fn print_reply(q: Reply, given: Given) -> usize
    ensures answer { result ≡ length (reply_said q given.entry).text }
{
    let mut out = [0u8; ROOM];
    let size = put_reply(q, given, &mut out);
    emit(q, given, stream_of(q), &out[..size])
}

// What is said for so many words, of which the first three are given, an input, and the second file
// if they name one; how much was handed over.
fn run(count: usize, name: &[u8], given: Given) -> usize
    ensures answer { result ≡ length (said
        (handed count name.now given.entry.first.now given.entry.second.now)
        given.entry.text.now given.entry.more.now).text }
{
    match command_of(count, name, given.first) {
        Command::Listings => print_for(given.text),
        Command::One(q) => print_reply(q, given),
    }
}

// Is there a word i, the program's own name being word 0?
fn is_given(rt: &impl Env, i: usize) -> bool {
    let mut none = [0u8; 0];
    !matches!(rt.arg(i, &mut none), Err(FillError::NotPresent))
}

// How many words were given; the program's own name is not counted.
fn words_given(rt: &impl Env) -> usize {
    (1..usize::MAX).take_while(|i| is_given(rt, *i)).count()
}

// Word i, the program's own name being word 0: as much of it as fits.
fn read_word(rt: &impl Env, i: usize, buf: &mut [u8]) -> usize
    ensures answer { IsPrefixLen result buf.new }
{
    match rt.arg(i, buf) {
        Ok(n) => n,
        Err(FillError::TooLong) => buf.len(),
        Err(FillError::NotPresent) => 0,
    }
}

// The gym file; the usage text needs none, and does not wait for one.
fn read_file(c: Command, text: &mut [u8]) -> usize
    ensures answer { IsPrefixLen result text.new }
{
    match c {
        Command::One(Reply::Help | Reply::Usage) => 0,
        _ => io::read_full(0, text),
    }
}

// Reads the second file and then the gym file, and answers. The room for the second file is large,
// so that only the words that have one clear it.
fn run_with_second(rt: &HostRuntime, count: usize, name: &[u8], first: &[u8], second: &[u8]) {
    let mut more = room();
    let mut whole = false;
    let m = read_second(rt, 2, &mut more, &mut whole);
    if !whole {
        return;
    }
    let mut text = [0u8; INPUT];
    let size = read_file(command_of(count, name, first), &mut text);
    run(
        count,
        name,
        Given {
            first,
            second,
            text: &text[..size],
            more: &more[..m],
        },
    );
}

// Reads the gym file, and answers.
fn run_without(count: usize, name: &[u8], first: &[u8], second: &[u8]) {
    let mut text = [0u8; INPUT];
    let size = read_file(command_of(count, name, first), &mut text);
    run(
        count,
        name,
        Given {
            first,
            second,
            text: &text[..size],
            more: &[],
        },
    );
}

fn main(rt: HostRuntime) {
    let count = words_given(&rt);
    let mut name = [0u8; WORD];
    let mut first = [0u8; WORD];
    let mut second = [0u8; WORD];
    let n = read_word(&rt, 1, &mut name);
    let a = read_word(&rt, 2, &mut first);
    let b = read_word(&rt, 3, &mut second);
    if has_second(command_of(count, &name[..n], &first[..a])) {
        run_with_second(&rt, count, &name[..n], &first[..a], &second[..b]);
    } else {
        run_without(count, &name[..n], &first[..a], &second[..b]);
    }
}
