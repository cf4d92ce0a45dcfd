//! The system's files, streams and words: that the adapters over them hand on what is there, whole and in order.

use super::looks::{check_same, check_that};
use hood_io::{ErrSink, Failed, Fetched, FileShelf, Shelf, StreamSink, given_words, put_all};
use std::alloc::Global;
use std::env::{Env, FillError};
use std::fs::{self, File};
use std::io::{self, Read, Write};
use std::process::Abort;
use std::test::Fail;

/// Fetches a file up to this many bytes, and looks at the answer and at what is read.
fn check_fetch(
    rt: &impl Abort,
    alloc: Global,
    shelf: &mut impl Shelf,
    into: &mut Vec<u8>,
    name: &str,
    limit: usize,
    answer: Fetched,
    read: &[u8],
) {
    let fetched = shelf.fetch(alloc, name, limit, into);
    check_same(rt, &fetched, &answer, name);
    check_that(rt, into.as_slice() == read, name);
}

#[test]
fn a_file_is_read_up_to_its_limit(rt: HostRuntime) {
    let file = "lower_tests_file";
    let text = b"12345678".as_slice();
    fs::write(&rt, file, text).expect(&rt, "a file");
    let mut shelf = FileShelf::new(&rt);
    let mut into = Vec::from_slice(rt.alloc(), b"before").expect(&rt, "memory");
    for (name, limit, answer, read) in [
        (file, 8, Fetched::Done, text),
        (file, 7, Fetched::TooLong, text),
        ("lower_tests_absent", 8, Fetched::Failed, b""),
    ] {
        check_fetch(
            &rt,
            rt.alloc(),
            &mut shelf,
            &mut into,
            name,
            limit,
            answer,
            read,
        );
    }
    fs::remove_file(&rt, file).expect(&rt, "a file");
}

/// A file of more than half of a design's limit, which no one read gives whole.
#[test]
fn a_long_file_is_read_whole(rt: HostRuntime) {
    let file = "lower_tests_long_file";
    let mut text = Vec::new(rt.alloc());
    text.resize(600_000, b'x').expect(&rt, "memory");
    text.push(b'y').expect(&rt, "memory");
    fs::write(&rt, file, text.as_slice()).expect(&rt, "a file");
    let mut shelf = FileShelf::new(&rt);
    let mut into = Vec::new(rt.alloc());
    for (limit, answer) in [
        (1_048_576, Fetched::Done),
        (600_001, Fetched::Done),
        (600_000, Fetched::TooLong),
    ] {
        check_fetch(
            &rt,
            rt.alloc(),
            &mut shelf,
            &mut into,
            file,
            limit,
            answer,
            &text,
        );
    }
    fs::remove_file(&rt, file).expect(&rt, "a file");
}

/// A stream that takes at most three bytes of a piece, and none where it has no room left.
#[derive(Drop)]
struct Narrow {
    held: Vec<u8>,
    room: usize,
}

impl Write for Narrow {
    fn write(&mut self, buf: &[u8]) -> io::Result<usize> {
        let count = buf.len().min(3).min(self.room);
        let (front, _) = buf.split_at(count);
        self.held.extend_from_slice(front)?;
        self.room -= count;
        Ok(count)
    }

    fn flush(&mut self) -> io::Result<()> {
        Ok(())
    }
}

/// Puts a text to a stream with this room, and looks at the answer and at what the stream holds.
fn check_put(
    rt: &impl Abort,
    alloc: Global,
    text: &[u8],
    room: usize,
    answer: Result<(), Failed>,
    held: &[u8],
) {
    let mut stream = Narrow {
        held: Vec::new(alloc),
        room,
    };
    let put = put_all(&mut StreamSink::new(&mut stream), text);
    check_same(rt, &put, &answer, "the answer");
    check_that(rt, stream.held.as_slice() == held, "what the stream holds");
}

/// Each piece that a stream takes in part is followed by the rest, and what is told as written is what the stream holds.
#[test]
fn a_stream_that_takes_a_part_gets_the_rest(rt: HostRuntime) {
    let text = b"12345678".as_slice();
    for (room, answer, held) in [
        (9, Ok(()), text),
        (8, Ok(()), text),
        (7, Err(Failed), b"1234567"),
        (3, Err(Failed), b"123"),
        (0, Err(Failed), b""),
    ] {
        check_put(&rt, rt.alloc(), text, room, answer, held);
    }
}

#[test]
fn a_pipe_gets_a_text(rt: HostRuntime) {
    let (reader, writer) = io::pipe(&rt).expect(&rt, "a pipe");
    let mut reader = reader;
    let mut sink = StreamSink::new(writer);
    check_same(&rt, &put_all(&mut sink, b"to a pipe\n"), &Ok(()), "a pipe");
    drop(sink);
    let mut held = Vec::new(rt.alloc());
    reader.read_to_end(&mut held).expect(&rt, "a pipe");
    check_that(
        &rt,
        held.as_slice() == b"to a pipe\n".as_slice(),
        "what the pipe gave",
    );
}

#[test]
fn a_full_device_takes_nothing(rt: HostRuntime) {
    let full = File::options()
        .write(true)
        .open(&rt, "/dev/full")
        .expect(&rt, "a file");
    let mut sink = StreamSink::new(full);
    check_same(
        &rt,
        &put_all(&mut sink, b"to a full device\n"),
        &Err(Failed),
        "a text",
    );
    check_same(&rt, &put_all(&mut sink, b""), &Ok(()), "nothing");
}

#[test]
fn standard_error_takes_a_text(rt: HostRuntime) {
    let mut err = ErrSink::new(rt.stderr());
    check_same(
        &rt,
        &put_all(&mut err, b"to standard error\n"),
        &Ok(()),
        "a text",
    );
}

/// A command line: the program's name, and its words.
#[derive(Drop)]
struct Line(&'static [&'static [u8]]);

impl Env for Line {
    fn arg(&self, i: usize, buf: &mut [u8]) -> Result<usize, FillError> {
        let word = self.0.get(i).ok_or(FillError::NotPresent)?;
        if buf.len() < word.len() {
            return Err(FillError::TooLong);
        }
        let (front, _) = buf.split_at_mut(word.len());
        front.copy_from_slice(word);
        Ok(word.len())
    }

    fn var(&self, _name: &str, _buf: &mut [u8]) -> Result<usize, FillError> {
        Err(FillError::NotPresent)
    }

    fn var_at(&self, _i: usize, _buf: &mut [u8]) -> Result<usize, FillError> {
        Err(FillError::NotPresent)
    }
}

/// The words of a command line, with a semicolon behind each.
fn told_words(rt: &impl Abort, alloc: Global, line: &Line) -> String {
    let mut told = String::new(alloc);
    for word in &given_words(line, alloc).expect(rt, "memory") {
        told.push_str(word).expect(rt, "memory");
        told.push_str(";").expect(rt, "memory");
    }
    told
}

/// Command lines, and their words.
const LINES: &[(&[&[u8]], &str)] = &[
    (&[], ""),
    (&[b"hrthood"], ""),
    (&[b"hrthood", b"check", b"d"], "check;d;"),
    (&[b"hrthood", b"verify", b"", b"r s"], "verify;;r s;"),
    // A word that is not UTF-8.
    (&[b"hrthood", b"check", b"\xff"], ""),
];

#[test]
fn the_words_are_those_behind_the_name(rt: HostRuntime) {
    for (line, wanted) in LINES {
        let told = told_words(&rt, rt.alloc(), &Line(line));
        check_that(&rt, told.as_str() == *wanted, wanted);
    }
}
