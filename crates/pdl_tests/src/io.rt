//! Each call once, with sources and sinks in memory and over a reader and a writer that fail.
ghost use Rattle.std.specs.Prelude.{◌≤◌};

use crate::comparing::{same, same_list};
use pdl_io::*;
use std::alloc::Global;
use std::cell::Cell;
use std::io::{self, ErrorKind, Read, Write};
use std::process::Abort;

// A read with a piece of this length answers this, and these bytes come.
fn reads(
    rt: &impl Abort,
    alloc: Global,
    source: &mut MemSource,
    size: usize,
    answer: Result<usize, Failed>,
    came: &[u8],
) {
    let mut piece = Vec::from_elem(alloc, b'.', size).expect(rt, "memory");
    same(rt, source.read(&mut piece), answer);
    assert!(rt; piece.starts_with(came));
}

#[test]
fn a_source_in_memory_gives_its_bytes(rt: HostRuntime) {
    let rt = &rt;
    let alloc = rt.alloc();
    let bytes = Vec::from_slice(alloc, b"abcdefg").expect(rt, "memory");
    let failing = Vec::from_slice(alloc, &[1]).expect(rt, "memory");
    let mut source = MemSource::new(bytes, 3, failing);
    reads(rt, alloc, &mut source, 2, Ok(2), b"ab");
    reads(rt, alloc, &mut source, 2, Err(Failed), b"");
    reads(rt, alloc, &mut source, 5, Ok(3), b"cde");
    reads(rt, alloc, &mut source, 0, Ok(0), b"");
    reads(rt, alloc, &mut source, 5, Ok(2), b"fg");
    reads(rt, alloc, &mut source, 5, Ok(0), b"");
}

#[test]
fn a_sink_in_memory_takes_and_fails(rt: HostRuntime) {
    let rt = &rt;
    let failing = Vec::from_slice(rt.alloc(), &[1]).expect(rt, "memory");
    let mut sink = MemSink::with_room(rt.alloc(), 5, 2, failing).expect(rt, "memory");
    same(rt, sink.write(b"abc"), Ok(2));
    // the list
    same(rt, sink.flush(), Err(Failed));
    same(rt, sink.write(b"cde"), Ok(2));
    // past the room
    same(rt, sink.write(b"ef"), Err(Failed));
    same_list(rt, sink.bytes(), b"abcd");
    same(rt, sink.write(b"e"), Ok(1));
    same(rt, sink.write(b""), Ok(0));
    same(rt, sink.flush(), Ok(()));
    same_list(rt, sink.bytes(), b"abcde");
    same(rt, sink.faults(), 2);
}

#[test]
fn a_sink_counts(rt: HostRuntime) {
    let rt = &rt;
    let mut sink = CountSink::new();
    same(rt, sink.write(b"[60 382 430 "), Ok(12));
    same(rt, sink.write(b""), Ok(0));
    same(rt, sink.write(b"478]\n"), Ok(5));
    same(rt, sink.flush(), Ok(()));
    same(rt, sink.count(), 17);
    same(rt, sink.sum(), 863);
}

// Where a write takes at most so many bytes and these calls fail, `hello` is answered so, and so
// much of it is taken.
fn writes(
    rt: &impl Abort,
    alloc: Global,
    most: usize,
    failing: &[u64],
    answer: Result<(), Failed>,
    taken: &[u8],
)
    requires { 1 ≤ most }
{
    let failing = Vec::from_slice(alloc, failing).expect(rt, "memory");
    let mut sink = MemSink::with_room(alloc, 8, most, failing).expect(rt, "memory");
    same(rt, write_all(&mut sink, b"hello"), answer);
    same_list(rt, sink.bytes(), taken);
}

#[test]
fn a_text_is_written_whole_or_in_part(rt: HostRuntime) {
    let rt = &rt;
    let alloc = rt.alloc();
    writes(rt, alloc, 1, &[], Ok(()), b"hello");
    writes(rt, alloc, 2, &[], Ok(()), b"hello");
    writes(rt, alloc, 2, &[2], Err(Failed), b"hell");
    writes(rt, alloc, 9, &[0], Err(Failed), b"");
}

// What was asked of a reader or a writer: how many reads or writes, how long
// the piece of the last one was, and how many flushes.
#[derive(Drop)]
struct Asked {
    calls: Cell<u32>,
    length: Cell<usize>,
    flushes: Cell<u32>,
}

impl Asked {
    fn nothing() -> Asked {
        Asked {
            calls: Cell::new(0),
            length: Cell::new(0),
            flushes: Cell::new(0),
        }
    }

    // Counts a call with a piece of this length, and returns its number from 1.
    fn call(&self, length: usize) -> u32 {
        self.calls.set(self.calls.get().saturating_add(1));
        self.length.set(length);
        self.calls.get()
    }
}

// A reader that gives one `x` at each read, and fails at its second one.
#[derive(Drop)]
struct Stumbling<'a> {
    asked: &'a Asked,
}

impl Read for Stumbling<'_> {
    fn read(&mut self, buf: &mut [u8]) -> io::Result<usize> {
        if self.asked.call(buf.len()) == 2 {
            return Err(io::Error::from(ErrorKind::Other));
        }
        if buf.is_empty() {
            return Ok(0);
        }
        buf[0] = b'x';
        Ok(1)
    }
}

// A writer that takes at most four bytes, takes nothing at its second write, and
// fails at the third one and at its second flush.
#[derive(Drop)]
struct Slow<'a> {
    asked: &'a Asked,
}

impl Write for Slow<'_> {
    fn write(&mut self, buf: &[u8]) -> io::Result<usize> {
        match self.asked.call(buf.len()) {
            2 => Ok(0),
            3 => Err(io::Error::from(ErrorKind::Other)),
            _ => Ok(buf.len().min(4)),
        }
    }

    fn flush(&mut self) -> io::Result<()> {
        let flushes = self.asked.flushes.get().saturating_add(1);
        self.asked.flushes.set(flushes);
        if flushes == 2 {
            return Err(io::Error::from(ErrorKind::Other));
        }
        Ok(())
    }
}

#[test]
fn a_reader_is_a_source(rt: HostRuntime) {
    let rt = &rt;
    let mut piece = [b'.'; 4];
    let asked = Asked::nothing();
    let mut source = ReadSource::new(Stumbling { asked: &asked });
    same(rt, source.read(&mut piece), Ok(1));
    // one read is one of the reader, and the whole piece is passed on
    same(rt, asked.calls.get(), 1);
    same(rt, asked.length.get(), 4);
    // a read that failed isn't tried again
    same(rt, source.read(&mut piece), Err(Failed));
    same(rt, asked.calls.get(), 2);
    same(rt, source.read(&mut piece), Ok(1));
    same_list(rt, &piece, b"x...");
}

#[test]
fn a_list_is_a_source(rt: HostRuntime) {
    let rt = &rt;
    let mut piece = [b'.'; 4];
    let mut source = ReadSource::new(b"ab".as_slice());
    same(rt, source.read(&mut piece), Ok(2));
    same(rt, source.read(&mut piece), Ok(0));
    same_list(rt, &piece, b"ab..");
}

#[test]
fn a_writer_is_a_sink(rt: HostRuntime) {
    let rt = &rt;
    let asked = Asked::nothing();
    let mut sink = WriteSink::new(Slow { asked: &asked });
    same(rt, sink.write(b"hello"), Ok(4));
    // one write is one of the writer, and the whole piece is passed on
    same(rt, asked.calls.get(), 1);
    same(rt, asked.length.get(), 5);
    // nothing was taken, and then a write failed: neither is tried again
    same(rt, sink.write(b"hello"), Err(Failed));
    same(rt, sink.write(b"hello"), Err(Failed));
    same(rt, sink.write(b""), Ok(0));
    same(rt, asked.calls.get(), 4);
    // a flush is passed on, and one that failed isn't tried again
    same(rt, asked.flushes.get(), 0);
    same(rt, sink.flush(), Ok(()));
    same(rt, asked.flushes.get(), 1);
    same(rt, sink.flush(), Err(Failed));
    same(rt, asked.flushes.get(), 2);
}

#[test]
fn a_text_ends_at_a_failed_write(rt: HostRuntime) {
    let rt = &rt;
    let asked = Asked::nothing();
    let mut sink = WriteSink::new(Slow { asked: &asked });
    same(rt, write_all(&mut sink, b"hello, world"), Err(Failed));
    // no write follows the failed one, and all that is left is passed on
    same(rt, asked.calls.get(), 2);
    same(rt, asked.length.get(), 8);
    same(rt, asked.flushes.get(), 0);
}

// A writer of which those calls fail whose bits are set, from the lowest on.
#[derive(Drop)]
struct Chosen<'a> {
    failing: &'a Cell<u32>,
}

impl Chosen<'_> {
    fn answer(&self) -> io::Result<()> {
        let failing = self.failing.get();
        self.failing.set(failing / 2);
        if failing % 2 == 1 {
            return Err(io::Error::from(ErrorKind::Other));
        }
        Ok(())
    }
}

impl Write for Chosen<'_> {
    fn write(&mut self, buf: &[u8]) -> io::Result<usize> {
        self.answer()?;
        Ok(buf.len())
    }

    fn flush(&mut self) -> io::Result<()> {
        self.answer()
    }
}

fn answer<T: Drop>(fails: bool, value: T) -> Result<T, Failed> {
    if fails {
        return Err(Failed);
    }
    Ok(value)
}

// Two writes and two flushes fail where the writer's do, whatever failed before.
fn fails_where_its_writer_does(rt: &impl Abort, failing: u32) {
    let left = Cell::new(failing);
    let mut sink = WriteSink::new(Chosen { failing: &left });
    same(rt, sink.write(b"ab"), answer(failing % 2 == 1, 2));
    same(rt, sink.flush(), answer(failing / 2 % 2 == 1, ()));
    same(rt, sink.write(b"c"), answer(failing / 4 % 2 == 1, 1));
    same(rt, sink.flush(), answer(failing / 8 == 1, ()));
}

#[test]
fn a_sink_fails_where_its_writer_does(rt: HostRuntime) {
    for failing in 0..16 {
        fails_where_its_writer_does(&rt, failing);
    }
}
