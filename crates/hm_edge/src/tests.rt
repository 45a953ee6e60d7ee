//! What no clause says: that calls succeed where memory is ample, and what files and faults do.
ghost use Rattle.std.specs.Prelude.{◌<◌, length};

use crate::file_shelf::FileShelf;
use crate::memory_shelf::MemoryShelf;
use crate::memory_sink::{MemorySink, SinkFail};
use crate::shelf::{Shelf, ShelfRefused};
use crate::sink::{Finish, Sink, SinkFailed};
use crate::stream_sink::{STREAM_CAPACITY, StreamSink};
use std::alloc::{AllocError, Global};
use std::io::{Error, ErrorKind, Write};
use std::process::Abort;
use std::test::Fail;
use std::{fs, io, process};

// A read through the bound answers this, and leaves this after ">".
fn read_gives<S: Shelf>(
    rt: &impl Abort,
    alloc: Global,
    shelf: &mut S,
    read: (&str, u64),
    want: (Result<(), ShelfRefused>, &str),
) -> Result<(), AllocError> {
    let mut into = b">".to_vec(alloc)?;
    let answer = shelf.read(read.0, &mut into, read.1);
    assert!(rt; answer == want.0);
    assert!(rt; into.as_slice() == want.1.as_bytes());
    Ok(())
}

// A put through the bound answers this.
fn put_gives<K: Sink>(rt: &impl Abort, sink: &mut K, piece: &[u8], want: Result<(), SinkFailed>)
    requires { 0 < length piece.now }
{
    let answer = sink.put(piece);
    assert!(rt; answer == want);
}

// A finish through the bound answers this.
fn finish_gives<K: Finish>(rt: &impl Abort, sink: &mut K, want: Result<(), SinkFailed>) {
    let answer = sink.finish();
    assert!(rt; answer == want);
}

const ALL: Result<(), SinkFailed> = Ok(());

fn only(wrote: u64) -> Result<(), SinkFailed> {
    Err(SinkFailed { wrote })
}

#[test]
fn a_shelf_in_memory_fails_where_it_was_told_to(rt: HostRuntime) -> Result<(), Fail> {
    let alloc = rt.alloc();
    let mut files = Vec::new(alloc);
    files.push((String::from_str(alloc, "a")?, b"one".to_vec(alloc)?))?;
    files.push((String::from_str(alloc, "a")?, b"two".to_vec(alloc)?))?;
    let mut shelf = MemoryShelf::new(files, [2].to_vec(alloc)?);
    for (read, want) in [
        (("a", 3), (Ok(()), ">one")),
        (("a", 3), (Err(ShelfRefused::Failed), ">")),
        (("a", 2), (Err(ShelfRefused::Long), ">")),
        (("b", 3), (Err(ShelfRefused::Failed), ">")),
        (("a", u64::MAX), (Ok(()), ">one")),
    ] {
        read_gives(&rt, alloc, &mut shelf, read, want)?;
    }
    Ok(())
}

#[test]
fn a_shelf_over_files_reads_up_to_the_limit(rt: HostRuntime) -> Result<(), Fail> {
    let alloc = rt.alloc();
    let id = process::id(rt.process());
    let path = format!(in alloc; "/tmp/hm_edge_{id}")?;
    fs::write(&rt, path.as_str(), "four")?;
    let mut shelf = FileShelf::new(&rt);
    for (read, want) in [
        ((path.as_str(), 4), (Ok(()), ">four")),
        ((path.as_str(), u64::MAX), (Ok(()), ">four")),
        ((path.as_str(), 3), (Err(ShelfRefused::Long), ">")),
        (("/tmp/hm_edge", 4), (Err(ShelfRefused::Failed), ">")),
        (("/tmp", 4), (Err(ShelfRefused::Failed), ">")),
        (("nul\0", 4), (Err(ShelfRefused::Failed), ">")),
    ] {
        read_gives(&rt, alloc, &mut shelf, read, want)?;
    }
    let long = vec![in alloc; b'x'; 40_000]?;
    fs::write(&rt, path.as_str(), long.as_slice())?;
    let mut into = Vec::new(alloc);
    assert!(rt; shelf.read(path.as_str(), &mut into, 40_000) == Ok(()));
    assert!(rt; into.as_slice() == long.as_slice());
    assert!(rt; shelf.read(path.as_str(), &mut into, 39_999) == Err(ShelfRefused::Long));
    fs::remove_file(&rt, path.as_str())?;
    Ok(())
}

#[test]
fn a_sink_in_memory_takes_what_fits_and_what_it_was_told_to(rt: HostRuntime) -> Result<(), Fail> {
    let alloc = rt.alloc();
    let mut fails = Vec::new(alloc);
    for (call, wrote) in [(2, 1), (2, 9), (4, 9)] {
        fails.push(SinkFail { call, wrote })?;
    }
    let mut sink = MemorySink::new(alloc, 8, fails)?;
    put_gives(&rt, &mut sink, b"ab", ALL);
    put_gives(&rt, &mut sink, b"cd", only(1));
    put_gives(&rt, &mut sink, b"ef", ALL);
    put_gives(&rt, &mut sink, b"g", only(1));
    put_gives(&rt, &mut sink, b"hij", only(2));
    put_gives(&rt, &mut sink, b"k", only(0));
    finish_gives(&rt, &mut sink, ALL);
    assert!(rt; sink.bytes() == b"abcefghi".as_slice());
    Ok(())
}

// A stream that takes at most three bytes a write, is interrupted at the second write, and fails
// once it has `room` bytes.
#[derive(Drop)]
struct Narrow {
    bytes: Vec<u8>,
    writes: u32,
    room: usize,
}

impl Narrow {
    fn new(alloc: Global, room: usize) -> Narrow {
        Narrow {
            bytes: Vec::new(alloc),
            writes: 0,
            room,
        }
    }
}

impl Write for Narrow {
    fn write(&mut self, buf: &[u8]) -> io::Result<usize> {
        self.writes = self.writes.saturating_add(1);
        if self.writes == 2 {
            return Err(Error::from(ErrorKind::Interrupted));
        }
        if self.bytes.len() >= self.room {
            return Err(Error::from(ErrorKind::BrokenPipe));
        }
        let n = buf.len().min(3);
        self.bytes.extend_from_slice(&buf[..n])?;
        Ok(n)
    }

    fn flush(&mut self) -> io::Result<()> {
        Ok(())
    }
}

#[test]
fn a_stream_gets_the_pieces_in_order(rt: HostRuntime) -> Result<(), Fail> {
    let alloc = rt.alloc();
    let long = vec![in alloc; b'x'; STREAM_CAPACITY + 1]?;
    let mut stream = Vec::new(alloc);
    let mut sink = StreamSink::new(&mut stream);
    put_gives(&rt, &mut sink, b"ab", ALL);
    put_gives(&rt, &mut sink, &long, ALL);
    put_gives(&rt, &mut sink, b"cd", ALL);
    finish_gives(&rt, &mut sink, ALL);
    drop(sink);
    assert!(rt; stream.len() == STREAM_CAPACITY + 5);
    assert!(rt; stream.starts_with(b"abxx") && stream.ends_with(b"xxcd"));
    Ok(())
}

#[test]
fn a_stream_that_fails_gets_nothing_more(rt: HostRuntime) -> Result<(), Fail> {
    let alloc = rt.alloc();
    let long = vec![in alloc; b'x'; STREAM_CAPACITY + 1]?;
    let mut stream = Narrow::new(alloc, 10);
    let mut sink = StreamSink::new(&mut stream);
    put_gives(&rt, &mut sink, b"abcd", ALL);
    put_gives(&rt, &mut sink, &long, only(6));
    put_gives(&rt, &mut sink, b"e", only(0));
    finish_gives(&rt, &mut sink, only(0));
    drop(sink);
    assert!(rt; stream.bytes.as_slice() == b"abcdxxxxxx".as_slice());
    Ok(())
}

#[test]
fn a_finish_that_fails_fails_again(rt: HostRuntime) -> Result<(), Fail> {
    let mut stream = Narrow::new(rt.alloc(), 2);
    let mut sink = StreamSink::new(&mut stream);
    put_gives(&rt, &mut sink, b"abcd", ALL);
    finish_gives(&rt, &mut sink, only(0));
    finish_gives(&rt, &mut sink, only(0));
    drop(sink);
    assert!(rt; stream.bytes.as_slice() == b"abc".as_slice());
    Ok(())
}
