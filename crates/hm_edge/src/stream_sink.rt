//! A sink over a stream, which gathers small pieces before it writes them.
ghost use Rattle.std.specs.Prelude.{◌≡◌, ℕ, ◌+◌, ◌≤◌, ◌<◌, ◌||◌, ◌++◌, List, [], length, take, is_err, true, false, Option, None, Ok, Err, IsOk, IsErr, IfErr, OnOk, OnErr, IsTrue};
ghost use Rattle.std.specs.Io.KnownBytes.{Appends};
ghost use Rattle.hm_edge.specs.Faults.{Rose, next_count};
ghost use Rattle.hm_edge.specs.Sinks.{bytes_after, part_put};
ghost use Rattle.hm_edge.specs.StreamSink.{FailsForGood, GrowsByFront, taken_bytes};

use crate::sink::{Finish, Sink, SinkFailed};
use std::io::{ErrorKind, Write};
use std::marker::Model;

/// How many bytes a sink over a stream gathers before it writes them: 16 KiB, since a system call
/// for each line would cost more than the work on the line.
pub const STREAM_CAPACITY: usize = 16 * 1024;

/// A sink over a stream. It takes no memory: it gathers pieces in an array of its own.
///
/// Ok of `put` says that the piece was taken, and `finish` writes what is still held. What a sink
/// holds when it is dropped is lost. After a fault the sink is broken: it holds nothing, writes
/// nothing more, and each call fails.
#[derive(Drop)]
pub struct StreamSink<W> {
    writer: W,
    held: [u8; STREAM_CAPACITY],
    len: usize,
    broken: bool,
    faults: u64,
    puts: u64,
}

impl<W> Model for StreamSink<W> {
    ghost use Rattle.std.specs.Prelude.{◌≡◌, ◌≤◌, take, true};
    ghost use Rattle.hm_edge.specs.declared.stream_sink.TheConstants.{STREAM_CAPACITY};
    ghost use Rattle.hm_edge.specs.StreamSink.{StreamState};

    ghost Value = { StreamState W };

    ghost view = { λ sink. record {
      writer = sink.writer;
      held = take sink.len sink.held;
      broken = sink.broken;
      faults = sink.faults;
      puts = sink.puts;
    } };

    ghost invariant = { λ sink. (sink.len ≤ STREAM_CAPACITY)
        × (sink.broken ≡ true → sink.len ≡ 0) };
}

impl<W> StreamSink<W> {
    /// A sink over the stream, which holds nothing.
    pub fn new(writer: W) -> StreamSink<W>
        ensures writer { result.writer ≡ writer }
        ensures held { result.held ≡ [] }
        ensures whole { result.broken ≡ false }
        ensures faults { result.faults ≡ 0 }
        ensures puts { result.puts ≡ 0 }
    {
        StreamSink {
            writer,
            held: [0; STREAM_CAPACITY],
            len: 0,
            broken: false,
            faults: 0,
            puts: 0,
        }
    }

    // Counts a put.
    fn count_put(&mut self)
        ensures { self.new ≡ record self.old { puts = next_count self.old.puts } }
    {
        self.puts = self.puts.saturating_add(1);
    }

    // Breaks the sink and counts a fault.
    fn fail(&mut self, wrote: u64) -> SinkFailed
        ensures wrote { result.wrote ≡ wrote }
        ensures after { self.new ≡ record self.old {
          held = [];
          broken = true;
          faults = next_count self.old.faults;
        } }
        ensures rises { self.old.faults ≤ self.new.faults }
    {
        self.len = 0;
        self.broken = true;
        self.faults = self.faults.saturating_add(1);
        SinkFailed { wrote }
    }
}

impl<W: Write> StreamSink<W> {
    // Keeps the piece for a later write.
    fn hold(&mut self, piece: &[u8])
        requires room { length self.old.held + length piece.now ≤ STREAM_CAPACITY }
        requires whole { self.old.broken ≡ false }
        ensures { self.new ≡ record self.old { held = self.old.held ++ piece.now } }
    {
        let end = self.len + piece.len();
        self.held[self.len..end].copy_from_slice(piece);
        self.len = end;
    }

    // Writes what is held, unless the sink is broken.
    fn write_held(&mut self) -> Result<(), SinkFailed>
        ensures written { OnOk result (Appends (W.contents self.old.writer)
            (W.contents self.new.writer) self.old.held) }
        ensures front { IfErr result (λ fault. GrowsByFront (W.contents self.old.writer)
            (W.contents self.new.writer) self.old.held [] fault.wrote) }
        ensures held { self.new.held ≡ [] }
        ensures wrote { IfErr result (λ fault. fault.wrote ≡ 0) }
        ensures for_good { FailsForGood self.old self.new result }
        ensures unfailed { OnOk result (self.new.faults ≡ self.old.faults) }
        ensures faults { self.old.faults ≤ self.new.faults }
        ensures puts { self.new.puts ≡ self.old.puts }
    {
        if self.broken {
            return Err(self.fail(0));
        }
        let len = self.len;
        self.len = 0;
        if write_out(&mut self.writer, &self.held[..len]) < len {
            return Err(self.fail(0));
        }
        Ok(())
    }
}

impl<W: Write> Sink for StreamSink<W> {
    ghost faults = { λ sink. sink.faults };

    ghost puts = { λ sink. sink.puts };

    ghost written = { λ _. None };

    /// As the trait says, of a sink that tells nothing of its bytes. Ok: the piece was taken.
    fn put(&mut self, piece: &[u8]) -> Result<(), SinkFailed>
        requires { 0 < length piece.now }

        // What the trait promises.
        ensures written { None ≡ bytes_after (part_put piece.now result) None }
        ensures part { IfErr result (λ fault. fault.wrote ≤ length piece.now) }
        ensures failed { OnErr result (Rose self.old.faults self.new.faults) }
        ensures unfailed { OnOk result (self.new.faults ≡ self.old.faults) }
        ensures faults { self.old.faults ≤ self.new.faults }
        ensures puts { self.new.puts ≡ next_count self.old.puts }

        // What the stream gets: on Ok the piece, now or later, and at a fault a front.
        ensures taken { OnOk result (Appends (taken_bytes W.contents self.old)
            (taken_bytes W.contents self.new) piece.now) }
        ensures front { IfErr result (λ fault. GrowsByFront (W.contents self.old.writer)
            (W.contents self.new.writer) self.old.held piece.now fault.wrote) }

        // A piece that there is room for is held, and nothing else happens.
        ensures room { self.old.broken ≡ false
            → length self.old.held + length piece.now ≤ STREAM_CAPACITY
            → IsOk result × (self.new ≡ record self.old {
              held = self.old.held ++ piece.now;
              puts = next_count self.old.puts;
            }) }

        // What a fault does.
        ensures for_good { FailsForGood self.old self.new result }
    {
        self.count_put();
        if !self.broken && piece.len() <= STREAM_CAPACITY - self.len {
            self.hold(piece);
            return Ok(());
        }
        self.write_held()?;
        if piece.len() <= STREAM_CAPACITY {
            self.hold(piece);
            return Ok(());
        }
        let wrote = write_out(&mut self.writer, piece);
        if wrote < piece.len() {
            return Err(self.fail(wrote as u64));
        }
        Ok(())
    }
}

impl<W: Write> Finish for StreamSink<W> {
    ghost held = { λ sink. sink.held };

    ghost sent = { λ sink. W.contents sink.writer };

    /// Writes what is held and flushes the stream.
    fn finish(&mut self) -> Result<(), SinkFailed>
        // What the trait promises.
        ensures held { self.new.held ≡ [] }
        ensures sent { OnOk result (Appends (W.contents self.old.writer)
            (W.contents self.new.writer) self.old.held) }
        ensures written { let told : Option (List ℕ) = None in told ≡ told }
        ensures failed { OnErr result (Rose self.old.faults self.new.faults) }
        ensures unfailed { OnOk result (self.new.faults ≡ self.old.faults) }
        ensures faults { self.old.faults ≤ self.new.faults }
        ensures puts { self.new.puts ≡ self.old.puts }

        // What the stream gets at a fault, and what a fault does.
        ensures front { IfErr result (λ fault. GrowsByFront (W.contents self.old.writer)
            (W.contents self.new.writer) self.old.held [] fault.wrote) }
        ensures wrote { IfErr result (λ fault. fault.wrote ≡ 0) }
        ensures for_good { FailsForGood self.old self.new result }
    {
        self.write_held()?;
        match self.writer.flush() {
            Ok(()) => Ok(()),
            Err(_) => Err(self.fail(0)),
        }
    }
}

// Writes the bytes, and returns how many of them the stream took: all, unless it faulted.
fn write_out<W: Write>(writer: &mut W, bytes: &[u8]) -> usize
    ensures within { result ≤ length bytes.now }
    ensures front { Appends (W.contents writer.old) (W.contents writer.new)
        (take result bytes.now) }
{
    let mut written = 0;
    for _ in 0..u64::MAX {
        if written == bytes.len() {
            return written;
        }
        match writer.write(&bytes[written..]) {
            Ok(0) => return written,
            Ok(taken) => written += taken,
            Err(error) if error.kind() == ErrorKind::Interrupted => {}
            Err(_) => return written,
        }
    }
    written
}
