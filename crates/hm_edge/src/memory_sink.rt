//! A sink in memory, which tells its bytes and fails where it was told to.
ghost use Rattle.std.specs.Prelude.{◌≡◌, ◌==◌, ℕ, ◌<◌, ◌≤◌, List, [], find, length, Some, IsOk, IfOk, IfErr, OnOk, OnErr};
ghost use Rattle.std.specs.Io.KnownBytes.{Appends};
ghost use Rattle.hm_edge.specs.Faults.{Rose, next_count};
ghost use Rattle.hm_edge.specs.Sinks.{bytes_after, faults_after, part_put};

use crate::memory::Memory;
use crate::sink::{Finish, Sink, SinkFailed};
use std::alloc::Global;
use std::marker::Model;

/// A put that is to fail.
#[derive(Clone, Copy, Debug, PartialEq, Eq)]
pub struct SinkFail {
    /// The number of the put. Puts are counted from 1.
    pub call: u64,
    /// How many bytes of its piece it takes all the same, at most.
    pub wrote: u64,
}

/// Bytes in memory, up to a room that is reserved when the sink is made, and the puts that fail.
///
/// Puts are counted from 1. The count stands still at the last `u64`.
#[derive(Debug, Drop)]
pub struct MemorySink {
    bytes: Vec<u8>,
    room: u64,
    fails: Vec<SinkFail>,
    calls: u64,
    faults: u64,
}

impl Model for MemorySink {
    ghost use Rattle.std.specs.Prelude.{◌≡◌, ◌≤◌, vec_len, vec_capacity};
    ghost use Rattle.hm_edge.specs.MemorySink.{SinkState};

    ghost Value = { SinkState };

    ghost view = { λ sink. record {
      bytes = sink.bytes.items;
      room = sink.room;
      fails = sink.fails.items;
      calls = sink.calls;
      faults = sink.faults;
    } };

    ghost invariant = { λ sink. (vec_len sink.bytes ≤ sink.room)
        × (sink.room ≤ vec_capacity sink.bytes) };
}

impl MemorySink {
    /// A sink with no bytes yet, which takes `room` bytes in all and fails at the puts in `fails`. Of two
    /// entries for one put the first counts. `Memory` where there is no memory for the room.
    pub fn new(alloc: Global, room: u64, fails: Vec<SinkFail>) -> Result<MemorySink, Memory>
        ensures bytes { IfOk result (λ sink. sink.bytes ≡ []) }
        ensures room { IfOk result (λ sink. sink.room ≡ room) }
        ensures fails { IfOk result (λ sink. sink.fails ≡ fails.items) }
        ensures calls { IfOk result (λ sink. sink.calls ≡ 0) }
        ensures faults { IfOk result (λ sink. sink.faults ≡ 0) }
        ensures no_room { room ≡ 0 → IsOk result }
        ensures tells { IfOk result (λ sink. ⟦<MemorySink as Sink>⟧.written sink ≡ Some []) }
    {
        let bytes = Vec::with_capacity(alloc, room as usize)?;
        Ok(MemorySink {
            bytes,
            room,
            fails,
            calls: 0,
            faults: 0,
        })
    }

    /// The bytes written so far.
    pub fn bytes(&self) -> &[u8]
        ensures { result.now ≡ self.now.bytes }
    {
        self.bytes.as_slice()
    }
}

// The entry for the put with this number.
fn entry_for(fails: &[SinkFail], call: u64) -> Option<SinkFail>
    ensures { result ≡ find (λ fail. fail.call == call) fails.now }
{
    fails.iter().copied().find(|fail| fail.call == call)
}

impl Sink for MemorySink {
    ghost use Rattle.hm_edge.specs.MemorySink.{due_answer};

    ghost faults = { λ sink. sink.faults };

    ghost puts = { λ sink. sink.calls };

    ghost written = { λ sink. Some sink.bytes };

    /// As the trait says. It takes no memory.
    fn put(&mut self, piece: &[u8]) -> Result<(), SinkFailed>
        requires { 0 < length piece.now }

        // What the trait promises.
        ensures written { Some self.new.bytes
            ≡ bytes_after (part_put piece.now result) (Some self.old.bytes) }
        ensures part { IfErr result (λ fault. fault.wrote ≤ length piece.now) }
        ensures failed { OnErr result (Rose self.old.faults self.new.faults) }
        ensures unfailed { OnOk result (self.new.faults ≡ self.old.faults) }
        ensures faults { self.old.faults ≤ self.new.faults }
        ensures puts { self.new.calls ≡ next_count self.old.calls }

        // What it answers, and what is counted.
        ensures exact { result ≡ due_answer self.old piece.now }
        ensures count { self.new.faults ≡ faults_after result self.old.faults }
        ensures room { self.new.room ≡ self.old.room }
        ensures fails { self.new.fails ≡ self.old.fails }
    {
        let call = self.calls.saturating_add(1);
        self.calls = call;
        let entry = entry_for(&self.fails, call);
        let fitting = (piece.len() as u64).min(self.room - self.bytes.len() as u64);
        let wrote = entry.map_or(fitting, |fail| fail.wrote.min(fitting));
        self.bytes
            .extend_from_slice(&piece[..wrote as usize])
            .unwrap();
        if entry.is_none() && wrote == piece.len() as u64 {
            return Ok(());
        }
        self.faults = self.faults.saturating_add(1);
        Err(SinkFailed { wrote })
    }
}

impl Finish for MemorySink {
    ghost held = { λ _. [] };

    ghost sent = { λ sink. Some sink.bytes };

    /// Nothing is kept, so there is nothing to do.
    fn finish(&mut self) -> Result<(), SinkFailed>
        // What the trait promises.
        ensures held { let kept : List ℕ = [] in kept ≡ [] }
        ensures sent { OnOk result (Appends (Some self.old.bytes) (Some self.new.bytes) []) }
        ensures written { Some self.new.bytes ≡ Some self.old.bytes }
        ensures failed { OnErr result (Rose self.old.faults self.new.faults) }
        ensures unfailed { OnOk result (self.new.faults ≡ self.old.faults) }
        ensures faults { self.old.faults ≤ self.new.faults }
        ensures puts { self.new.calls ≡ self.old.calls }

        // It does not fail, and changes nothing.
        ensures done { IsOk result }
        ensures same { self.new ≡ self.old }
    {
        Ok(())
    }
}
