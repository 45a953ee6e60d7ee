//! A sink: bytes that are written one piece after another.
ghost use Rattle.std.specs.Prelude.{◌≡◌, ℕ, ◌<◌, ◌≤◌, List, [], length, Option, IfErr, OnOk, OnErr};
ghost use Rattle.std.specs.Io.KnownBytes.{Appends};
ghost use Rattle.hm_edge.specs.Faults.{Rose, next_count};
ghost use Rattle.hm_edge.specs.Sinks.{bytes_after, part_put};

/// A put that failed.
#[derive(Clone, Copy, Debug, PartialEq, Eq)]
pub struct SinkFailed {
    /// How many bytes of the piece were appended all the same, from its front.
    pub wrote: u64,
}

/// Where bytes are written.
pub trait Sink {
    /// How many puts have failed so far. The count stands still at the last `u64`.
    ghost faults: { Self → ℕ };

    /// How often `put` was called so far. The count stands still at the last `u64`.
    ghost puts: { Self → ℕ };

    /// The bytes written so far, where the sink tells them.
    ghost written: { Self → Option (List ℕ) };

    /// Appends the whole piece, or says how much of it was appended.
    fn put(&mut self, piece: &[u8]) -> Result<(), SinkFailed>
        requires { 0 < length piece.now }
        ensures written { written self.new
            ≡ bytes_after (part_put piece.now result) (written self.old) }
        ensures part { IfErr result (λ fault. fault.wrote ≤ length piece.now) }
        ensures failed { OnErr result (Rose (faults self.old) (faults self.new)) }
        ensures unfailed { OnOk result (faults self.new ≡ faults self.old) }
        ensures faults { faults self.old ≤ faults self.new }
        ensures puts { puts self.new ≡ next_count (puts self.old) };
}

/// A sink that may keep what it took, and writes it out at its end.
pub trait Finish: Sink {
    /// The bytes that it took and still keeps.
    ghost held: { Self → List ℕ };

    /// The bytes that it has written out, where they are known.
    ghost sent: { Self → Option (List ℕ) };

    /// Writes out what is kept: all of it, or the call fails. It is no put.
    fn finish(&mut self) -> Result<(), SinkFailed>
        ensures held { held self.new ≡ [] }
        ensures sent { OnOk result (Appends (sent self.old) (sent self.new) (held self.old)) }
        ensures written { Self.written self.new ≡ Self.written self.old }
        ensures failed { OnErr result (Rose (Self.faults self.old) (Self.faults self.new)) }
        ensures unfailed { OnOk result (Self.faults self.new ≡ Self.faults self.old) }
        ensures faults { Self.faults self.old ≤ Self.faults self.new }
        ensures puts { Self.puts self.new ≡ Self.puts self.old };
}
