//! A shelf: bytes by name.
ghost use Rattle.std.specs.Prelude.{◌≡◌, ◌≢◌, ℕ, ◌<◌, ◌≤◌, List, length, Option, IfSome, Err, OnOk, OnErr};
ghost use Rattle.hm_edge.specs.Faults.{Rose};
ghost use Rattle.hm_edge.specs.Shelves.{Appends, IsRefusalFor, failed_after};
ghost use Rattle.hm_edge.specs.declared.shelf.ShelfRefused.TheVariants.{Memory as OutOfMemory};

use crate::memory::Memory;
use std::alloc::AllocError;
use std::io;
use std::io::ErrorKind;

/// Why a read was refused.
#[derive(Clone, Copy, Debug, PartialEq, Eq)]
pub enum ShelfRefused {
    /// The bytes could not be read.
    Failed,
    /// The name has more bytes than the limit.
    Long,
    /// Memory ran out.
    Memory,
}

impl From<Memory> for ShelfRefused {
    ghost from_gives = { λ _ refused. refused ≡ OutOfMemory };

    fn from(_memory: Memory) -> ShelfRefused {
        ShelfRefused::Memory
    }
}

impl From<AllocError> for ShelfRefused {
    ghost from_gives = { λ _ refused. refused ≡ OutOfMemory };

    fn from(_refused: AllocError) -> ShelfRefused {
        ShelfRefused::Memory
    }
}

impl From<io::Error> for ShelfRefused {
    ghost from_gives = { IsRefusalFor };

    fn from(error: io::Error) -> ShelfRefused {
        match error.kind() {
            ErrorKind::OutOfMemory => ShelfRefused::Memory,
            _ => ShelfRefused::Failed,
        }
    }
}

/// Where bytes are read from, by name.
pub trait Shelf {
    /// How many reads have failed so far. The count stands still at the last `u64`.
    ghost faults: { Self → ℕ };

    /// The bytes of a name, where the shelf tells them.
    ghost told: { Self → List ℕ → Option (List ℕ) };

    /// The names whose reads failed, oldest first, where the shelf tells them.
    ghost failed: { Self → Option (List (List ℕ)) };

    /// Appends the bytes of the name to `into`, unless they are more than `limit`.
    fn read(&mut self, name: &str, into: &mut Vec<u8>, limit: u64) -> Result<(), ShelfRefused>
        ensures read { OnOk result
            (Appends (told self.old name.now) limit into.old.items into.new.items) }
        ensures refused { OnErr result (into.new.items ≡ into.old.items) }

        ensures long { result ≡ Err ShelfRefused.Long
            → IfSome (told self.old name.now) (λ bytes. limit < length bytes) }
        ensures failed { result ≡ Err ShelfRefused.Failed
            → Rose (faults self.old) (faults self.new) }

        ensures unfailed { result ≢ Err ShelfRefused.Failed → faults self.new ≡ faults self.old }
        ensures faults { faults self.old ≤ faults self.new }
        ensures failures { failed self.new ≡ failed_after result name.now (failed self.old) }
        ensures same { (other : List ℕ) → told self.new other ≡ told self.old other };
}
