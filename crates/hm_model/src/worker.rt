//! Callers that help to collect.
ghost use Rattle.std.specs.Prelude.{◌≡◌, ◌+◌};

use crate::caller::Caller;
use crate::usage::Usage;

/// What a tend did.
#[derive(Clone, Copy, Debug, PartialEq, Eq)]
pub enum Tended {
    /// Nothing was to be done.
    Nothing,
    /// Turned what it had used into from-space, and took a fresh region.
    Joined,
    /// Ended a scan of its own part, for which it copied so many objects out.
    Scanned { copied: u64 },
    /// Looked at a piece of its own part.
    Looked,
    /// Told the others whether its part is clean.
    Replied { clean: bool },
    /// Moved the collector's cycle on.
    Advanced,
    /// Found the cycle moved on by another caller, to this stage.
    Overtaken { stage: u64 },
    /// Freed so many of its versions.
    Freed { versions: u64 },
    /// Waits for this caller's reply.
    Waits { caller: u32 },
    /// Had no room for a copy or a join.
    NoRoom,
    /// Found the numbers of the cycle used up.
    Spent,
}

/// A caller that does a bounded piece of the collector's work when it is told to.
pub trait Worker<U: Usage>: Caller<U> {
    ghost use Rattle.hm_model.specs.Tending.{KeepsNames, moves_after, ComesNearer, allowed_versions};

    /// One piece of work, as at a safepoint. It makes no entry, takes no memory and no lock, and does not wait.
    fn tend(&mut self) -> Tended
        ensures moves { (Self.sight self.new).moves
            ≡ moves_after result (Self.sight self.old).moves }
        ensures tends { (Self.sight self.new).tends ≡ (Self.sight self.old).tends + 1 }
        ensures to_go { ComesNearer result (Self.sight self.old).to_go (Self.sight self.new).to_go }
        ensures same { KeepsNames (Self.sight self.old) (Self.sight self.new) };

    /// How many places are used of its To region, the to-space that it gives versions out of. With `free` it says how
    /// much room there is: at a refusal as [`Full`](crate::Full) the two allow no version.
    fn used(&self) -> u32
        ensures used { result ≡ (Self.sight self.now).used }
        ensures room { (Self.sight self.now).room ≡ allowed_versions (Self.sight self.now) };

    /// How many of its regions are free.
    fn free(&self) -> u32
        ensures free { result ≡ (Self.sight self.now).free }
        ensures room { (Self.sight self.now).room ≡ allowed_versions (Self.sight self.now) };
}
