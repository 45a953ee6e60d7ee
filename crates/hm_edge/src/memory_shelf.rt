//! A shelf in memory, which tells its bytes and fails where it was told to.
ghost use Rattle.std.specs.Prelude.{◌≡◌, ◌≢◌, ℕ, ◌<◌, ◌≤◌, List, [], ◌∷◌, ◌++◌, length, map, find, Some, IfSome, Err, OnOk, OnErr, bytes_eq, option_copied, string_bytes};
ghost use Rattle.hm_edge.specs.Faults.{Rose, next_count};
ghost use Rattle.hm_edge.specs.Shelves.{Appends, UnlessMemory, failed_after, faults_after};
ghost use Rattle.hm_edge.specs.MemoryShelf.{ShelfState, bytes_of, due_answer, file_of, found_at};

use crate::memory::Memory;
use crate::shelf::{Shelf, ShelfRefused};
use std::marker::Model;

/// Files in memory, and the numbers of the reads that fail.
///
/// Reads are counted from 1. The count stands still at the last `u64`.
#[derive(Debug, Drop)]
pub struct MemoryShelf {
    files: Vec<(String, Vec<u8>)>,
    fails: Vec<u64>,
    calls: u64,
    faults: u64,
    failed: Vec<String>,
}

impl Model for MemoryShelf {
    ghost use Rattle.std.specs.Prelude.{map, string_bytes};
    ghost use Rattle.hm_edge.specs.MemoryShelf.{ShelfState, file_of};

    ghost Value = { ShelfState };

    ghost view = { λ shelf. record {
      files = map file_of shelf.files.items;
      fails = shelf.fails.items;
      calls = shelf.calls;
      faults = shelf.faults;
      failed = map string_bytes shelf.failed.items;
    } };
}

// The first file with the name.
fn file_named<'a>(files: &'a [(String, Vec<u8>)], name: &str) -> Option<&'a (String, Vec<u8>)>
    ensures { option_copied result
        ≡ find (λ file. bytes_eq (string_bytes file.0) name.now) files.now }
{
    files.iter().find(|file| file.0.as_str() == name)
}

// The bytes of the first file with the name.
#[tactic(auto, using(crate::proofs::Files::files))]
fn bytes_of<'a>(files: &'a [(String, Vec<u8>)], name: &str) -> Option<&'a [u8]>
    ensures { option_copied result ≡ bytes_of (map file_of files.now) name.now }
{
    let file = file_named(files, name)?;
    Some(file.1.as_slice())
}

impl MemoryShelf {
    /// A shelf of these files, whose reads with a number in `fails` fail. Of two files with one name
    /// the first counts. It takes no memory.
    pub fn new(files: Vec<(String, Vec<u8>)>, fails: Vec<u64>) -> MemoryShelf
        ensures files { result.files ≡ map file_of files.items }
        ensures fails { result.fails ≡ fails.items }
        ensures calls { result.calls ≡ 0 }
        ensures faults { result.faults ≡ 0 }
        ensures failed { result.failed ≡ [] }
        ensures tells { (name : List ℕ) → ⟦<MemoryShelf as Shelf>⟧.told result name
            ≡ bytes_of (map file_of files.items) name }
        ensures tells_failed { ⟦<MemoryShelf as Shelf>⟧.failed result ≡ Some [] }
    {
        let failed = Vec::new(*files.allocator());
        MemoryShelf {
            files,
            fails,
            calls: 0,
            faults: 0,
            failed,
        }
    }

    // What the read with this number finds.
    fn find(&self, call: u64, name: &str) -> Option<&[u8]>
        ensures { option_copied result ≡ found_at self.now call name.now }
    {
        if self.fails.contains(&call) {
            None
        } else {
            bytes_of(&self.files, name)
        }
    }

    // Counts a fault and keeps the name. The memory for the name is taken first.
    fn note_fault(&mut self, name: &str) -> Result<(), Memory>
        ensures ok { OnOk result (self.new ≡ record self.old {
          faults = next_count self.old.faults;
          failed = self.old.failed ++ name.now ∷ [];
        }) }
        ensures err { OnErr result (self.new ≡ self.old) }
        ensures rises { self.old.faults ≤ self.new.faults }
    {
        let name = String::from_str(*self.failed.allocator(), name)?;
        self.failed.push(name)?;
        self.faults = self.faults.saturating_add(1);
        Ok(())
    }
}

impl Shelf for MemoryShelf {
    ghost faults = { λ shelf. shelf.faults };

    ghost told = { λ shelf name. bytes_of shelf.files name };

    ghost failed = { λ shelf. Some shelf.failed };

    /// As the trait says. It takes memory for `into` and for the name of a read that failed.
    fn read(&mut self, name: &str, into: &mut Vec<u8>, limit: u64) -> Result<(), ShelfRefused>
        // What the trait promises.
        ensures read { OnOk result
            (Appends (bytes_of self.old.files name.now) limit into.old.items into.new.items) }
        ensures refused { OnErr result (into.new.items ≡ into.old.items) }
        ensures long { result ≡ Err ShelfRefused.Long
            → IfSome (bytes_of self.old.files name.now) (λ bytes. limit < length bytes) }
        ensures failed { result ≡ Err ShelfRefused.Failed → Rose self.old.faults self.new.faults }
        ensures unfailed { result ≢ Err ShelfRefused.Failed → self.new.faults ≡ self.old.faults }
        ensures faults { self.old.faults ≤ self.new.faults }
        ensures failures { Some self.new.failed
            ≡ failed_after result name.now (Some self.old.failed) }
        ensures same { (other : List ℕ)
            → bytes_of self.new.files other ≡ bytes_of self.old.files other }

        // What it answers, and what is counted.
        ensures exact { UnlessMemory result (result ≡ due_answer self.old name.now limit) }
        ensures memory { result ≡ Err ShelfRefused.Memory
            → due_answer self.old name.now limit ≢ Err ShelfRefused.Long }
        ensures count { self.new.faults ≡ faults_after result self.old.faults }
        ensures calls { self.new.calls ≡ next_count self.old.calls }
        ensures files { self.new.files ≡ self.old.files }
        ensures fails { self.new.fails ≡ self.old.fails }
    {
        let call = self.calls.saturating_add(1);
        self.calls = call;
        match self.find(call, name) {
            None => {
                self.note_fault(name)?;
                Err(ShelfRefused::Failed)
            }
            Some(bytes) if bytes.len() as u64 > limit => Err(ShelfRefused::Long),
            Some(bytes) => Ok(into.extend_from_slice(bytes)?),
        }
    }
}
