//! A shelf over files.
ghost use Rattle.std.specs.Prelude.{◌≡◌, ◌≢◌, ℕ, ◌+◌, ◌<◌, ◌≤◌, List, length, None, IfSome, IfOk, Err, OnOk, OnErr};
ghost use Rattle.std.specs.Io.{StartsWith};
ghost use Rattle.hm_edge.specs.Faults.{Rose};
ghost use Rattle.hm_edge.specs.Reading.{GivesAtMost, ReadsAll};
ghost use Rattle.hm_edge.specs.Shelves.{Appends, failed_after, faults_after};

use crate::shelf::{Shelf, ShelfRefused};
use std::fs::File;
use std::io::{ErrorKind, Read};
use std::marker::Model;
use std::rt::Files;

// How many bytes are read at once: 16 KiB, since a system call for less would cost more than the
// bytes.
const CHUNK: usize = 16 * 1024;

/// A shelf over the files of a runtime. Names are paths. Contracts see the count of its faults.
#[derive(Drop)]
pub struct FileShelf<R> {
    files: R,
    faults: u64,
}

impl<R> Model for FileShelf<R> {
    ghost use Rattle.std.specs.Prelude.{ℕ};

    ghost Value = { ℕ };

    ghost view = { λ shelf. shelf.faults };
}

impl<R> FileShelf<R> {
    /// A shelf over the files of the runtime, or of a reference to one. No read has failed.
    pub fn new(files: R) -> FileShelf<R>
        ensures { result ≡ 0 }
    {
        FileShelf { files, faults: 0 }
    }
}

impl<R: Files> Shelf for FileShelf<R> {
    ghost faults = { λ shelf. shelf };

    ghost told = { λ _ _. None };

    ghost failed = { λ _. None };

    /// As the trait says, of a shelf that tells nothing of its bytes. A directory fails, and so does
    /// a name with a NUL byte. It reads at most one byte past the limit.
    fn read(&mut self, name: &str, into: &mut Vec<u8>, limit: u64) -> Result<(), ShelfRefused>
        // What the trait promises.
        ensures read { OnOk result (Appends None limit into.old.items into.new.items) }
        ensures refused { OnErr result (into.new.items ≡ into.old.items) }
        ensures long { result ≡ Err ShelfRefused.Long
            → IfSome {T = List ℕ} None (λ bytes. limit < length bytes) }
        ensures failed { result ≡ Err ShelfRefused.Failed → Rose self.old self.new }
        ensures unfailed { result ≢ Err ShelfRefused.Failed → self.new ≡ self.old }
        ensures faults { self.old ≤ self.new }
        ensures failures { None ≡ failed_after result name.now None }
        ensures same { (other : List ℕ) → ⟦<FileShelf<R> as Shelf>⟧.told self.new other
            ≡ ⟦<FileShelf<R> as Shelf>⟧.told self.old other }

        // What is counted.
        ensures count { self.new ≡ faults_after result self.old }
    {
        let outcome = read_file(&self.files, name, into, limit);
        if outcome == Err(ShelfRefused::Failed) {
            self.faults = self.faults.saturating_add(1);
        }
        outcome
    }
}

// Appends the bytes of the file, unless they are more than `limit`.
fn read_file<R: Files>(
    files: &R,
    name: &str,
    into: &mut Vec<u8>,
    limit: u64,
) -> Result<(), ShelfRefused>
    ensures read { OnOk result (Appends None limit into.old.items into.new.items) }
    ensures refused { OnErr result (into.new.items ≡ into.old.items) }
{
    let mut file = File::open(files, name)?;
    read_within(&mut file, into, limit)
}

// Appends what the reader has left, unless that is more than `limit` bytes.
fn read_within<R: Read>(reader: &mut R, into: &mut Vec<u8>, limit: u64) -> Result<(), ShelfRefused>
    ensures read { OnOk result
        (Appends (R.remaining reader.old) limit into.old.items into.new.items) }
    ensures refused { OnErr result (into.new.items ≡ into.old.items) }
    ensures long { result ≡ Err ShelfRefused.Long
        → IfSome (R.remaining reader.old) (λ bytes. limit < length bytes) }
    ensures most { GivesAtMost (limit + 1) (R.remaining reader.old) (R.remaining reader.new) }
{
    let start = into.len();
    // A byte past the limit shows that the file is too long, and no more is read.
    let refused = match read_most(reader, into, limit.saturating_add(1)) {
        Ok(count) if count <= limit => return Ok(()),
        Ok(_) => ShelfRefused::Long,
        Err(refused) => refused,
    };
    into.truncate(start);
    Err(refused)
}

// Appends what the reader has left, but no more than `most` bytes, and tells how many. Some of what
// was read is lost where memory runs out.
fn read_most<R: Read>(reader: &mut R, into: &mut Vec<u8>, most: u64) -> Result<u64, ShelfRefused>
    ensures read { IfOk result (λ count. ReadsAll most count
        (R.remaining reader.old) (R.remaining reader.new) into.old.items into.new.items) }
    ensures front { StartsWith into.new.items into.old.items }
    ensures most { GivesAtMost most (R.remaining reader.old) (R.remaining reader.new) }
    ensures refused { result ≢ Err ShelfRefused.Long }
{
    let mut chunk = [0; CHUNK];
    let mut count = 0;
    for _ in 0..u64::MAX {
        let room = (most - count).min(CHUNK as u64) as usize;
        if room == 0 {
            return Ok(count);
        }
        match reader.read(&mut chunk[..room]) {
            Ok(0) => return Ok(count),
            Ok(taken) => {
                into.extend_from_slice(&chunk[..taken])?;
                count += taken as u64;
            }
            Err(error) if error.kind() == ErrorKind::Interrupted => {}
            Err(error) => return Err(ShelfRefused::from(error)),
        }
    }
    Err(ShelfRefused::Failed)
}
