//! What can go wrong in a replay, and what is said of it.
ghost use Rattle.std.specs.Prelude.{◌≡◌, ◌≤◌, ◌++◌, length, decimal};
ghost use Rattle.hm_replay.specs.declared.refusal.Refused.TheVariants as variant;
ghost use Rattle.hm_replay.specs.Refusals.{line_of, message_of, part_name, refused_shelf, refused_text, refused_words, refused_write, status_of};

use arrayvec::ArrayString;
use hm_edge::ShelfRefused;
use hm_orders::{Part, ReadRefused, TextRefused, WriteRefused};
use hm_words::WordsRefused;
use itoa::Buffer;
use std::alloc::{AllocError, AllocFailed};

/// A line for a refusal, of which the longest have 50 bytes.
pub type Line = ArrayString<64>;

/// Why a replay ended without its whole report. Files are numbered from 1 in the order of the words.
#[derive(Clone, Copy, Debug, PartialEq, Eq)]
pub enum Refused {
    /// Memory ran out.
    Memory,
    /// The words ask for nothing that there is.
    Words,
    /// The words name so many files, and at most 8 are replayed.
    Files(u64),
    /// A row of the file is refused.
    Text { file: u32, refusal: TextRefused },
    /// The file could not be read.
    Read { file: u32 },
    /// The report could not be written.
    Write,
    /// The heap of the replay has no version left at an order of this caller, counted from 0.
    Full { caller: u32 },
    /// The file is too long.
    Long { file: u32 },
}

impl From<WriteRefused> for Refused {
    ghost from_gives = { λ refusal refused. refused ≡ refused_write refusal };

    fn from(refusal: WriteRefused) -> Refused {
        match refusal {
            WriteRefused::Failed => Refused::Write,
            WriteRefused::Memory => Refused::Memory,
        }
    }
}

impl From<AllocError> for Refused {
    ghost from_gives = { λ _ refused. refused ≡ variant.Memory };

    fn from(_refusal: AllocError) -> Refused {
        Refused::Memory
    }
}

impl From<WordsRefused> for Refused {
    ghost from_gives = { λ refusal refused. refused ≡ refused_words refusal };

    fn from(refusal: WordsRefused) -> Refused {
        match refusal {
            WordsRefused::Refused => Refused::Words,
            WordsRefused::Memory => Refused::Memory,
        }
    }
}

impl From<hm_edge::Memory> for Refused {
    ghost from_gives = { λ _ refused. refused ≡ variant.Memory };

    fn from(_memory: hm_edge::Memory) -> Refused {
        Refused::Memory
    }
}

impl<T: Drop> From<AllocFailed<T>> for Refused {
    ghost from_gives = { λ _ refused. refused ≡ variant.Memory };

    fn from(_refusal: AllocFailed<T>) -> Refused {
        Refused::Memory
    }
}

impl Refused {
    /// The refusal of a read of this file.
    pub(crate) fn of_shelf(file: u32, refusal: ShelfRefused) -> Refused
        ensures { result ≡ refused_shelf file refusal }
    {
        match refusal {
            ShelfRefused::Failed => Refused::Read { file },
            ShelfRefused::Long => Refused::Long { file },
            ShelfRefused::Memory => Refused::Memory,
        }
    }

    /// The refusal of the text of this file.
    pub(crate) fn of_text(file: u32, refusal: ReadRefused) -> Refused
        ensures { result ≡ refused_text file refusal }
    {
        match refusal {
            ReadRefused::Text(refusal) => Refused::Text { file, refusal },
            ReadRefused::Memory => Refused::Memory,
        }
    }

    /// The status with which it ends the program.
    pub fn status(&self) -> u8
        ensures { result ≡ status_of self.now }
    {
        match self {
            Refused::Memory => 1,
            Refused::Words => 2,
            Refused::Text { .. } => 3,
            Refused::Read { .. } => 4,
            Refused::Write => 5,
            Refused::Full { .. } => 6,
            Refused::Long { .. } | Refused::Files(_) => 7,
        }
    }

    /// The line that is written of it.
    pub fn message(&self) -> Line
        ensures { result.bytes ≡ message_of self.now }
    {
        match self {
            Refused::Memory => plain_line("memory"),
            Refused::Words => plain_line("words"),
            Refused::Files(count) => numbered_line("files ", *count),
            Refused::Text { file, refusal } => text_line(*file, refusal),
            Refused::Read { file } => numbered_line("read ", u64::from(*file)),
            Refused::Write => plain_line("write"),
            Refused::Full { caller } => numbered_line("full ", u64::from(*caller) + 1),
            Refused::Long { file } => numbered_line("long ", u64::from(*file)),
        }
    }
}

/// The line with this word.
fn plain_line(word: &str) -> Line
    requires { length word.now ≤ 6 }
    ensures { result.bytes ≡ line_of word.now }
{
    let mut line = Line::new();
    line.push_str("hm: ");
    line.push_str(word);
    line.push_str("\n");
    line
}

/// The line with this word, a space behind it included, and this number.
fn numbered_line(word: &str, number: u64) -> Line
    requires { length word.now ≤ 6 }
    ensures { result.bytes ≡ line_of (word.now ++ decimal number) }
{
    let mut digits = Buffer::new();
    let mut line = Line::new();
    line.push_str("hm: ");
    line.push_str(word);
    line.push_str(digits.format(number));
    line.push_str("\n");
    line
}

/// The line for a row of a file.
fn text_line(file: u32, refusal: &TextRefused) -> Line
    ensures { result.bytes ≡ message_of (Refused.Text file refusal.now) }
{
    let mut digits = Buffer::new();
    let mut line = Line::new();
    line.push_str("hm: text ");
    line.push_str(digits.format(file));
    line.push_str(" ");
    line.push_str(digits.format(refusal.row));
    line.push_str(" ");
    line.push_str(part_name(refusal.part));
    line.push_str("\n");
    line
}

fn part_name(part: Part) -> &'static str
    ensures name { result.now ≡ part_name part }
    ensures short { length result.now ≤ 8 }
{
    match part {
        Part::Fields => "fields",
        Part::Kind => "kind",
        Part::Id => "id",
        Part::Side => "side",
        Part::Price => "price",
        Part::Quantity => "quantity",
        Part::TooMany => "toomany",
    }
}
