//! Copies of a version, changed or as it is.
ghost use Rattle.std.specs.Prelude.{◌≡◌, ◌+◌, ◌++◌, ◌≤◌, List, length, map};
ghost use Rattle.hm_shape.specs.declared.version.Version.{Version};
ghost use Rattle.hm_shape.specs.Words.{naming_word};
ghost use Rattle.hm_moves.specs.Allowed.{HasRoom};
ghost use Rattle.hm_cells.specs.Calls.{MayChange};
ghost use Rattle.hm_cells.specs.Facts.{with_hand};
ghost use Rattle.hm_ops.specs.Resting.{IsKept, IsRooted, Keeps, Works, most_working};
ghost use Rattle.hm_ops.specs.Copying.{CopiesChanged, CopiesSame, given, reordered};

use crate::loading::{load_numbers, load_stamp, take_references};
use crate::reading::{read_numbers, read_stamp};
use crate::writing::{reference_word, word_of, write_copy};
use hm_cells::{Cells, Pass, WantField};
use hm_model::Usage;
use hm_shape::Version;

/// Writes the caller's next version as a copy of a version at a root place, with one field changed and the stamp
/// raised.
pub(crate) fn copy_changed<U: Usage>(
    cells: &Cells<U>,
    pass: &mut Pass<U>,
    v: Version,
    field: WantField,
)
    requires keeps { Keeps U.lawful U.allowed pass.old cells.now }
    requires rooted { IsRooted pass.old v }
    requires room { HasRoom pass.old.part }
    requires field { MayChange pass.old field }
    ensures copies { CopiesChanged pass.old v field pass.new }
    ensures keeps { Keeps U.lawful U.allowed pass.new cells.now }
{
    let stamp = read_stamp(cells, pass, v);
    let mut numbers = read_numbers(cells, pass, v);
    // In hand until the copy is written: a word counts as written only while what it names is held.
    let named = take_references(cells, pass, v, false);
    let mut words = words_of(named);
    match field {
        WantField::Number { i, value } => numbers[i as usize] = value,
        WantField::Refer { i, value } => words[i as usize] = reference_word(pass, value),
    }
    write_copy(cells, pass, stamp + 1, words, numbers);
    // Only now, and without a step: what the words name is held still when the copy is linked.
    release_all(pass, named);
}

/// Writes the caller's next version as a copy of a version, with the stamp that it has.
pub(crate) fn copy_same<U: Usage>(cells: &Cells<U>, pass: &mut Pass<U>, v: Version, scan: bool)
    requires works { Works U.lawful U.allowed pass.old cells.now }
    requires hand { length pass.old.hand + 4 ≤ most_working }
    requires kept { IsKept pass.old v }
    requires room { HasRoom pass.old.part }
    ensures copies { CopiesSame pass.old v scan pass.new }
    ensures works { Works U.lawful U.allowed pass.new cells.now }
{
    let stamp = load_stamp(cells, pass, v, scan);
    let numbers = load_numbers(cells, pass, v, scan);
    let named = take_references(cells, pass, v, scan);
    write_copy(cells, pass, stamp, words_of(named), numbers);
    release_all(pass, named);
}

// The words that name these versions.
fn words_of(named: [Option<Version>; 4]) -> [u64; 4]
    ensures { result ≡ map naming_word named }
{
    let [a, b, c, d] = named;
    [word_of(a), word_of(b), word_of(c), word_of(d)]
}

// Releases what these references name, which came into the hand last. Of a version that was there before the first one
// goes.
fn release_all<U: Usage>(pass: &mut Pass<U>, references: [Option<Version>; 4])
    requires { (hand : List Version) × (pass.old.hand ≡ hand ++ given references) }
    ensures { (hand : List Version) → pass.old.hand ≡ hand ++ given references
        → pass.new ≡ with_hand pass.old (reordered (given references) hand) }
{
    for named in references {
        if let Some(v) = named {
            pass.release(v);
        }
    }
}
