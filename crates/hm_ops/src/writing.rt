//! Words of a caller's next version.
ghost use Rattle.std.specs.Prelude.{◌≡◌, ℕ, ◌+◌, ◌<◌, ◌≤◌, IfSome, All, length, map, slice_index};
ghost use Rattle.hm_shape.specs.Layout.{version_words};
ghost use Rattle.hm_shape.specs.Words.{naming_word};
ghost use Rattle.hm_model.specs.Sight.{AreSet, names_of};
ghost use Rattle.hm_moves.specs.Allowed.{HasRoom};
ghost use Rattle.hm_cells.specs.Facts.{sight_of};
ghost use Rattle.hm_ops.specs.Resting.{Keeps, Works};
ghost use Rattle.hm_ops.specs.Storing.{Copies};
ghost use Rattle.hm_ops.specs.Writing.{Drafts, Lasts, NamesKept, Writes, name_by, reference_word};

use hm_cells::{Cells, Pass, store_own};
use hm_model::{Root, Usage};
use hm_shape::{FIRST_NUMBER, FIRST_REFERENCE, LINK, STAMP, Version};

/// Writes the caller's next version as a new object that names what the given places name.
pub(crate) fn draft<U: Usage>(
    cells: &Cells<U>,
    pass: &mut Pass<U>,
    refs: [Option<Root>; 4],
    numbers: [u64; 10],
)
    requires keeps { Keeps U.lawful U.allowed pass.old cells.now }
    requires room { HasRoom pass.old.part }
    requires refs { AreSet (sight_of pass.old) refs }
    ensures drafts { Drafts pass.old refs numbers pass.new }
    ensures keeps { Keeps U.lawful U.allowed pass.new cells.now }
{
    // The places go on naming these versions until the object is published, so no step lets go of them.
    let words = reference_words(pass, refs);
    // From word 1 on: the store of the link publishes the version, and comes last.
    write(cells, pass, STAMP, &[0]);
    write(cells, pass, FIRST_REFERENCE, &words);
    write(cells, pass, FIRST_NUMBER, &numbers);
}

/// Writes the caller's next version as a copy of another, with this stamp and these words of references and numbers.
/// Its link is 0.
pub(crate) fn write_copy<U: Usage>(
    cells: &Cells<U>,
    pass: &mut Pass<U>,
    stamp: u64,
    words: [u64; 4],
    numbers: [u64; 10],
)
    requires works { Works U.lawful U.allowed pass.old cells.now }
    requires room { HasRoom pass.old.part }
    requires kept { All (NamesKept pass.old) words }
    ensures copies { Copies pass.old record {
      stamp = stamp;
      refs = map (name_by pass.old) words;
      numbers = numbers;
    } pass.new }
    ensures works { Works U.lawful U.allowed pass.new cells.now }
{
    // The link is 0 before the exchange: whoever comes to the copy loads its link, and goes where that leads.
    write(cells, pass, LINK, &[0, stamp]);
    write(cells, pass, FIRST_REFERENCE, &words);
    write(cells, pass, FIRST_NUMBER, &numbers);
}

/// Writes the caller's next version as a changed copy of one with this stamp, which is raised, that names what the
/// given places name.
pub(crate) fn rewrite<U: Usage>(
    cells: &Cells<U>,
    pass: &mut Pass<U>,
    stamp: u64,
    refs: [Option<Root>; 4],
    numbers: [u64; 10],
)
    requires keeps { Keeps U.lawful U.allowed pass.old cells.now }
    requires room { HasRoom pass.old.part }
    requires stamp { stamp < u64.MAX }
    requires refs { AreSet (sight_of pass.old) refs }
    ensures copies { Copies pass.old record {
      stamp = stamp + 1;
      refs = names_of (sight_of pass.old) refs;
      numbers = numbers;
    } pass.new }
    ensures keeps { Keeps U.lawful U.allowed pass.new cells.now }
{
    // As in draft: the places name these versions until the exchange.
    let words = reference_words(pass, refs);
    write_copy(cells, pass, stamp + 1, words, numbers);
}

// The words of references to what the given places name.
fn reference_words<U: Usage>(pass: &Pass<U>, refs: [Option<Root>; 4]) -> [u64; 4]
    requires { All (λ r. IfSome r (λ place. place.0 < 256)) refs }
    ensures { result ≡ map (reference_word pass.now.roots) refs }
{
    let [a, b, c, d] = refs;
    [
        reference_word(pass, a),
        reference_word(pass, b),
        reference_word(pass, c),
        reference_word(pass, d),
    ]
}

/// The word of a reference to what a place names, and 0 where none is given.
pub(crate) fn reference_word<U: Usage>(pass: &Pass<U>, r: Option<Root>) -> u64
    requires { IfSome r (λ place. place.0 < 256) }
    ensures { result ≡ reference_word pass.now.roots r }
{
    match r {
        Some(r) => word_of(pass.root(r)),
        None => 0,
    }
}

/// The word that names a version, or none.
pub(crate) fn word_of(v: Option<Version>) -> u64
    ensures { result ≡ naming_word v }
{
    match v {
        Some(v) => v.name(),
        None => 0,
    }
}

// Writes these words of the caller's next version, from word `first` on.
fn write<U: Usage>(cells: &Cells<U>, pass: &mut Pass<U>, first: u32, words: &[u64])
    requires works { Works U.lawful U.allowed pass.old cells.now }
    requires room { HasRoom pass.old.part }
    requires place { first + length words.now ≤ version_words }
    requires lasting { (i : ℕ) → i < length words.now
        → Lasts pass.old (first + i) (slice_index words.now i) }
    ensures wrote { Writes pass.old first words.now (length words.now) pass.new }
    ensures works { Works U.lawful U.allowed pass.new cells.now }
{
    for i in 0..words.len() {
        store_own(cells, pass, first + i as u32, words[i]);
    }
}
