//! Which words of a version name others, and which of some versions a word names.
ghost use Rattle.std.specs.Prelude.{◌≡◌, ◌<◌, ◌==◌, ◌&&◌, true, Some};
ghost use Rattle.std.specs.List.{list_any};
ghost use Rattle.hm_shape.specs.Words.{naming_word};
ghost use Rattle.hm_model.specs.Store.{is_same};
ghost use Rattle.hm_moves.specs.After.{is_naming, unless_named, unnamed};
ghost use Rattle.hm_moves.specs.Cycles.{field_word as word_of_field};

use hm_model::Name;
use hm_moves::Known;
use hm_shape::{FIRST_NUMBER, FIRST_REFERENCE, LINK, VERSION_WORDS, Version};

/// How many words of a version name others: its link and its references.
pub(crate) const FIELDS: u64 = 5;

// The word of a version that is its field of this number: its link, or a reference.
pub(crate) fn field_word(field: u64) -> u32
    requires { field < 5 }
    ensures word { result ≡ word_of_field field }
    ensures naming { is_naming result ≡ true }
{
    if field == 0 { LINK } else { field as u32 + 1 }
}

// Whether word `i` of a version names a version.
pub(crate) fn names_a_version(i: u32) -> bool
    ensures { result ≡ is_naming i }
{
    i == LINK || (FIRST_REFERENCE..FIRST_NUMBER).contains(&i)
}

// Whether one of some versions has this number.
pub(crate) fn has_version(list: &[Known], v: Version) -> bool
    ensures { result ≡ list_any (λ k. k.version.0 == v.0) list.now }
{
    list.iter().any(|known| known.version.0 == v.0)
}

// Whether a word names one of some versions.
pub(crate) fn names_one(list: &[Known], word: u64) -> bool
    ensures { result ≡ list_any (λ k. naming_word (Some k.version) == word) list.now }
{
    list.iter().any(|known| known.version.name() == word)
}

// Whether a word names one of some versions, of this name.
pub(crate) fn spells_one(list: &[Known], word: u64, name: Name) -> bool
    ensures { result
        ≡ list_any (λ k. (naming_word (Some k.version) == word) && is_same k.name name) list.now }
{
    list.iter()
        .any(|known| known.version.name() == word && known.name == name)
}

// No word that names the version counts as written.
pub(crate) fn unname(written: &mut [Option<u64>; 16], known: &Known)
    ensures { written.new ≡ unnamed (Some known.now) written.old }
{
    for i in 0..VERSION_WORDS {
        written[i as usize] = unless_names(i, written[i as usize], known);
    }
}

// Word `i`, where it is written and does not name the version.
fn unless_names(i: u32, word: Option<u64>, known: &Known) -> Option<u64>
    ensures { result ≡ unless_named known.now i word }
{
    if names_a_version(i) && word == Some(known.version.name()) {
        None
    } else {
        word
    }
}
