//! What a new object holds, and what one holds after a store.
ghost use Rattle.std.specs.Prelude.{◌≡◌, ◌+◌, ◌<◌, ◌^◌, slice_set};
ghost use Rattle.hm_model.specs.Effect.{new_contents as new, with_field as fields, with_all as all};

use hm_model::{Contents, Field, Name};

/// A new object has stamp 0.
pub(crate) fn new_contents(refs: [Option<Name>; 4], numbers: [u64; 10]) -> Contents
    ensures { result ≡ new refs numbers }
{
    Contents {
        stamp: 0,
        refs,
        numbers,
    }
}

/// A store replaces one field, where there is such a field, and raises the stamp by one.
pub(crate) fn with_field(contents: &Contents, field: Field) -> Contents
    requires { contents.now.stamp + 1 < 2 ^ 64 }
    ensures { result ≡ fields field contents.now }
{
    let mut after = *contents;
    after.stamp += 1;
    match field {
        Field::Number { i, value } => put(&mut after.numbers, i, value),
        Field::Refer { i, value } => put(&mut after.refs, i, value),
    }
    after
}

/// An element is replaced, where the list is so long.
#[tactic(auto, using(std::proofs::lemmas::List::set_past))]
pub(crate) fn put<T: Copy>(list: &mut [T], i: u32, value: T)
    ensures { list.new ≡ slice_set list.old i value }
{
    if (i as usize) < list.len() {
        list[i as usize] = value;
    }
}

/// A conditional store replaces all fields, and raises the stamp by one.
pub(crate) fn with_all(contents: &Contents, refs: [Option<Name>; 4], numbers: [u64; 10]) -> Contents
    requires { contents.now.stamp + 1 < 2 ^ 64 }
    ensures { result ≡ all refs numbers contents.now }
{
    Contents {
        stamp: contents.stamp + 1,
        refs,
        numbers,
    }
}
