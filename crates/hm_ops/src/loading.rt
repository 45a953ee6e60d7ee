//! Loads of what a version holds, within a call. Each may be one of a scan.
ghost use Rattle.std.specs.Prelude.{◌≡◌, ◌+◌, ◌<◌, ◌≤◌, length, slice_index};
ghost use Rattle.hm_ops.specs.Resting.{IsKept, Works, most_working};
ghost use Rattle.hm_ops.specs.Walking.{Loads, TakesReference, contents_at};
ghost use Rattle.hm_ops.specs.Copying.{TakesReferences};

use hm_cells::{Cells, Pass, load_field};
use hm_model::Usage;
use hm_shape::{FIRST_NUMBER, FIRST_REFERENCE, STAMP, Version};

/// The stamp of a version.
pub(crate) fn load_stamp<U: Usage>(
    cells: &Cells<U>,
    pass: &mut Pass<U>,
    v: Version,
    scan: bool,
) -> u64
    requires works { Works U.lawful U.allowed pass.old cells.now }
    requires kept { IsKept pass.old v }
    ensures value { result ≡ (contents_at pass.old v).stamp }
    ensures small { result < u64.MAX }
    ensures loads { Loads pass.old v scan pass.new }
    ensures hand { pass.new.hand ≡ pass.old.hand }
    ensures works { Works U.lawful U.allowed pass.new cells.now }
{
    load_field(cells, pass, v, STAMP, scan)
}

/// Number `i` of a version.
pub(crate) fn load_number<U: Usage>(
    cells: &Cells<U>,
    pass: &mut Pass<U>,
    v: Version,
    i: u32,
    scan: bool,
) -> u64
    requires works { Works U.lawful U.allowed pass.old cells.now }
    requires kept { IsKept pass.old v }
    requires number { i < 10 }
    ensures value { result ≡ slice_index (contents_at pass.old v).numbers i }
    ensures loads { Loads pass.old v scan pass.new }
    ensures hand { pass.new.hand ≡ pass.old.hand }
    ensures works { Works U.lawful U.allowed pass.new cells.now }
{
    load_field(cells, pass, v, FIRST_NUMBER + i, scan)
}

/// All numbers of a version.
pub(crate) fn load_numbers<U: Usage>(
    cells: &Cells<U>,
    pass: &mut Pass<U>,
    v: Version,
    scan: bool,
) -> [u64; 10]
    requires works { Works U.lawful U.allowed pass.old cells.now }
    requires kept { IsKept pass.old v }
    ensures value { result ≡ (contents_at pass.old v).numbers }
    ensures loads { Loads pass.old v scan pass.new }
    ensures hand { pass.new.hand ≡ pass.old.hand }
    ensures works { Works U.lawful U.allowed pass.new cells.now }
{
    let mut numbers = [0; 10];
    // In any order, and beside any store: no word of a published version changes.
    for i in 0..10u32 {
        numbers[i as usize] = load_number(cells, pass, v, i, scan);
    }
    numbers
}

/// Takes what reference `i` of a version names into the hand.
pub(crate) fn take_reference<U: Usage>(
    cells: &Cells<U>,
    pass: &mut Pass<U>,
    v: Version,
    i: u32,
    scan: bool,
) -> Option<Version>
    requires works { Works U.lawful U.allowed pass.old cells.now }
    requires hand { length pass.old.hand < most_working }
    requires kept { IsKept pass.old v }
    requires reference { i < 4 }
    ensures takes { TakesReference pass.old v i scan result pass.new }
    ensures works { Works U.lawful U.allowed pass.new cells.now }
{
    let word = load_field(cells, pass, v, FIRST_REFERENCE + i, scan);
    Version::named(word)
}

/// Takes what the references of a version name into the hand.
pub(crate) fn take_references<U: Usage>(
    cells: &Cells<U>,
    pass: &mut Pass<U>,
    v: Version,
    scan: bool,
) -> [Option<Version>; 4]
    requires works { Works U.lawful U.allowed pass.old cells.now }
    requires hand { length pass.old.hand + 4 ≤ most_working }
    requires kept { IsKept pass.old v }
    ensures takes { TakesReferences pass.old v scan result pass.new }
    ensures works { Works U.lawful U.allowed pass.new cells.now }
{
    [
        take_reference(cells, pass, v, 0, scan),
        take_reference(cells, pass, v, 1, scan),
        take_reference(cells, pass, v, 2, scan),
        take_reference(cells, pass, v, 3, scan),
    ]
}
