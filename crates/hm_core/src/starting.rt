//! A fresh machine: the starting objects are caller 0's first versions, and all callers have seen them.
ghost use Rattle.std.specs.Prelude.{All, ◌≡◌, ◌+◌, ◌-◌, ◌^◌, ◌≤◌, ◌<◌, ◌++◌, ◌∷◌, [], map, length, replicate, slice_set, Some, None, IfOk, IfSome, OnOk};
ghost use Rattle.hm_shape.specs.Versions.{version_count};
ghost use Rattle.hm_model.specs.Effect.{new_contents as contents_of_new};
ghost use Rattle.hm_model.specs.History.{AllStand, starting_count, starting_name as name_of_first};
ghost use Rattle.hm_moves.specs.Places.{row_count};
ghost use Rattle.hm_moves.specs.Acts.{listed};
ghost use Rattle.hm_moves.specs.Fresh.{all_known, starting_known};
ghost use Rattle.hm_core.specs.Firsts.{IsFreshMachine, AddsSide, creates_of, first_rows, first_hands, first_seats};

use crate::chronicle::Chronicle;
use crate::contents::new_contents;
use crate::cuts::create_of;
use crate::hand::Hand;
use crate::machine::{Machine, Memory, Row};
use crate::seat::Seat;
use hm_model::{Name, Start};
use hm_moves::{Known, first_words};
use hm_shape::{Shape, Version};
use std::alloc::{AllocError, Global};

impl Machine {
    /// A fresh machine. Each caller holds the version of the common object, and nothing else.
    pub fn new(alloc: Global, shape: Shape, start: Start) -> Result<Machine, Memory>
        requires { starting_count start ≤ shape.versions }
        ensures fresh { IfOk result IsFreshMachine }
        ensures shape { IfOk result (λ machine. machine.shape ≡ shape) }
        ensures start { IfOk result (λ machine. machine.start ≡ start) }
    {
        let words = first_words(alloc, shape, start)?;
        let versions = starting_versions(alloc, start)?;
        let firsts = versions.as_slice();
        let known = starting_index(alloc, shape, firsts)?;
        let chronicle = starting_chronicle(alloc, shape.callers, firsts)?;
        let rows = starting_rows(alloc, shape, firsts.len() as u32)?;
        let common = firsts[firsts.len() - 1];
        let hands = starting_hands(alloc, shape, common, firsts)?;
        let seats = starting_seats(alloc, shape.callers, chronicle.count())?;
        Ok(Machine {
            alloc,
            shape,
            start,
            words,
            known,
            rows,
            done: 0,
            chronicle,
            hands,
            seats,
        })
    }
}

// The versions of the starting objects, the common object's last.
fn starting_versions(alloc: Global, start: Start) -> Result<Vec<Known>, AllocError>
    ensures { IfOk result (λ firsts. firsts.items ≡ all_known start) }
{
    let mut firsts = Vec::with_capacity(alloc, start.objects() as usize)?;
    let [a, b, c, d] = start.sides;
    let refs = [
        add_side(&mut firsts, a)?,
        add_side(&mut firsts, b)?,
        add_side(&mut firsts, c)?,
        add_side(&mut firsts, d)?,
    ];
    let common = starting_version(firsts.len() as u32, refs, start.numbers);
    firsts.push(common)?;
    Ok(firsts)
}

// The version of a side object, where it is given, comes behind those that there are. Its name.
fn add_side(firsts: &mut Vec<Known>, side: Option<[u64; 10]>) -> Result<Option<Name>, AllocError>
    requires { length firsts.old.items < 4 }
    ensures added { IfOk result (λ name. AddsSide firsts.old.items side name firsts.new.items) }
    ensures few { OnOk result (length firsts.new.items ≤ length firsts.old.items + 1) }
{
    let Some(numbers) = side else {
        return Ok(None);
    };
    let k = firsts.len() as u32;
    firsts.push(starting_version(k, [None; 4], numbers))?;
    Ok(Some(starting_name(k)))
}

// The name of the k-th starting object.
fn starting_name(k: u32) -> Name
    ensures { result ≡ name_of_first k }
{
    Name {
        maker: 0,
        count: u64::from(k),
    }
}

// Its version, which has its number.
fn starting_version(k: u32, refs: [Option<Name>; 4], numbers: [u64; 10]) -> Known
    ensures { result ≡ starting_known k (contents_of_new refs numbers) }
{
    Known {
        version: Version(k),
        name: starting_name(k),
        rank: 0,
        contents: new_contents(refs, numbers),
    }
}

// What is known of each version, by its number.
fn starting_index(
    alloc: Global,
    shape: Shape,
    firsts: &[Known],
) -> Result<Vec<Option<Known>>, AllocError>
    requires { length firsts.now ≤ shape.versions }
    ensures { IfOk result (λ known. known.items ≡ map Some firsts.now
        ++ replicate (version_count shape - length firsts.now) None) }
{
    let mut known = Vec::new(alloc);
    for first in firsts {
        known.push(Some(*first))?;
    }
    known.resize(shape.version_count() as usize, None)?;
    Ok(known)
}

// The entries that make the starting objects.
fn starting_chronicle(
    alloc: Global,
    callers: u32,
    firsts: &[Known],
) -> Result<Chronicle, AllocError>
    requires callers { 0 < callers }
    requires stand { AllStand [] (creates_of firsts.now) }
    ensures { IfOk result (λ chronicle. chronicle
        ≡ record { makers = callers; entries = creates_of firsts.now }) }
{
    let mut chronicle = Chronicle::new(alloc, callers)?;
    for first in firsts {
        chronicle.append(&create_of(0, first))?;
    }
    Ok(chronicle)
}

// What is counted of each region: in the first there are so many starting objects.
fn starting_rows(alloc: Global, shape: Shape, count: u32) -> Result<Vec<Row>, AllocError>
    ensures { IfOk result (λ rows. rows.items ≡ first_rows shape count) }
{
    let bare = Row {
        used: 0,
        made: 0,
        freed: 0,
        dead: false,
    };
    let mut rows = vec![in alloc; bare; (shape.callers * shape.regions) as usize]?;
    rows[0] = Row {
        used: count,
        made: u64::from(count),
        freed: 0,
        dead: false,
    };
    Ok(rows)
}

// Each caller holds the common object's version, and the first caller published all.
fn starting_hands(
    alloc: Global,
    shape: Shape,
    common: Known,
    firsts: &[Known],
) -> Result<Vec<Hand>, AllocError>
    requires { length firsts.now ≤ shape.versions }
    ensures { IfOk result (λ hands. hands.items ≡ first_hands shape common firsts.now) }
{
    let mut hands = Vec::new(alloc);
    hands.push(Hand::new(alloc, shape, common, firsts)?)?;
    for _ in 1..shape.callers {
        hands.push(Hand::new(alloc, shape, common, &[])?)?;
    }
    Ok(hands)
}

// The callers' seats, which have seen the opening.
fn starting_seats(alloc: Global, callers: u32, seen: usize) -> Result<Vec<Seat>, AllocError>
    ensures { IfOk result (λ seats. seats.items ≡ first_seats seen callers) }
{
    let mut seats = Vec::new(alloc);
    for caller in 0..callers {
        seats.push(Seat::of(alloc, caller, seen)?)?;
    }
    Ok(seats)
}
