//! The words of a fresh Table.
ghost use Rattle.std.specs.Prelude.{◌≡◌, ◌<◌, ◌≤◌, ◌++◌, ◌∷◌, IfOk, OnOk};
ghost use Rattle.std.specs.List.{flat_map};
ghost use Rattle.hm_model.specs.History.{starting_count, IsSizedStart};
ghost use Rattle.hm_moves.specs.Fresh.{all_known};
ghost use Rattle.hm_moves.specs.FirstWords.{AreFirst, LaysSide, first_words, head_words, known_words};

use hm_model::Start;
use hm_shape::{Role, Roles, Shape};
use std::alloc::{AllocError, Global};

/// The words of a fresh Table: the stage and the replies are 0, the first region of each caller is To, and the
/// starting objects are the first versions.
pub fn first_words(alloc: Global, shape: Shape, start: Start) -> Result<Vec<u64>, AllocError>
    requires { starting_count start ≤ shape.versions }
    ensures words { IfOk result (λ words. words.items ≡ first_words shape start) }
    ensures first { IfOk result (λ words. AreFirst shape start words.items) }
{
    let mut words = head(alloc, shape)?;
    lay_all(&mut words, start)?;
    words.resize(shape.word_count() as usize, 0)?;
    Ok(words)
}

// The words before those of the versions, with room for all of them.
fn head(alloc: Global, shape: Shape) -> Result<Vec<u64>, AllocError>
    ensures { IfOk result (λ words. words.items ≡ head_words shape) }
{
    let mut roles = [Role::Free; 8];
    roles[0] = Role::To;
    let callers = shape.callers as usize;
    let mut words = Vec::with_capacity(alloc, shape.word_count() as usize)?;
    words.resize(callers + 1, 0)?;
    words.resize(2 * callers + 1, Roles(roles).pack())?;
    Ok(words)
}

// The words of the starting versions.
fn lay_all(words: &mut Vec<u64>, start: Start) -> Result<(), AllocError>
    ensures sized { OnOk result (IsSizedStart start) }
    ensures laid { OnOk result (words.new.items
        ≡ words.old.items ++ flat_map known_words (all_known start)) }
{
    let mut next = 0;
    let [a, b, c, d] = start.sides;
    let refs = [
        lay_side(words, &mut next, a)?,
        lay_side(words, &mut next, b)?,
        lay_side(words, &mut next, c)?,
        lay_side(words, &mut next, d)?,
    ];
    lay(words, refs, start.numbers)
}

// The words of a side object's version, if it is given. Answers the word that names it.
fn lay_side(
    words: &mut Vec<u64>,
    next: &mut u64,
    side: Option<[u64; 10]>,
) -> Result<u64, AllocError>
    requires { next.old < 4 }
    ensures { IfOk result (λ word.
        LaysSide words.old.items next.old side word words.new.items next.new) }
{
    let Some(numbers) = side else {
        return Ok(0);
    };
    lay(words, [0; 4], numbers)?;
    *next += 1;
    Ok(*next)
}

// The words of a starting version.
fn lay(words: &mut Vec<u64>, refs: [u64; 4], numbers: [u64; 10]) -> Result<(), AllocError>
    ensures { OnOk result (words.new.items ≡ words.old.items ++ (0 ∷ 0 ∷ refs ++ numbers)) }
{
    words.extend_from_slice(&[0, 0])?;
    words.extend_from_slice(&refs)?;
    words.extend_from_slice(&numbers)
}
