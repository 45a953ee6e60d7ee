//! The program's work from its words to its status.
ghost use Rattle.std.specs.Prelude.{◌≡◌, ◌≢◌, ◌==◌, if◌then◌else◌, ◌⊎◌, ℕ, ◌<◌, ◌≤◌, ◌↔◌, List, [], ◌∷◌, Contains, length, Some, None, Ok, Err, IsSome, IfErr, IfSome, OnOk};
ghost use Rattle.hm_edge.specs.Faults.{Rose, next_count};
ghost use Rattle.hm_words.specs.Asked.{asked, texts, wish_of};
ghost use Rattle.hm_words.specs.Reading.{IsWithin};
ghost use Rattle.hm_replay.specs.Wishes.{IsPlain, names_of};
ghost use Rattle.hm_replay.specs.Loading.{most_files};
ghost use Rattle.hm_replay.specs.Headline.{Headline, IsReplayOf, PutsText};
ghost use Rattle.hm_replay.specs.Outcomes.{HasFront, IsWhy, names_lost, SaysWhy};
ghost use Rattle.hm_replay.specs.Refusals.{HasBegun, IsLate, IsTold, names_failed, unread_of};

use crate::conclusion::{FullAt, Stopped};
use crate::load::load;
use crate::refusal::Refused;
use crate::replay::{Replayed, replay};
use crate::task::{Task, write_as};
use hm_cellbook::BookUsage;
use hm_cells::Closed;
use hm_desk::Gate;
use hm_edge::{Shelf, Sink};
use hm_orders::Order;
use hm_words::{Asked, read_words};
use std::alloc::Global;
use std::thread::Threads;

/// What a replay of the named files came to, before anything is told of it.
#[derive(Drop)]
struct Ended {
    closed: Option<Closed<BookUsage>>,
    full: Option<FullAt>,
    result: Result<(), Refused>,
}

impl Ended {
    /// Refused before there was a heap.
    fn early(refused: Refused) -> Ended
        ensures closed { result.closed ≡ None }
        ensures full { result.full ≡ None }
        ensures result { result.result ≡ Err refused }
    {
        Ended {
            closed: None,
            full: None,
            result: Err(refused),
        }
    }
}

/// Replays what is asked for, and writes the report or the summary of it.
fn replay_asked<R: Threads + Sync, S: Shelf, K: Sink, G: Gate + Sync>(
    rt: &R,
    alloc: Global,
    asked: &Asked<'_>,
    shelf: &mut S,
    out: &mut K,
    gate: &G,
) -> Ended
    requires within { IsWithin (wish_of asked.now) }
    ensures headline { OnOk result.result (Headline (S.told shelf.old) (wish_of asked.now)
        result.closed (K.written out.old) (K.written out.new)) }
    ensures lines { OnOk result.result (IfSome result.closed (λ e.
        PutsText (wish_of asked.now) e (K.puts out.old) (K.puts out.new))) }
    ensures heap { IfSome result.closed (IsReplayOf (wish_of asked.now)) }
    ensures front { HasFront (wish_of asked.now) result.closed
        (K.written out.old) (K.written out.new) }
    ensures untouched { IfErr result.result (λ refused.
        HasBegun refused ⊎ (K.written out.new ≡ K.written out.old)) }
    ensures silent { IfErr result.result (λ refused.
        HasBegun refused ⊎ (K.puts out.new ≡ K.puts out.old)) }
    ensures unmade { result.closed ≡ None → K.written out.new ≡ K.written out.old }
    ensures closed { IfSome result.closed (λ _. IfErr result.result IsLate) }
    ensures full { IfSome result.full (λ at. result.result ≡ Err (Refused.Full at.caller)) }

    ensures why { IfErr result.result (IsWhy (S.told shelf.old) (Some (wish_of asked.now))
        result.closed result.full) }
    ensures files { most_files < length (names_of (wish_of asked.now))
        → result.result ≡ Err (Refused.Files (length (names_of (wish_of asked.now)))) }
    ensures read { IfSome (unread_of result.result)
        (λ _. Rose (S.faults shelf.old) (S.faults shelf.new)) }
    ensures unread { unread_of result.result ≡ None → S.faults shelf.new ≡ S.faults shelf.old }
    ensures write { result.result ≡ Err Refused.Write → Rose (K.faults out.old) (K.faults out.new) }
    ensures unwritten { result.result ≢ Err Refused.Write
        → K.faults out.new ≡ K.faults out.old }

    ensures failures { S.failed shelf.new ≡ names_failed (unread_of result.result)
        (Some (names_of (wish_of asked.now))) (S.failed shelf.old) }
    ensures same { (name : List ℕ) → S.told shelf.new name ≡ S.told shelf.old name }
{
    let task = match load(alloc, asked, shelf) {
        Ok(task) => task,
        Err(refused) => return Ended::early(refused),
    };
    let Task {
        settings,
        files,
        form,
    } = task;
    let limits = settings.limits;
    let admit = |order: &Order| limits.admits(order);
    let Replayed { closed, ended } = replay(rt, alloc, &settings, files, admit, gate);
    let report = match ended {
        Ok(report) => report,
        Err(Stopped::Full(at)) => {
            return Ended {
                closed,
                full: Some(at),
                result: Err(Refused::Full { caller: at.caller }),
            };
        }
        Err(Stopped::Memory) => {
            return Ended {
                closed,
                full: None,
                result: Err(Refused::Memory),
            };
        }
    };
    if let Err(refused) = write_as(alloc, form, &report, out) {
        return Ended {
            closed,
            full: None,
            result: Err(Refused::from(refused)),
        };
    }
    Ended {
        closed,
        full: None,
        result: Ok(()),
    }
}

/// Replays what the words ask for, and writes the report or the summary of it.
fn replay_words<R: Threads + Sync, S: Shelf, K: Sink, G: Gate + Sync>(
    rt: &R,
    alloc: Global,
    words: &[String],
    shelf: &mut S,
    out: &mut K,
    gate: &G,
) -> Ended
    ensures headline { OnOk result.result (IfSome (asked (texts words.now)) (λ wish.
        Headline (S.told shelf.old) wish result.closed (K.written out.old) (K.written out.new))) }
    ensures lines { OnOk result.result (IfSome (asked (texts words.now)) (λ wish.
        IfSome result.closed (λ e. PutsText wish e (K.puts out.old) (K.puts out.new)))) }
    ensures heap { IfSome (asked (texts words.now)) (λ wish.
        IfSome result.closed (IsReplayOf wish)) }
    ensures front { IfSome (asked (texts words.now)) (λ wish.
        HasFront wish result.closed (K.written out.old) (K.written out.new)) }
    ensures untouched { IfErr result.result (λ refused.
        HasBegun refused ⊎ (K.written out.new ≡ K.written out.old)) }
    ensures silent { IfErr result.result (λ refused.
        HasBegun refused ⊎ (K.puts out.new ≡ K.puts out.old)) }
    ensures unmade { result.closed ≡ None → K.written out.new ≡ K.written out.old }
    ensures closed { IfSome result.closed (λ _. IfErr result.result IsLate) }
    ensures full { IfSome result.full (λ at. result.result ≡ Err (Refused.Full at.caller)) }

    ensures why { IfErr result.result (IsWhy (S.told shelf.old) (asked (texts words.now))
        result.closed result.full) }
    ensures words { result.result ≡ Err Refused.Words → asked (texts words.now) ≡ None }
    ensures refused { asked (texts words.now) ≡ None
        → (result.result ≡ Err Refused.Words) ⊎ (result.result ≡ Err Refused.Memory) }
    ensures files { IfSome (asked (texts words.now)) (λ wish. most_files < length (names_of wish)
        → (result.result ≡ Err (Refused.Files (length (names_of wish))))
        ⊎ (result.result ≡ Err Refused.Memory)) }
    ensures read { IfSome (unread_of result.result)
        (λ _. Rose (S.faults shelf.old) (S.faults shelf.new)) }
    ensures unread { unread_of result.result ≡ None → S.faults shelf.new ≡ S.faults shelf.old }
    ensures write { result.result ≡ Err Refused.Write → Rose (K.faults out.old) (K.faults out.new) }
    ensures unwritten { result.result ≢ Err Refused.Write
        → K.faults out.new ≡ K.faults out.old }

    ensures failures { S.failed shelf.new ≡ names_lost (unread_of result.result)
        (asked (texts words.now)) (S.failed shelf.old) }
    ensures same { (name : List ℕ) → S.told shelf.new name ≡ S.told shelf.old name }
{
    match read_words(alloc, words) {
        Ok(asked) => replay_asked(rt, alloc, &asked, shelf, out, gate),
        Err(refused) => Ended::early(Refused::from(refused)),
    }
}

/// How the program ended.
#[derive(Drop)]
pub struct Outcome {
    /// 0 where the whole report was written, else the status of what went wrong.
    pub status: u8,
    /// What is left of the heap of the replay, where one was made.
    pub closed: Option<Closed<BookUsage>>,
    /// At status 6, for whom the heap was full.
    pub full: Option<FullAt>,
}

/// Tells `err` the line of the refusal in one piece, whatever becomes of it there. It takes no memory.
pub fn tell<E: Sink>(refused: Refused, err: &mut E)
    ensures line { IsTold refused (E.written err.old) (E.written err.new)
        (E.faults err.old) (E.faults err.new) }
    ensures put { E.puts err.new ≡ next_count (E.puts err.old) }
{
    let line = refused.message();
    let _ = err.put(line.as_str().as_bytes());
}

/// Does what the words say: `replay FILE..` reads the files from the shelf, applies their orders to an empty book on a
/// shared heap, those of each file in order and by a caller of their own, and writes the report to `out`. The callers
/// work side by side, so the report is of one interleaving of the files. `generate NUMBER COUNT` makes the orders of one
/// file from a number, applies them in the same way, and writes a summary. What goes wrong is told to `err` in one
/// piece, and the status says what it was. A gate holds callers up before their orders, and has no part in any result.
pub fn run<R: Threads + Sync, S: Shelf, K: Sink, E: Sink, G: Gate + Sync>(
    rt: &R,
    alloc: Global,
    words: &[String],
    shelf: &mut S,
    out: &mut K,
    err: &mut E,
    gate: &G,
) -> Outcome
    ensures statuses { Contains (0 ∷ 1 ∷ 2 ∷ 3 ∷ 4 ∷ 5 ∷ 6 ∷ 7 ∷ []) result.status }

    // What was done: one lawful history on the heap, and the report of the interleaving that it spells.
    ensures headline { result.status ≡ 0 → IfSome (asked (texts words.now)) (λ wish.
        Headline (S.told shelf.old) wish result.closed (K.written out.old) (K.written out.new)) }
    ensures heap { IfSome (asked (texts words.now)) (λ wish.
        IfSome result.closed (IsReplayOf wish)) }
    ensures lines { result.status ≡ 0 → IfSome (asked (texts words.now)) (λ wish.
        IfSome result.closed (λ e. PutsText wish e (K.puts out.old) (K.puts out.new))) }
    ensures front { IfSome (asked (texts words.now)) (λ wish.
        HasFront wish result.closed (K.written out.old) (K.written out.new)) }
    ensures untouched { result.status ≢ 0 → result.status ≢ 1 → result.status ≢ 5
        → K.written out.new ≡ K.written out.old }
    ensures silent { result.status ≢ 0 → result.status ≢ 1 → result.status ≢ 5
        → K.puts out.new ≡ K.puts out.old }
    ensures unmade { result.closed ≡ None → K.written out.new ≡ K.written out.old }
    ensures closed { IfSome result.closed
        (λ _. Contains (0 ∷ 1 ∷ 5 ∷ 6 ∷ []) result.status) }
    ensures full { IfSome result.full (λ _. result.status ≡ 6) }

    // When each other status comes; 1, want of memory, may come at any time, but hides no fault.
    ensures why { result.status ≢ 0 → SaysWhy (S.told shelf.old) (asked (texts words.now))
        result.closed result.full result.status (S.failed shelf.old) (S.failed shelf.new)
        (E.written err.old) (E.written err.new) (E.faults err.old) (E.faults err.new) }
    ensures words { result.status ≡ 2 → asked (texts words.now) ≡ None }
    ensures refused { asked (texts words.now) ≡ None → (result.status ≡ 2) ⊎ (result.status ≡ 1) }
    ensures plain { IsPlain (texts words.now) → result.status ≢ 2 }
    ensures files { IfSome (asked (texts words.now)) (λ wish.
        most_files < length (names_of wish) → (result.status ≡ 7) ⊎ (result.status ≡ 1)) }
    ensures read { result.status ≡ 4 → Rose (S.faults shelf.old) (S.faults shelf.new) }
    ensures unread { result.status ≢ 4 → S.faults shelf.new ≡ S.faults shelf.old }
    ensures write { result.status ≡ 5 → Rose (K.faults out.old) (K.faults out.new) }
    ensures unwritten { result.status ≢ 5 → K.faults out.new ≡ K.faults out.old }

    // What the shelf and the sink for errors are left with.
    ensures failures { result.status ≢ 4 → S.failed shelf.new ≡ S.failed shelf.old }
    ensures same { (name : List ℕ) → S.told shelf.new name ≡ S.told shelf.old name }
    ensures untold { result.status ≡ 0 → err.new ≡ err.old }
    ensures one_put { E.puts err.new ≡ (if result.status == 0
        then E.puts err.old else next_count (E.puts err.old)) }
{
    let Ended {
        closed,
        full,
        result,
    } = replay_words(rt, alloc, words, shelf, out, gate);
    let Err(refused) = result else {
        return Outcome {
            status: 0,
            closed,
            full,
        };
    };
    tell(refused, err);
    Outcome {
        status: refused.status(),
        closed,
        full,
    }
}

#[cfg(test)]
mod tests;
