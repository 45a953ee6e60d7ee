//! What the program does, over any shelf and any two sinks.
ghost use Rattle.std.specs.Prelude.{◌≡◌, ◌≢◌, ◌==◌, ◌<◌, ◌≤◌, ◌⊎◌, if◌then◌else◌, ℕ, List, [], ◌∷◌, Contains, IfSome, None, length};
ghost use Rattle.std.specs.Io.KnownBytes.{Appends};
ghost use Rattle.hm_edge.specs.Faults.{Rose, next_count};
ghost use Rattle.hm_replay.specs.Loading.{most_files};
ghost use Rattle.hm_replay.specs.Headline.{Headline, IsReplayOf, PutsText};
ghost use Rattle.hm_replay.specs.Wishes.{names_of};
ghost use Rattle.hm_replay.specs.Outcomes.{HasFront, SaysWhy};
ghost use Rattle.hm_replay.specs.Refusals.{IsTold};
ghost use Rattle.hm_tool.specs.Program.{ArePlain, AreRefused, asked_of};

use hm_desk::NoGate;
use hm_edge::{Finish, Memory, Shelf, Sink};
use hm_replay::{Outcome, Refused, run, tell};
use std::alloc::Global;
use std::thread::Threads;

/// Does what the words say, writes out what both sinks still keep, and gives the status with which the program ends:
/// that of the replay, but that of a failed write where a report that was taken whole could not be written out.
pub(crate) fn program<R: Threads + Sync, S: Shelf, K: Finish, E: Finish>(
    rt: &R,
    alloc: Global,
    words: Result<Vec<String>, Memory>,
    shelf: &mut S,
    out: &mut K,
    err: &mut E,
) -> Outcome
    ensures statuses { Contains (0 ∷ 1 ∷ 2 ∷ 3 ∷ 4 ∷ 5 ∷ 6 ∷ 7 ∷ []) result.status }

    // What was done: one lawful history on the heap, and the report of the interleaving that it spells.
    ensures headline { result.status ≡ 0 → IfSome (asked_of words) (λ wish.
        Headline (S.told shelf.old) wish result.closed (K.written out.old) (K.written out.new)) }
    ensures heap { IfSome (asked_of words) (λ wish.
        IfSome result.closed (IsReplayOf wish)) }
    ensures lines { result.status ≡ 0 → IfSome (asked_of words) (λ wish.
        IfSome result.closed (λ e. PutsText wish e (K.puts out.old) (K.puts out.new))) }
    ensures front { IfSome (asked_of words) (λ wish.
        HasFront wish result.closed (K.written out.old) (K.written out.new)) }
    ensures untouched { result.status ≢ 0 → result.status ≢ 1 → result.status ≢ 5
        → K.written out.new ≡ K.written out.old }
    ensures written_out { K.held out.new ≡ [] }

    // When each status comes, and what the sink for errors is told.
    ensures why { result.status ≢ 0 → SaysWhy (S.told shelf.old) (asked_of words)
        result.closed result.full result.status (S.failed shelf.old) (S.failed shelf.new)
        (E.written err.old) (E.written err.new) (E.faults err.old) (E.faults err.new) }
    ensures words { result.status ≡ 2 → AreRefused words }
    ensures refused { AreRefused words → (result.status ≡ 2) ⊎ (result.status ≡ 1) }
    ensures plain { ArePlain words → result.status ≢ 2 }
    ensures files { IfSome (asked_of words) (λ wish.
        most_files < length (names_of wish) → (result.status ≡ 7) ⊎ (result.status ≡ 1)) }
    ensures read { result.status ≡ 4 → Rose (S.faults shelf.old) (S.faults shelf.new) }
    ensures unread { result.status ≢ 4 → S.faults shelf.new ≡ S.faults shelf.old }
    ensures failures { result.status ≢ 4 → S.failed shelf.new ≡ S.failed shelf.old }
    ensures write { result.status ≡ 5 → Rose (K.faults out.old) (K.faults out.new) }
    ensures unwritten { result.status ≡ 0 → K.faults out.new ≡ K.faults out.old }
    ensures quiet { result.status ≡ 0 → E.written err.new ≡ E.written err.old }
    ensures one_put { E.puts err.new ≡ (if result.status == 0
        then E.puts err.old else next_count (E.puts err.old)) }
    ensures told_out { E.held err.new ≡ [] }
{
    let Outcome {
        status,
        closed,
        full,
    } = replay_words(rt, alloc, words, shelf, out, err);
    let status = finish_report(status, out, err);
    let _ = err.finish();
    Outcome {
        status,
        closed,
        full,
    }
}

// Replays what the words say, where there was memory for them.
fn replay_words<R: Threads + Sync, S: Shelf, K: Sink, E: Sink>(
    rt: &R,
    alloc: Global,
    words: Result<Vec<String>, Memory>,
    shelf: &mut S,
    out: &mut K,
    err: &mut E,
) -> Outcome
    ensures statuses { Contains (0 ∷ 1 ∷ 2 ∷ 3 ∷ 4 ∷ 5 ∷ 6 ∷ 7 ∷ []) result.status }
    ensures headline { result.status ≡ 0 → IfSome (asked_of words) (λ wish.
        Headline (S.told shelf.old) wish result.closed (K.written out.old) (K.written out.new)) }
    ensures heap { IfSome (asked_of words) (λ wish.
        IfSome result.closed (IsReplayOf wish)) }
    ensures lines { result.status ≡ 0 → IfSome (asked_of words) (λ wish.
        IfSome result.closed (λ e. PutsText wish e (K.puts out.old) (K.puts out.new))) }
    ensures front { IfSome (asked_of words) (λ wish.
        HasFront wish result.closed (K.written out.old) (K.written out.new)) }
    ensures untouched { result.status ≢ 0 → result.status ≢ 1 → result.status ≢ 5
        → K.written out.new ≡ K.written out.old }
    ensures why { result.status ≢ 0 → SaysWhy (S.told shelf.old) (asked_of words)
        result.closed result.full result.status (S.failed shelf.old) (S.failed shelf.new)
        (E.written err.old) (E.written err.new) (E.faults err.old) (E.faults err.new) }
    ensures words { result.status ≡ 2 → AreRefused words }
    ensures refused { AreRefused words → (result.status ≡ 2) ⊎ (result.status ≡ 1) }
    ensures plain { ArePlain words → result.status ≢ 2 }
    ensures files { IfSome (asked_of words) (λ wish.
        most_files < length (names_of wish) → (result.status ≡ 7) ⊎ (result.status ≡ 1)) }
    ensures read { result.status ≡ 4 → Rose (S.faults shelf.old) (S.faults shelf.new) }
    ensures unread { result.status ≢ 4 → S.faults shelf.new ≡ S.faults shelf.old }
    ensures failures { result.status ≢ 4 → S.failed shelf.new ≡ S.failed shelf.old }
    ensures write { result.status ≡ 5 → Rose (K.faults out.old) (K.faults out.new) }
    ensures unwritten { result.status ≢ 5 → K.faults out.new ≡ K.faults out.old }
    ensures untold { result.status ≡ 0 → err.new ≡ err.old }
    ensures one_put { E.puts err.new ≡ (if result.status == 0
        then E.puts err.old else next_count (E.puts err.old)) }
{
    let Ok(words) = words else {
        tell(Refused::Memory, err);
        return Outcome {
            status: Refused::Memory.status(),
            closed: None,
            full: None,
        };
    };
    run(rt, alloc, words.as_slice(), shelf, out, err, &NoGate)
}

// Writes out what the report's sink still keeps. Where that fails after a replay that was done, the status is that of a
// failed write, which is told.
fn finish_report<K: Finish, E: Sink>(status: u8, out: &mut K, err: &mut E) -> u8
    ensures same { status ≢ 0 → result ≡ status }
    ensures write { status ≡ 0 → result ≢ 0 → result ≡ 5 }

    ensures written { K.written out.new ≡ K.written out.old }
    ensures puts { K.puts out.new ≡ K.puts out.old }
    ensures held { K.held out.new ≡ [] }
    ensures sent { result ≡ 0 → Appends (K.sent out.old) (K.sent out.new) (K.held out.old) }
    ensures fault { status ≡ 0 → result ≢ 0 → Rose (K.faults out.old) (K.faults out.new) }
    ensures no_fault { result ≡ 0 → K.faults out.new ≡ K.faults out.old }
    ensures faults { K.faults out.old ≤ K.faults out.new }

    ensures quiet { result ≡ status → err.new ≡ err.old }
    ensures told { status ≡ 0 → result ≢ 0 → IsTold Refused.Write
        (E.written err.old) (E.written err.new) (E.faults err.old) (E.faults err.new) }
    ensures one_put { result ≢ status → E.puts err.new ≡ next_count (E.puts err.old) }
{
    match out.finish() {
        Ok(()) => status,
        Err(_) if status == 0 => {
            tell(Refused::Write, err);
            Refused::Write.status()
        }
        Err(_) => status,
    }
}
