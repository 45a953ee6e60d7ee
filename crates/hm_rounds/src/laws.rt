//! The laws of the rounds: the rule that every moment keeps, and what follows from it.
ghost use Rattle.std.specs.Prelude.{◌≡◌, ◌≢◌, ◌⊎◌, ◌↔◌, ℕ, ◌+◌, ◌*◌, ◌<◌, ◌≤◌, Bool, true, false, List};
ghost use Rattle.hm_rounds.specs.Phases.{First, Second, Free, From, is_answer, is_from, is_round, phase_place};
ghost use Rattle.hm_rounds.specs.State.{State};
ghost use Rattle.hm_rounds.specs.Views.{masks_count, title, Live, IsDead};
ghost use Rattle.hm_rounds.specs.Steps.{Step};
ghost use Rattle.hm_rounds.specs.After.{after};
ghost use Rattle.hm_rounds.specs.Allowed.{HasPlace};
ghost use Rattle.hm_rounds.specs.Rule.{Warned, Good};
ghost use Rattle.hm_rounds.specs.Runs.{Taken, MayTake, run, MayRun, IsOpening, IsMoment};
ghost use Rattle.hm_rounds.specs.Reach.{Reached, InHolding, IsReusable};
ghost use Rattle.hm_rounds.specs.Rounds.{publishes, IsNextStage, EndsCycle, MayFree, ScansRight};
ghost use Rattle.hm_rounds.specs.Story.{start, first_round, story, other_kinds, MissesOne, IsCopiedOut};
ghost use Rattle.hm_rounds.specs.Parts.{Word, part_of, SaysSame, word_of};

/// An opening keeps the rule, each step keeps it, and so does each list of steps: the rule holds at every moment.
pub fn each_step_keeps_the_rule()
    ensures opening { (state : State) → IsOpening state → Good state }
    ensures step { (state : State) (caller : ℕ) (bare : Bool) (step : Step) → Good state
        → MayTake state caller bare step → Good (after state caller bare step) }
    ensures steps { (state : State) (steps : List Taken) → Good state
        → MayRun state steps → Good (run state steps) }
    ensures moment { (state : State) → IsMoment state → Good state }
{}

/// At every moment what a caller holds is live, and so is what a live version names: each version in the reach is used,
/// and its region is neither Free nor dead. So nobody may use its region again, nobody is given it as the next version,
/// and no step ends its use.
pub fn what_is_reached_is_not_used_again()
    ensures held { (state : State) (caller version : ℕ) → IsMoment state
        → caller < state.shape.callers → state.hands.held caller version ≡ true
        → Live state version }
    ensures named { (state : State) (version field : ℕ) → IsMoment state
        → Live state version → field < state.shape.fields
        → state.versions.word version field ≢ 0 → Live state (state.versions.word version field) }
    ensures reached { (state : State) (version : ℕ) → IsMoment state
        → Reached state version → Live state version }
    ensures kept { (state : State) (version caller : ℕ) → IsMoment state
        → Reached state version → IsReusable state caller (state.shape.region version) → ⊥ }
    ensures given { (state : State) (version caller : ℕ) → IsMoment state
        → Reached state version → HasPlace state caller → version ≢ state.hands.next caller }
    ensures used { (state : State) (version caller : ℕ) (bare : Bool) (step : Step)
        → IsMoment state → Reached state version
        → (after state caller bare step).uses.used version ≡ true }
{}

/// A version becomes live by its publishing alone. No step but the end of a cycle ends its life; and that ends the lives
/// of those in From regions, and of no others.
pub fn a_version_lives_until_its_cycle_ends()
    ensures begins { (state : State) (caller : ℕ) (bare : Bool) (step : Step) (version : ℕ)
        → IsMoment state → MayTake state caller bare step
        → Live (after state caller bare step) version
        → Live state version ⊎ ((publishes step ≡ true) × (version ≡ state.hands.next caller)) }
    ensures published { (state : State) (caller : ℕ) (bare : Bool) (step : Step)
        → MayTake state caller bare step → publishes step ≡ true
        → Live (after state caller bare step) (state.hands.next caller) }
    ensures stays { (state : State) (caller : ℕ) (bare : Bool) (step : Step) (version : ℕ)
        → IsMoment state → MayTake state caller bare step → Live state version
        → (after state caller bare step).clock.done ≡ state.clock.done
        → Live (after state caller bare step) version }
    ensures ends { (state : State) (caller : ℕ) (bare : Bool) (step : Step) (version : ℕ)
        → IsMoment state → MayTake state caller bare step → Live state version
        → (after state caller bare step).clock.done ≢ state.clock.done
        → Live (after state caller bare step) version
        ↔ (state.roles (state.shape.region version) ≢ From) }
{}

/// A region becomes Free, a From region gets another role, and a version ceases to be used, only where the region is a
/// From region of the stepping caller, which joined when fewer cycles were done than it has seen done; the region is
/// dead then.
pub fn a_region_is_freed_after_its_cycle()
    ensures freed { (state : State) (caller : ℕ) (bare : Bool) (step : Step) (region : ℕ)
        → MayTake state caller bare step → state.roles region ≢ Free
        → (after state caller bare step).roles region ≡ Free → MayFree state caller region }
    ensures taken { (state : State) (caller : ℕ) (bare : Bool) (step : Step) (region : ℕ)
        → MayTake state caller bare step → state.roles region ≡ From
        → (after state caller bare step).roles region ≢ From → MayFree state caller region }
    ensures unused { (state : State) (caller : ℕ) (bare : Bool) (step : Step) (version : ℕ)
        → MayTake state caller bare step → state.uses.used version ≡ true
        → (after state caller bare step).uses.used version ≡ false
        → MayFree state caller (state.shape.region version) }
    ensures dead { (state : State) (caller region : ℕ) → IsMoment state
        → MayFree state caller region
        → IsDead (state.roles region) (state.ties.done caller) state.clock.done }
{}

/// The stage moves to Join, or over a reply of every caller to the stage before: to First over Joined or from a Second,
/// to Second and to Idle over Clean. The done count rises only by the move from Second to Idle, so that the stage has
/// moved at least four times for each cycle that is done.
pub fn a_cycle_ends_over_clean_replies()
    ensures moves { (state : State) (caller : ℕ) (bare : Bool) (step : Step) → IsMoment state
        → MayTake state caller bare step
        → (after state caller bare step).clock.number ≢ state.clock.number
        → IsNextStage state (after state caller bare step) }
    ensures ends { (state : State) (caller : ℕ) (bare : Bool) (step : Step) → IsMoment state
        → MayTake state caller bare step
        → (after state caller bare step).clock.done ≢ state.clock.done
        → EndsCycle state (after state caller bare step) }
    ensures number { (state : State) → IsMoment state
        → 4 * state.clock.done + phase_place state.clock.phase < state.clock.number }
{}

/// Nobody replies ahead of the stage, and nobody's replies go back. In a round each caller has replied to the present
/// stage or to the one before. A reply to the stage that a caller has seen answers its phase, as the caller knows it.
pub fn replies_keep_up_with_the_stage()
    ensures ahead { (state : State) (caller : ℕ) → IsMoment state
        → state.clock.replied caller ≤ state.clock.number }
    ensures rising { (state : State) (caller other : ℕ) (bare : Bool) (step : Step)
        → MayTake state caller bare step
        → state.clock.replied other ≤ (after state caller bare step).clock.replied other }
    ensures recent { (state : State) (caller : ℕ) → IsMoment state
        → is_round state.clock.phase ≡ true → caller < state.shape.callers
        → state.clock.number ≤ state.clock.replied caller + 1 }
    ensures answered { (state : State) (caller other : ℕ) → IsMoment state
        → 0 < state.clock.known caller other
        → state.clock.known caller other ≡ state.clock.seen caller
        → is_answer (state.clock.seen_phase caller) (state.clock.known_reply caller other) ≡ true }
{}

/// In First and Second every caller has joined in this cycle, and each mask that a caller has is the owner's present
/// one. In First the holding of a caller that has replied and is unmarked has nothing of a From region. In Second such
/// a version in any caller's holding means that some caller is marked, and has not replied Clean.
pub fn a_round_finds_what_is_left()
    ensures joined { (state : State) (caller : ℕ) → IsMoment state
        → is_round state.clock.phase ≡ true → caller < state.shape.callers
        → state.ties.done caller ≡ state.clock.done }
    ensures masks { (state : State) (caller region : ℕ) → IsMoment state
        → is_round state.clock.phase ≡ true → caller < state.shape.callers
        → state.masks.loaded caller (state.shape.owner region) ≡ true
        → state.masks.from caller region ≡ is_from (state.roles region) }
    ensures clean { (state : State) (caller version : ℕ) → IsMoment state
        → state.clock.phase ≡ First → state.clock.replied caller ≡ state.clock.number
        → state.scan.mark caller ≡ false → InHolding state caller version
        → state.roles (state.shape.region version) ≢ From }
    ensures warned { (state : State) (caller version : ℕ) → IsMoment state
        → state.clock.phase ≡ Second → caller < state.shape.callers
        → InHolding state caller version → state.roles (state.shape.region version) ≡ From
        → Warned state }
{}

/// In First and Second, and while a caller scans, its masks are right, and so is what its scan has shown.
pub fn a_scan_tells_the_truth()
    ensures right { (state : State) (caller : ℕ) → IsMoment state → caller < state.shape.callers
        → masks_count state.clock caller ≡ true → ScansRight state caller }
{}

/// The live versions of an object are one chain: a link names a later one, and at most one of them has link 0. That one
/// has the references that the plain store gives the object.
pub fn chains_show_the_store()
    ensures link { (state : State) (version : ℕ) → IsMoment state → Live state version
        → state.versions.word version 0 ≢ 0
        → (state.versions.object (state.versions.word version 0) ≡ state.versions.object version)
        × (state.versions.rank version
        < state.versions.rank (state.versions.word version 0)) }
    ensures end { (state : State) (version other : ℕ) → IsMoment state
        → Live state version → Live state other
        → state.versions.word version 0 ≡ 0 → state.versions.word other 0 ≡ 0
        → state.versions.object other ≡ state.versions.object version → other ≡ version }
    ensures refs { (state : State) (version field : ℕ) → IsMoment state → Live state version
        → state.versions.word version 0 ≡ 0 → 0 < field → field < state.shape.fields
        → state.store.refs (state.versions.object version) field
        ≡ title state.versions (state.versions.word version field) }
{}

/// A region is freed at most once for each cycle that its owner has seen done, and filled once more than that at most.
/// No caller is more than one done count behind. No rank reaches the number of all versions ever published.
pub fn a_region_is_filled_once_a_cycle()
    ensures freed { (state : State) (region : ℕ) → IsMoment state
        → state.uses.freed region ≤ state.clock.seen_done (state.shape.owner region) }
    ensures from { (state : State) (region : ℕ) → IsMoment state
        → state.roles region ≡ From
        → state.uses.freed region ≤ state.ties.done (state.shape.owner region) }
    ensures made { (state : State) (region : ℕ) → IsMoment state
        → state.uses.made region ≤ state.shape.places * (state.clock.done + 1) }
    ensures behind { (state : State) (caller : ℕ) → IsMoment state
        → caller < state.shape.callers → state.clock.done ≤ state.clock.seen_done caller + 1 }
    ensures ranks { (state : State) (version : ℕ) → IsMoment state
        → state.uses.used version ≡ true → state.versions.rank version < state.uses.total }
{}

/// One clean round misses a version that two rounds find: a run of two callers, in which a version of a From region is
/// held after both have replied Clean to a First, and at whose end both their regions were freed. Each kind of step is
/// taken in this run or in another one.
pub fn one_clean_round_misses_what_two_find()
    ensures opening { IsOpening start }
    ensures run { MayRun start story }
    ensures others { MayRun start other_kinds }
    ensures misses { MissesOne (run start first_round) 0 1 }
    ensures frees_first { IsCopiedOut (run start story) 0 1 2 }
    ensures frees_other { IsCopiedOut (run start story) 1 11 12 }
{}

/// A step changes nothing of another caller's part, and no word but its own.
pub fn a_step_leaves_all_else()
    ensures parts { (state : State) (caller other : ℕ) (bare : Bool) (step : Step) → other ≢ caller
        → part_of (after state caller bare step) other ≡ part_of state other }
    ensures words { (state : State) (caller : ℕ) (bare : Bool) (step : Step) (word : Word)
        → MayTake state caller bare step → word ≢ word_of state caller step
        → SaysSame state (after state caller bare step) word }
{}
