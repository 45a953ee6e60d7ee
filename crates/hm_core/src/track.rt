//! What the machine keeps of a caller's cycle: the stage and replies as it knows them, its regions and its last join,
//! and how far its scan has come.
ghost use Rattle.std.specs.Prelude.{◌≡◌, ◌+◌, ◌++◌, ◌<◌, ◌^◌, ◌==◌, ◌&&◌, ◌||◌, not, [], ◌∷◌, false, None, IfOk, OnErr, OnOk, is_some, slice_index_or, if◌then◌else◌};
ghost use Rattle.std.specs.List.{list_all};
ghost use Rattle.hm_moves.specs.Cycles.{gives_from as mask_gives_from, is_before};
ghost use Rattle.hm_moves.specs.Decoding.{reply_in as reply_of_word, roles_in as roles_of_word, stage_in};

use crate::ticking::seen_word;
use hm_moves::{End, Known, Seen, Tick};
use hm_shape::{Phase, Reply, Role, Roles, Shape, Stage};
use std::alloc::{AllocError, Global};
use std::marker::Model;

/// What is kept of a caller's cycle.
#[derive(Drop)]
pub(crate) struct Track {
    /// The stage that it saw last.
    stage: Seen,
    reply: Option<Reply>,
    /// Of each caller the reply that it loaded in this stage, if any.
    replies: Vec<Option<Reply>>,
    moves: u64,
    roles: Roles,
    joined: bool,
    join: Option<u32>,
    done: u32,
    /// Of each caller the roles that it loaded as a mask, if any.
    masks: Vec<Option<Roles>>,
    mark: bool,
    cursor: u64,
    ends: Vec<End>,
    bare: bool,
    /// The version of from-space at which its scan has stopped, if any.
    met: Option<Known>,
}

impl Model for Track {
    ghost use Rattle.std.specs.Prelude.{◌<◌, ◌^◌};
    ghost use Rattle.hm_moves.specs.declared.part.Cycle.{Cycle};

    ghost Value = { Cycle };

    ghost view = { λ t. record {
      clock = record {
        stage = t.stage;
        reply = t.reply;
        replies = t.replies.items;
        moves = t.moves;
      };
      ties = record { roles = t.roles; joined = t.joined; join = t.join; done = t.done };
      scan = record {
        masks = t.masks.items;
        mark = t.mark;
        cursor = t.cursor;
        ends = t.ends.items;
        bare = t.bare;
        met = t.met;
      };
    } };

    ghost invariant = { λ t. t.stage.done < 2 ^ 30 };
}

impl Track {
    ghost use Rattle.hm_moves.specs.declared.part.Cycle.{Cycle};
    ghost use Rattle.hm_moves.specs.Fresh.{fresh_cycle};
    ghost use Rattle.hm_moves.specs.declared.moving.Act.TheVariants.{Ticks};
    ghost use Rattle.hm_moves.specs.declared.moving.Tick.TheVariants.{MoveStage};
    ghost use Rattle.hm_core.specs.Hands.{cycle_bared, cycle_ended, cycle_joined, cycle_loaded, cycle_masked, cycle_noted, cycle_reused, cycle_seeing, cycle_ticked, cycle_turned, cycle_unanswered, cycle_unmasked, scans, FindsWord};

    /// What a caller of a fresh heap knows.
    pub fn new(alloc: Global, shape: Shape) -> Result<Track, AllocError>
        ensures { IfOk result (λ track. track ≡ fresh_cycle shape) }
    {
        let callers = shape.callers as usize;
        let mut roles = [Role::Free; 8];
        roles[0] = Role::To;
        Ok(Track {
            stage: Seen {
                number: 0,
                done: 0,
                phase: Phase::Idle,
            },
            reply: None,
            replies: vec![in alloc; None; callers]?,
            moves: 0,
            roles: Roles(roles),
            joined: false,
            join: None,
            done: 0,
            masks: vec![in alloc; None; callers]?,
            mark: false,
            cursor: 0,
            ends: Vec::new(alloc),
            bare: false,
            met: None,
        })
    }

    /// The stage that the caller saw last.
    pub fn stage(&self) -> Seen
        ensures stage { result ≡ self.now.clock.stage }
        ensures low { result.done < 2 ^ 30 }
    {
        self.stage
    }

    /// Whether it has not replied to that stage.
    pub fn is_open(&self) -> bool
        ensures { result ≡ is_before self.now.clock.reply self.now.clock.stage.number }
    {
        match self.reply {
            Some(reply) => reply.number < self.stage.number,
            None => true,
        }
    }

    /// Whether it scans: it has seen a First, and not replied to it.
    pub fn is_scanning(&self) -> bool
        ensures { result ≡ scans self.now.clock }
    {
        self.stage.phase == Phase::First && self.is_open()
    }

    /// The reply of a caller that it loaded in that stage, if any.
    pub fn reply_of(&self, caller: u32) -> Option<Reply>
        ensures { result ≡ slice_index_or self.now.clock.replies caller None }
    {
        self.replies.get(caller as usize).copied().flatten()
    }

    /// The roles of its regions.
    pub fn roles(&self) -> Roles
        ensures { result ≡ self.now.ties.roles }
    {
        self.roles
    }

    /// Whether it has joined, and freed nothing since.
    pub fn is_joined(&self) -> bool
        ensures { result ≡ self.now.ties.joined }
    {
        self.joined
    }

    /// The number of the Join in which it joined last.
    pub fn join(&self) -> Option<u32>
        ensures { result ≡ self.now.ties.join }
    {
        self.join
    }

    /// How many cycles were done then.
    pub fn done(&self) -> u32
        ensures { result ≡ self.now.ties.done }
    {
        self.done
    }

    /// Whether it has met from-space outside of a scan.
    pub fn is_marked(&self) -> bool
        ensures { result ≡ self.now.scan.mark }
    {
        self.mark
    }

    /// How many fields its scan has passed.
    pub fn cursor(&self) -> u64
        ensures { result ≡ self.now.scan.cursor }
    {
        self.cursor
    }

    /// Whether it is bare.
    pub fn is_bare(&self) -> bool
        ensures { result ≡ self.now.scan.bare }
    {
        self.bare
    }

    /// Whether it has a mask of every caller.
    pub fn has_masks(&self) -> bool
        ensures { result ≡ list_all is_some self.now.scan.masks }
    {
        self.masks.iter().all(|mask| mask.is_some())
    }

    /// Whether its mask of an owner gives a region as From.
    pub fn gives_from(&self, owner: u32, region: u32) -> bool
        requires { region < 8 }
        ensures { result ≡ mask_gives_from (slice_index_or self.now.scan.masks owner None) region }
    {
        match self.masks.get(owner as usize) {
            Some(Some(roles)) => roles.0[region as usize] == Role::From,
            _ => false,
        }
    }

    /// What a tick that found a word leaves.
    pub fn tick(&mut self, tick: &Tick, found: u64)
        requires word { FindsWord (Ticks tick.now) found }
        requires moves { self.old.clock.moves + 1 < 2 ^ 64 }
        ensures { self.new ≡ cycle_ticked self.old tick.now found }
    {
        match *tick {
            Tick::LoadStage => self.see(seen_in(found)),
            Tick::MoveStage { from, to } => self.move_stage(from, to, found),
            Tick::LoadReply { of } => {
                if (of as usize) < self.replies.len() {
                    self.replies[of as usize] = reply_in(found);
                }
            }
            Tick::StoreReply { reply } => {
                self.reply = Some(reply);
                self.mark = self.mark && self.stage.phase != Phase::First;
            }
        }
    }

    // The stage is exchanged where it is the one that the caller has seen.
    fn move_stage(&mut self, from: Seen, to: Seen, found: u64)
        requires from { from.done < 2 ^ 30 }
        requires to { to.done < 2 ^ 30 }
        requires moves { self.old.clock.moves + 1 < 2 ^ 64 }
        ensures { self.new ≡ cycle_ticked self.old (MoveStage from to) found }
    {
        if found == seen_word(from) {
            self.see(seen_in(seen_word(to)));
            self.moves += 1;
        } else {
            self.see(seen_in(found));
        }
    }

    // A stage is seen: replies that were loaded in another one are forgotten.
    fn see(&mut self, stage: Seen)
        requires { stage.done < 2 ^ 30 }
        ensures { self.new ≡ cycle_seeing self.old stage }
    {
        if seen_word(stage) != seen_word(self.stage) {
            self.drop_replies();
        }
        self.stage = stage;
    }

    // It knows no reply.
    fn drop_replies(&mut self)
        ensures { self.new ≡ cycle_unanswered self.old }
    {
        self.replies.fill(None);
    }

    /// A caller loads the roles of one, as a mask where it has seen a First. One that scans begins its scan anew.
    pub fn load_roles(&mut self, caller: u32, of: u32, found: u64)
        requires { found < 2 ^ 16 }
        ensures { self.new ≡ cycle_loaded caller self.old of found }
    {
        if self.stage.phase == Phase::First {
            self.set_mask(of, found);
        }
        if self.is_scanning() {
            self.begin_anew(of == caller);
        }
        self.ends.clear();
        self.bare = false;
        self.met = None;
    }

    // The word is the mask of a caller.
    fn set_mask(&mut self, of: u32, found: u64)
        requires { found < 2 ^ 16 }
        ensures { self.new ≡ cycle_masked self.old of found }
    {
        if (of as usize) < self.masks.len() {
            self.masks[of as usize] = Some(roles_in(found));
        }
    }

    // A scan begins anew: a load of its own roles takes the mark away.
    fn begin_anew(&mut self, own: bool)
        ensures { self.new ≡ cycle_noted self.old (self.old.scan.mark && not own) 0
            self.old.scan.met }
    {
        self.mark = self.mark && !own;
        self.cursor = 0;
    }

    /// The caller joins with these roles.
    pub fn join_with(&mut self, roles: Roles)
        ensures { self.new ≡ cycle_joined self.old roles }
    {
        self.roles = roles;
        self.joined = true;
        self.join = Some(self.stage.number);
        self.done = self.stage.done;
        self.drop_masks();
    }

    /// It turns to these roles.
    pub fn turn_to(&mut self, roles: Roles)
        ensures { self.new ≡ cycle_turned self.old roles }
    {
        self.roles = roles;
    }

    /// It frees what it gave up, and has these roles.
    pub fn reuse_as(&mut self, roles: Roles)
        ensures { self.new ≡ cycle_reused self.old roles }
    {
        self.roles = roles;
        self.joined = false;
        self.drop_masks();
    }

    // It has no mask, and its scan has passed nothing.
    fn drop_masks(&mut self)
        ensures { self.new ≡ cycle_unmasked self.old }
    {
        self.masks.fill(None);
        self.cursor = 0;
        self.bare = false;
        self.met = None;
    }

    /// It is marked, where it has met from-space, and its scan passes a field, or stops at what it found.
    pub fn note(&mut self, marks: bool, passes: bool, stops: bool, found: Option<Known>)
        requires { self.old.scan.cursor + 1 < 2 ^ 64 }
        ensures { self.new ≡ cycle_noted self.old (self.old.scan.mark || marks)
            (if passes then self.old.scan.cursor + 1 else self.old.scan.cursor)
            (if passes then None else if stops then found else self.old.scan.met) }
    {
        self.mark = self.mark || marks;
        if passes {
            self.cursor += 1;
            self.met = None;
        } else if stops {
            self.met = found;
        }
    }

    /// It is bare or not.
    pub fn set_bare(&mut self, bare: bool)
        ensures { self.new ≡ cycle_bared self.old bare }
    {
        self.bare = bare;
    }

    /// It has found the end of a chain. Without memory nothing changes.
    pub fn push_end(&mut self, end: End) -> Result<(), AllocError>
        ensures found { OnOk result (self.new ≡ cycle_ended self.old (end ∷ [])) }
        ensures unchanged { OnErr result (self.new ≡ self.old) }
    {
        self.ends.push(end)?;
        Ok(())
    }

    /// It forgets the end that it found last.
    pub fn pop_end(&mut self)
        ensures { (c : Cycle) (end : End) → self.old ≡ cycle_ended c (end ∷ []) → self.new ≡ c }
    {
        self.ends.pop();
    }
}

// The stage that a word says.
fn seen_in(word: u64) -> Seen
    ensures stage { result ≡ stage_in word }
    ensures low { result.done < 2 ^ 30 }
{
    match Stage::unpack(word) {
        Some(stage) => Seen {
            number: stage.number,
            done: stage.done,
            phase: stage.phase,
        },
        None => unreachable!(),
    }
}

// The reply that a word says.
fn reply_in(word: u64) -> Option<Reply>
    requires { word < 2 ^ 34 }
    ensures { result ≡ reply_of_word word }
{
    Reply::unpack(word)
}

// The roles that a word says.
fn roles_in(word: u64) -> Roles
    requires { word < 2 ^ 16 }
    ensures { result ≡ roles_of_word word }
{
    match Roles::unpack(word) {
        Some(roles) => roles,
        None => unreachable!(),
    }
}
