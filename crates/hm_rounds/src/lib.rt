//! How regions come to be used again: the rules over all callers, as logic.
//!
//! Each caller writes new versions of objects into a region of its own. Nobody frees a version: a caller gives a whole
//! region up, all callers take out of it what they still name, and when all have said twice that nothing of it is left
//! in their hands, its owner uses it again. No call runs here, and the heap's words are not packed here. The state has
//! one function a fact (`specs/State.antt`), and its parts are numbers: callers and regions from 0, versions, objects
//! and stages from 1, so that 0 names none.
//!
//! # The stage
//!
//! All callers see one stage. It has a phase, a number, and a done count, which says how many cycles are done. A move
//! raises the number by one.
//!
//! ```text
//!                begin               all have joined
//!      +------+          +------+                     +-------+
//!      | Idle | -------> | Join | ------------------> | First | <----+
//!      +------+          +------+                     +-------+      |
//!         ^                 ^                             |          |
//!         |                 |                  all clean  |          | all have replied,
//!         |                 | restart, from any phase     v          | some Dirty
//!         |                                           +--------+     |
//!         +------------------------------------------ | Second | ----+
//!                     all clean: done + 1             +--------+
//! ```
//!
//! | To | Who may move it | Over which replies to the stage before |
//! |---|---|---|
//! | Join | any caller, at any time | none |
//! | First, from Join | any caller | a Joined reply of every caller |
//! | Second, from First | any caller | a Clean reply of every caller |
//! | First, from Second | any caller | a reply of every caller, Clean or Dirty |
//! | Idle, from Second, with one cycle more done | any caller | a Clean reply of every caller |
//!
//! 1. *Join*. In one store of its roles each caller turns its To and Old regions into From, takes a Free one as To, and
//!    frees what it gave up in a cycle before. It drops its masks, and replies Joined.
//! 2. *First*. Each caller loads all roles. They are its masks: by them it knows each From region. It scans its own
//!    part: it copies out what it still names there, and lets go of the rest. It replies Clean where it is bare: where
//!    it knows nothing as From of what it holds, and of what its own versions in To and Old name.
//! 3. *Second*. Nobody scans. A caller that met a From version outside of a scan is marked, and replies Dirty, so that
//!    there is another First. Any other replies Clean.
//! 4. *Idle*. What was given up in this cycle is dead: nobody has a name of it. Its owner may free it.
//!
//! # The roles of a region
//!
//! Two regions X and Y of one caller, through two cycles:
//!
//! ```text
//!   done  |               0               |                1                |      2
//!   stage | Idle   Join   First   Second  |  Idle   Join   First   Second   |  Idle
//!   ------+-------------------------------+---------------------------------+-----------------
//!     X   |  To     From ---------------> |  dead    To ------------------> |   To
//!     Y   |  Free   To -----------------> |  To      From ----------------> |  dead, then Free
//! ```
//!
//! A From region is *dead* where its owner joined when fewer cycles were done than now. Only then it becomes Free: at
//! the owner's next join, as X here, which is taken as To at once, or at a reuse before, as Y. A turn makes a To region
//! Old, and takes a Free one as To; Old goes to From with the next join. From-space is what lies in From regions that
//! are not dead; in First and Second that is all of them.
//!
//! # Why two rounds, and not one
//!
//! A caller that has replied Clean goes on with its work, and may read an old name out of a version whose owner has not
//! scanned it yet. This is run step by step in `specs/Story.antt`, and proved to be a run:
//!
//! | No. | Caller | What it does | What it holds then |
//! |---|---|---|---|
//! | 1 | both | join: version 1, caller 0's, and 11, caller 1's, which names it, are From | each: versions 1 and 11 |
//! | 2 | 1 | copies version 11 as 12, in its To region; 12 still names version 1 | 1: versions 1, 11 and 12 |
//! | 3 | 0 | copies version 1 as 2, goes from 11 to 12, lets 1 and 11 go, replies Clean | 0: versions 2 and 12 |
//! | 4 | 0 | loads the reference of version 12, and finds version 1: it is marked | 0: versions 1, 2 and 12 |
//! | 5 | 1 | shortens that reference to version 2, lets 1 and 11 go, replies Clean | 1: versions 2 and 12 |
//!
//! Now both have replied Clean to one First, and caller 0 holds version 1. Were the cycle done here, caller 0's region
//! would be freed under it. In Second it replies Dirty, for its mark, and scans again.
//!
//! Two rounds are enough, for this reason. A caller finds the name of a From version in a word of some version. Either
//! the owner of that version keeps it, and the name is in the owner's holding; or it is a From version itself, and in
//! the holding of the caller that looks into it. So a From version comes into a holding only where one was in a holding
//! before. When Second begins all have replied Clean to the First, so whoever has one in its holding is marked. Nobody
//! takes its mark away in Second: so while one is left somebody does not reply Clean, and the cycle does not end.
//!
//! # What is proved
//!
//! The rule has what every moment keeps, a record a fact: of the stage, joins and masks (`specs/Stages.antt`), of scans
//! and marks (`specs/Scans.antt`), of versions (`specs/Chains.antt`); `specs/Rule.antt` has it whole. The laws in
//! `src/laws.rt` are for any number of callers, regions and versions, whoever owns which region:
//!
//! - each step keeps the rule, so every list of steps from an opening does ([`each_step_keeps_the_rule`]);
//! - what is reached is live, and no step ends its use ([`what_is_reached_is_not_used_again`]);
//! - when versions begin and cease to be live ([`a_version_lives_until_its_cycle_ends`]);
//! - how a region is freed ([`a_region_is_freed_after_its_cycle`]), how the stage moves and a cycle ends
//!   ([`a_cycle_ends_over_clean_replies`]), and what replies say of it ([`replies_keep_up_with_the_stage`]);
//! - what First and Second find ([`a_round_finds_what_is_left`]), and what a scan may rely on
//!   ([`a_scan_tells_the_truth`]);
//! - what last versions hold ([`chains_show_the_store`]), and how often regions are filled
//!   ([`a_region_is_filled_once_a_cycle`]);
//! - the story above is a run, and ends with both regions freed ([`one_clean_round_misses_what_two_find`]);
//! - a step changes its caller's part and one word, and nothing else ([`a_step_leaves_all_else`]).
//!
//! # How the steps of the heap go to these
//!
//! | A step of the heap | Here (`specs/Steps.antt`) |
//! |---|---|
//! | a load of a link or a reference of a version; of a stamp or a number | `Load`; none |
//! | a store into a link or a reference of the caller's next version; into its stamp or a number | `Write`; none |
//! | the publishing of that version as a new object | `Create` |
//! | an exchange of a link from 0 to that version, with a store or a copy; where it fails | `Hang`; `Miss` |
//! | the splitting and meeting of seats | none |
//! | a load of the stage | `LoadStage` |
//! | an exchange of the stage; where it fails | `MoveStage`; `LoadStage` |
//! | a load of a reply; a store of one's own | `LoadReply`; `StoreReply` |
//! | a load of a caller's roles | `LoadRoles` |
//! | a store of one's own roles, as a join, a turn or a reuse | `TakeJoin`, `Turn`, `Reuse` |
//! | a store of a later version into a link or a reference of an own version | `Shorten` |
//! | a step that lets a version go | that step, then `LetGo` |
//!
//! More may be done here than in a heap: any Free region may be taken, a join repeated in one Join, a turn taken and a
//! Join begun at any time; a caller may reply Clean to a First by whatever way it came to be bare, and Dirty though it
//! is unmarked; a Second may go back to First though nobody replied Dirty; any version may be copied, and let go though
//! it is not held. The number of a stage is one more here, since a fresh heap's stage has number 0. Stamps, numbers of
//! objects, histories and seats are not here.
#![tactic(auto)]

mod laws;

pub use laws::{
    a_cycle_ends_over_clean_replies, a_region_is_filled_once_a_cycle,
    a_region_is_freed_after_its_cycle, a_round_finds_what_is_left, a_scan_tells_the_truth,
    a_step_leaves_all_else, a_version_lives_until_its_cycle_ends, chains_show_the_store,
    each_step_keeps_the_rule, one_clean_round_misses_what_two_find, replies_keep_up_with_the_stage,
    what_is_reached_is_not_used_again,
};
