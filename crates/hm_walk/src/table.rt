//! What a random walk reads off the words of a Table of regions of 4 versions, and keeps beside it: what each caller
//! holds, by what its steps answered, and what each version was published as.
use hm_core::{Machine, Step, StepKind, StepRefused};
use hm_model::{Entry, Name};
use hm_shape::Version;

// What a walk keeps of a machine of up to 3 callers.
#[derive(Drop)]
pub(crate) struct Walk {
    pub callers: u32,
    pub machine: Machine,
    // The generator's state.
    pub random: u64,
    // Of each caller the stage's word that it saw, the places that it used in its To region, the number of the Join in
    // which it joined, and how many cycles were done then, how many objects it made, and on what it works.
    pub seen: [u64; 3],
    pub used: [u64; 3],
    pub join: [u64; 3],
    pub done: [u64; 3],
    pub made: [u64; 3],
    pub goal: [u64; 3],
    // Of each caller which of the 16 words of its next version are written, which masks it has, and what it holds.
    pub written: [bool; 48],
    pub masks: [bool; 9],
    pub held: [bool; 144],
    // Of each version of which object it is, and to which its four references refer.
    pub names: [Option<Name>; 48],
    pub refs: [Option<Name>; 192],
}

// The element at a place of a table with rows of this width; false where there is none.
pub(crate) fn is_set(list: &[bool], width: u32, row: u32, i: u32) -> bool {
    let at = row.wrapping_mul(width).wrapping_add(i) as usize;
    at < list.len() && list[at]
}

pub(crate) fn set(list: &mut [bool], at: (u32, u32, u32), value: bool) {
    let (width, row, i) = at;
    let at = row.wrapping_mul(width).wrapping_add(i) as usize;
    if at < list.len() {
        list[at] = value;
    }
}

// The number of a caller; 0 where there is none.
pub(crate) fn number(list: &[u64], i: u32) -> u64 {
    if (i as usize) < list.len() {
        list[i as usize]
    } else {
        0
    }
}

pub(crate) fn put(list: &mut [u64], i: u32, value: u64) {
    if (i as usize) < list.len() {
        list[i as usize] = value;
    }
}

// The name at a place; none where there is no such place.
pub(crate) fn name_at(list: &[Option<Name>], i: u32) -> Option<Name> {
    if (i as usize) < list.len() {
        list[i as usize]
    } else {
        None
    }
}

fn put_name(list: &mut [Option<Name>], i: u32, name: Option<Name>) {
    if (i as usize) < list.len() {
        list[i as usize] = name;
    }
}

impl Walk {
    // A draw from 0 up to a number.
    pub(crate) fn draw(&mut self, below: u32) -> u32 {
        self.random = self
            .random
            .wrapping_mul(6364136223846793005)
            .wrapping_add(1442695040888963407);
        if below == 0 {
            return 0;
        }
        (self.random >> 32) as u32 % below
    }

    // A word of the Table.
    pub(crate) fn word(&self, i: u64) -> u64 {
        self.machine.word(i).unwrap_or(0)
    }

    // Word `j` of a version.
    pub(crate) fn of(&self, v: u32, j: u32) -> u64 {
        let first = 2 * u64::from(self.callers) + 1;
        self.word(first + 16 * u64::from(v) + u64::from(j))
    }

    // How many versions there are.
    pub(crate) fn count(&self) -> u32 {
        self.callers.wrapping_mul(16)
    }

    // The stage's word.
    pub(crate) fn stage(&self) -> u64 {
        self.word(0)
    }

    // A caller's reply.
    pub(crate) fn reply(&self, c: u32) -> u64 {
        self.word(1 + u64::from(c))
    }

    // A caller's roles.
    pub(crate) fn roles(&self, c: u32) -> u64 {
        self.word(1 + u64::from(self.callers) + u64::from(c))
    }

    // The role of a row: 0 Free, 1 To, 2 Old, 3 From.
    pub(crate) fn role(&self, row: u32) -> u64 {
        role_in(self.roles(row / 4), row % 4)
    }

    // The region into which a caller writes.
    pub(crate) fn region(&self, c: u32) -> u32 {
        for region in 0..4u32 {
            if role_in(self.roles(c), region) == 1 {
                return region;
            }
        }
        4
    }

    // The caller's next version, if a place is left.
    pub(crate) fn next(&self, c: u32) -> Option<u32> {
        let used = number(&self.used, c);
        if used >= 4 {
            return None;
        }
        let row = c.wrapping_mul(4).wrapping_add(self.region(c));
        Some(row.wrapping_mul(4).wrapping_add(used as u32))
    }

    // Whether a version lies in a From region.
    pub(crate) fn is_from(&self, v: u32) -> bool {
        self.role(v / 4) == 3
    }

    // Whether a caller holds a version.
    pub(crate) fn holds(&self, c: u32, v: u32) -> bool {
        is_set(&self.held, 48, c, v)
    }

    // Whether a version is one that a caller published in its To and Old regions.
    pub(crate) fn owns(&self, c: u32, v: u32) -> bool {
        if v / 16 != c {
            return false;
        }
        match self.role(v / 4) {
            1 => u64::from(v % 4) < number(&self.used, c),
            2 => true,
            _ => false,
        }
    }

    // Whether a caller may look into a version.
    pub(crate) fn may_look(&self, c: u32, v: u32) -> bool {
        self.holds(c, v) || self.owns(c, v)
    }

    // The name of the object of which a word names a version.
    pub(crate) fn name_of(&self, word: u64) -> Option<Name> {
        let v = Version::named(word)?;
        name_at(&self.names, v.0)
    }

    // A caller holds the version that a word names.
    fn hold(&mut self, c: u32, word: u64) {
        if let Some(v) = Version::named(word) {
            set(&mut self.held, (48, c, v.0), true);
        }
    }

    // A caller has published its next version.
    fn publish(&mut self, c: u32, fresh: Option<u32>, name: Option<Name>) {
        let Some(v) = fresh else {
            return;
        };
        put_name(&mut self.names, v, name);
        for i in 0..4u32 {
            let refers = self.name_of(self.of(v, i + 2));
            put_name(&mut self.refs, v.wrapping_mul(4).wrapping_add(i), refers);
        }
        set(&mut self.held, (48, c, v), true);
        let used = number(&self.used, c).wrapping_add(1);
        put(&mut self.used, c, used);
        self.redraft(c);
    }

    // No word of its next version is written.
    fn redraft(&mut self, c: u32) {
        for i in 0..16u32 {
            set(&mut self.written, (16, c, i), false);
        }
    }

    // A step is taken, and what it answers is kept.
    pub(crate) fn take(&mut self, s: &Step) -> Result<u64, StepRefused> {
        let fresh = self.next(s.caller);
        let region = self.region(s.caller);
        let word = self.machine.apply(s)?;
        if let Some(gone) = s.let_go {
            set(&mut self.held, (48, s.caller, gone.0), false);
        }
        self.note(s.caller, &s.kind, word, fresh);
        if let StepKind::StoreRoles { .. } = s.kind {
            self.note_roles(s.caller, region);
        }
        if let Some(gone) = s.let_go {
            self.unwrite(s.caller, gone.0);
        }
        Ok(word)
    }

    // What a step leaves that found a word.
    fn note(&mut self, c: u32, kind: &StepKind, word: u64, fresh: Option<u32>) {
        match *kind {
            StepKind::LoadField { i, .. } => {
                if (2..6).contains(&i) {
                    self.hold(c, word);
                }
            }
            StepKind::LoadLink { .. } => self.hold(c, word),
            StepKind::StoreOwn { i, .. } => set(&mut self.written, (16, c, i), true),
            StepKind::Publish { entry } => {
                let made = number(&self.made, c).wrapping_add(1);
                put(&mut self.made, c, made);
                self.publish(c, fresh, name_made(&entry));
            }
            StepKind::LinkStore { v, .. } | StepKind::LinkCopy { v } => {
                if word == 0 {
                    let name = name_at(&self.names, v.0);
                    self.publish(c, fresh, name);
                } else {
                    self.hold(c, word);
                }
            }
            StepKind::LoadStage | StepKind::MoveStage { .. } => {
                let stage = self.stage();
                put(&mut self.seen, c, stage);
            }
            StepKind::LoadRoles { p } => {
                if number(&self.seen, c) % 4 == 2 {
                    set(&mut self.masks, (3, c, p), true);
                }
            }
            _ => {}
        }
    }

    // A caller has stored its roles, and wrote into this region before.
    fn note_roles(&mut self, c: u32, region: u32) {
        if self.region(c) != region {
            put(&mut self.used, c, 0);
            self.redraft(c);
        }
        match role_in(self.roles(c), region) {
            2 => {}
            3 => {
                let seen = number(&self.seen, c);
                put(&mut self.join, c, seen / 4294967296);
                put(&mut self.done, c, done_in(seen));
                self.unmask(c);
            }
            _ => self.unmask(c),
        }
    }

    // It has no masks.
    fn unmask(&mut self, c: u32) {
        for p in 0..3u32 {
            set(&mut self.masks, (3, c, p), false);
        }
    }

    // No word that names a version counts as written.
    fn unwrite(&mut self, c: u32, gone: u32) {
        let Some(v) = self.next(c) else {
            return;
        };
        for i in [0u32, 2, 3, 4, 5] {
            if self.of(v, i) == u64::from(gone) + 1 {
                set(&mut self.written, (16, c, i), false);
            }
        }
    }
}

// The role of a region in a word of roles.
pub(crate) fn role_in(roles: u64, region: u32) -> u64 {
    roles.wrapping_shr(region.wrapping_mul(2)) % 4
}

// The count of cycles in a word of the stage.
pub(crate) fn done_in(stage: u64) -> u64 {
    stage % 4294967296 / 4
}

// The object that a Create makes.
fn name_made(entry: &Entry) -> Option<Name> {
    match *entry {
        Entry::Create { name, .. } => Some(name),
        _ => None,
    }
}
